// The writers of commands: one from the arguments in the slots, and the line that says what it gave.
#![tactic(auto)]

use script::slots::{FILL, MOST, Slot, Slots, UNSET};
use script::text::Given;
use std::io;
use token::writers::{
    uaf_write_deregister, uaf_write_get_info, uaf_write_open_settings, uaf_write_register,
    uaf_write_sign,
};

// So many lengths of key handles are taken, each of four bytes.
const MOST_SIZES: usize = 16;

// Takes the lengths in their slot, as many as there is room for; those that were taken.
fn sizes_in<'a>(slots: &Slots, room: &'a mut [usize; MOST_SIZES]) -> &'a [usize] {
    let (lengths, _) = slots.arg(Slot::HandleSizes).as_chunks::<4>();
    for (size, bytes) in room.iter_mut().zip(lengths) {
        *size = u32::from_le_bytes(*bytes) as usize;
    }
    let n = lengths.len().min(MOST_SIZES);
    &room[..n]
}

fn register(slots: &Slots, command: &mut [u8], len: &mut usize) -> u32 {
    uaf_write_register(
        slots.number(Slot::AppIdGiven),
        slots.arg(Slot::AppId),
        slots.arg(Slot::Challenge),
        slots.arg(Slot::Username),
        slots.number(Slot::Attestation),
        slots.arg(Slot::AccessToken),
        slots.number(Slot::VerifyTokenGiven),
        slots.arg(Slot::VerifyToken),
        command,
        len,
    )
}

fn sign(slots: &Slots, command: &mut [u8], len: &mut usize) -> u32 {
    let mut room = [0; MOST_SIZES];
    uaf_write_sign(
        slots.number(Slot::AppIdGiven),
        slots.arg(Slot::AppId),
        slots.arg(Slot::Challenge),
        slots.number(Slot::ContentGiven),
        slots.arg(Slot::Content),
        slots.arg(Slot::AccessToken),
        slots.number(Slot::VerifyTokenGiven),
        slots.arg(Slot::VerifyToken),
        slots.arg(Slot::Handles),
        sizes_in(slots, &mut room),
        command,
        len,
    )
}

fn deregister(slots: &Slots, command: &mut [u8], len: &mut usize) -> u32 {
    uaf_write_deregister(
        slots.number(Slot::AppIdGiven),
        slots.arg(Slot::AppId),
        slots.arg(Slot::KeyId),
        slots.arg(Slot::AccessToken),
        command,
        len,
    )
}

// Writes the command whose number is in the slot of the kind.
fn write_kind(slots: &Slots, command: &mut [u8]) -> Given {
    let mut len = UNSET;
    let code = match slots.number(Slot::Kind) {
        0 => uaf_write_get_info(command, &mut len),
        1 => register(slots, command, &mut len),
        2 => sign(slots, command, &mut len),
        3 => deregister(slots, command, &mut len),
        _ => uaf_write_open_settings(command, &mut len),
    };
    Given { code, len }
}

// Writes a command into an output of its own, writes its line and keeps the command to be run.
pub fn write(rt: &impl Print, name: &[u8], slots: &mut Slots) -> io::Result<()> {
    let mut output = [FILL; MOST];
    let Some(command) = output.get_mut(..slots.length(Slot::ResponseLength)) else {
        return Ok(());
    };
    let given = write_kind(slots, command);
    rt.write_all(name)?;
    print!(rt; ": ")?;
    given.tell(rt, "written", command)?;
    println!(rt)?;
    if let Some(written) = given.written(command) {
        slots.store(Slot::Command, written);
    }
    Ok(())
}
