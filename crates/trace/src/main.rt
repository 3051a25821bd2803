// Runs the calls of a script on the C entries, or on a table by value, and writes what each gives. A line of the script is a letter, a space
// and bytes in hexadecimal, which sets an argument until it is set again; '!', a space and a name run a command, and '?' does so and writes
// the table left; '&' and '@' do the same by value; '-' withdraws, and '~' does so by value; '=' completes a draft; '<' reads a response, and '^' changes a
// byte of it; '+' writes a command; '%' hashes. Other lines are comments. After a command or a withdrawal that is not refused the table left is the table
// of the next, whichever its form; a completed response is the next one read, and a written command the next one run.
#![tactic(auto)]

use script::slots::{MOST, Slot, Slots};
use script::text::{Detail, read_hex};
use std::io;
use std::io::Read;
use trace_commands::hashes::hash;
use trace_commands::withdrawals::take_back;
use trace_commands::{Form, run};
use trace_responses::{complete, read};
use trace_writers::write;

// Sets the argument of a letter that has a slot.
fn set(letter: u8, text: &[u8], slots: &mut Slots) {
    if let Some(slot) = Slot::of(letter) {
        let mut room = [0; MOST];
        slots.store(slot, read_hex(text, &mut room));
    }
}

// Sets one byte of the response to be read: the text has its place in two bytes, and the byte.
fn change(text: &[u8], slots: &mut Slots) {
    let mut bytes = [0; 3];
    read_hex(text, &mut bytes);
    let [low, high, byte] = bytes;
    slots.change(u16::from_le_bytes([low, high]), byte);
}

// Does what one line says.
fn obey(rt: &impl Print, line: &[u8], slots: &mut Slots) -> io::Result<()> {
    let [letter, _, rest @ ..] = line else {
        return Ok(());
    };
    match letter {
        b'!' => run(rt, rest, Form::Stored, Detail::Sums, slots),
        b'?' => run(rt, rest, Form::Stored, Detail::Whole, slots),
        b'&' => run(rt, rest, Form::ByValue, Detail::Sums, slots),
        b'@' => run(rt, rest, Form::ByValue, Detail::Whole, slots),
        b'-' => take_back(rt, rest, Form::Stored, slots),
        b'~' => take_back(rt, rest, Form::ByValue, slots),
        b'=' => complete(rt, rest, slots),
        b'<' => read(rt, rest, slots),
        b'^' => {
            change(rest, slots);
            Ok(())
        }
        b'+' => write(rt, rest, slots),
        b'%' => hash(rt, rest, slots),
        _ => {
            set(*letter, rest, slots);
            Ok(())
        }
    }
}

// A script has at most so many bytes, and a line at most a letter, a space and the longest argument: what is longer is cut off.
const MOST_TEXT: usize = 1048576;

const MOST_LINE: usize = 2 + 2 * MOST;

// Does what each line of the script says, the last also without its newline. A line has a fixed buffer, with its length beside it: with a heap the
// program would rest on one more part of the C library.
fn obey_all<R: Print + Input>(rt: &R, slots: &mut Slots) -> io::Result<()> {
    let mut reader = rt.reader();
    let mut byte = [0; 1];
    let mut line = [0; MOST_LINE];
    let mut len = 0;
    for _ in 0..MOST_TEXT {
        if reader.read(&mut byte)? == 0 {
            break;
        }
        if byte[0] == b'\n' {
            obey(rt, &line[..len], slots)?;
            len = 0;
        } else if len < MOST_LINE {
            line[len] = byte[0];
            len += 1;
        }
    }
    obey(rt, &line[..len], slots)
}

fn main(rt: HostRuntime) -> io::Result<()> {
    let mut slots = Slots::empty();
    obey_all(&rt, &mut slots)
}
