use script::slots::{FILL, Slot, Slots};
use script::text::{Detail, write_written};
use std::io;
use token::hashes::uaf_hash;

// The length of a hash.
const SIZE: usize = 32;

// Writes a line with the hash of the two stretches in their slots.
pub fn hash(rt: &impl Print, name: &[u8], slots: &Slots) -> io::Result<()> {
    rt.write_all(name)?;
    print!(rt; ": hash")?;
    let mut digest = [FILL; SIZE];
    uaf_hash(slots.arg(Slot::First), slots.arg(Slot::Second), &mut digest);
    write_written(rt, &digest, SIZE, Detail::Whole)?;
    println!(rt)
}
