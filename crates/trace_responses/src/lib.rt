// Completions, and both calls of the reader: one from the arguments in the slots, and the line that says what it gave.
#![tactic(auto)]

use response_reader::readings::MOST_FIELDS;
use response_reader::signed::signed_part;
use script::slots::{FILL, MOST, Slot, Slots, UNSET};
use script::text::{Given, adler};
use std::io;
use token::responses::{uaf_complete, uaf_read_fields, uaf_signed_part};

// Completes the draft in its slot.
fn complete_draft(slots: &Slots, response: &mut [u8]) -> Given {
    let mut len = UNSET;
    let code = uaf_complete(
        slots.number(Slot::Kind),
        slots.arg(Slot::Draft),
        slots.number(Slot::Attestation),
        slots.arg(Slot::Signature),
        slots.arg(Slot::Certificate),
        response,
        &mut len,
    );
    Given { code, len }
}

// Completes a draft into an output of its own, writes its line and keeps the response to be read.
pub fn complete(rt: &impl Print, name: &[u8], slots: &mut Slots) -> io::Result<()> {
    let mut output = [FILL; MOST];
    let Some(response) = output.get_mut(..slots.length(Slot::ResponseLength)) else {
        return Ok(());
    };
    let given = complete_draft(slots, response);
    rt.write_all(name)?;
    print!(rt; ": ")?;
    given.tell(rt, "completed", response)?;
    println!(rt)?;
    if let Some(completed) = given.written(response) {
        slots.store(Slot::Read, completed);
    }
    Ok(())
}

// What the second call gave, as the entry gives it: a refusal number, or 0, beside the numbers, and the fields in three columns. After a refusal these
// are told too, so that they are seen to be untouched.
#[derive(Clone, Copy)]
struct Listed {
    code: u32,
    tag: usize,
    status: usize,
    count: usize,
    tags: [usize; MOST_FIELDS],
    places: [usize; MOST_FIELDS],
    lengths: [usize; MOST_FIELDS],
}

// The second call.
fn list(s: &[u8]) -> Listed {
    let mut tag = UNSET;
    let mut status = UNSET;
    let mut count = UNSET;
    let mut tags = [UNSET; MOST_FIELDS];
    let mut places = [UNSET; MOST_FIELDS];
    let mut lengths = [UNSET; MOST_FIELDS];
    let code = uaf_read_fields(
        s,
        &mut tag,
        &mut status,
        &mut count,
        &mut tags,
        &mut places,
        &mut lengths,
    );
    Listed {
        code,
        tag,
        status,
        count,
        tags,
        places,
        lengths,
    }
}

// A sum of a column, to show that it has not changed.
fn sum(column: &[usize]) -> usize {
    column
        .iter()
        .fold(0, |n, x| (n % 65521 + x % 65521) % 65521)
}

// Every entry, so that those past the count are seen to be 0.
fn tell_fields(rt: &impl Print, listed: &Listed) -> io::Result<()> {
    for ((tag, place), length) in listed.tags.iter().zip(&listed.places).zip(&listed.lengths) {
        print!(rt; "; {tag} {place} {length}")?;
    }
    Ok(())
}

// Says what the second call gave: after a refusal a sum of each column.
fn tell_listed(rt: &impl Print, listed: &Listed) -> io::Result<()> {
    let Listed {
        code,
        tag,
        status,
        count,
        tags,
        places,
        lengths,
    } = *listed;
    print!(rt; " list {code} {tag} {status} {count}")?;
    if code != 0 {
        return print!(rt; " {} {} {}", sum(&tags), sum(&places), sum(&lengths));
    }
    tell_fields(rt, listed)
}

// Says what the first call gave by both of its forms: the place and the length, and the part itself.
fn tell_signed(rt: &impl Print, s: &[u8]) -> io::Result<()> {
    let mut place = UNSET;
    let mut length = UNSET;
    let code = uaf_signed_part(s, &mut place, &mut length);
    print!(rt; "signed {code} {place} {length}")?;
    let (refusal, part) = match signed_part(s) {
        Ok(part) => (0, part),
        Err(refusal) => (u32::from(refusal), &s[..0]),
    };
    print!(rt; " part {refusal} {} {}", part.len(), adler(part))
}

// Reads a response by both calls and writes one line.
pub fn read(rt: &impl Print, name: &[u8], slots: &Slots) -> io::Result<()> {
    let response = slots.arg(Slot::Read);
    rt.write_all(name)?;
    print!(rt; ": ")?;
    tell_signed(rt, response)?;
    tell_listed(rt, &list(response))?;
    println!(rt)
}
