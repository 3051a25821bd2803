// Calls from the arguments in the slots, and the line that says what each gave: of `uaf_command` here, on a table by value in `values`, of `uaf_withdraw`
// and of a withdrawal by value in `withdrawals`, of `uaf_hash` in `hashes`.
#![tactic(auto)]

pub mod hashes;
mod values;
pub mod withdrawals;

use crate::values::run_by_value;
use params::lent::{Lent, Numbers};
use script::slots::{FILL, MOST, NO_ANSWER, Slot, Slots, UNSET};
use script::text::{Detail, adler, write_written};
use std::io;
use token::uaf_command;

// How a call is handed the table.
#[derive(Clone, Copy)]
pub enum Form {
    Stored,
    ByValue,
}

// What a call gave: the refusal number, or 0, and the three numbers. After a refusal these are told too, so that they are seen to be untouched.
#[derive(Clone, Copy)]
struct Given {
    code: u32,
    answer: u32,
    response_len: usize,
    table_len: usize,
}

// What a call is lent beside its command, from the slots.
fn lent_in(slots: &Slots) -> Lent<'_> {
    let numbers = Numbers {
        version: slots.number(Slot::Version),
        signature_algorithm: slots.number(Slot::SignatureAlgorithm),
        key_algorithm: slots.number(Slot::KeyAlgorithm),
        verdict: slots.number(Slot::Verdict),
        display: slots.number(Slot::Display),
    };
    Lent {
        aaid: slots.arg(Slot::Aaid),
        numbers,
        metadata: slots.arg(Slot::Metadata),
        key_id: slots.arg(Slot::KeyId),
        public_key: slots.arg(Slot::PublicKey),
        nonce: slots.arg(Slot::Nonce),
    }
}

// Calls with the arguments in the slots and two outputs.
fn call(slots: &Slots, response: &mut [u8], table_out: &mut [u8]) -> Given {
    let lent = lent_in(slots);
    let mut answer = NO_ANSWER;
    let mut response_len = UNSET;
    let mut table_len = UNSET;
    let code = uaf_command(
        slots.arg(Slot::Command),
        lent.aaid,
        lent.numbers.version,
        lent.numbers.signature_algorithm,
        lent.numbers.key_algorithm,
        lent.metadata,
        lent.numbers.verdict,
        lent.numbers.display,
        lent.key_id,
        lent.public_key,
        lent.nonce,
        slots.arg(Slot::Table),
        response,
        table_out,
        &mut answer,
        &mut response_len,
        &mut table_len,
    );
    Given {
        code,
        answer,
        response_len,
        table_len,
    }
}

// What the response output holds, by the number that the call gave.
fn kind_of(answer: u32) -> &'static str {
    match answer {
        0 => "response",
        1 => "draft",
        _ => "neither",
    }
}

// Says what a call gave: after a refusal its number, the other numbers, and a sum of each output; else what it wrote.
fn tell(
    rt: &impl Print,
    given: Given,
    detail: Detail,
    response: &[u8],
    table_out: &[u8],
) -> io::Result<()> {
    let Given {
        code,
        answer,
        response_len,
        table_len,
    } = given;
    if code != 0 {
        print!(rt; "refusal {code} {answer} {response_len} {table_len}")?;
        return print!(rt; " {} {}", adler(response), adler(table_out));
    }
    print!(rt; "{}", kind_of(answer))?;
    write_written(rt, response, response_len, Detail::Whole)?;
    print!(rt; " table")?;
    write_written(rt, table_out, table_len, detail)
}

// Runs a call on the stored table, says what it gave and keeps the table left.
fn run_stored(
    rt: &impl Print,
    detail: Detail,
    slots: &mut Slots,
    response: &mut [u8],
    table_out: &mut [u8],
) -> io::Result<()> {
    let given = call(slots, response, table_out);
    tell(rt, given, detail, response, table_out)?;
    if given.code == 0
        && let Some(table) = table_out.get(..given.table_len)
    {
        slots.store(Slot::Table, table);
    }
    Ok(())
}

// Runs a command with outputs of its own, on the table in this form, writes its line, with so much of the table left, and keeps that for the next.
pub fn run(
    rt: &impl Print,
    name: &[u8],
    form: Form,
    detail: Detail,
    slots: &mut Slots,
) -> io::Result<()> {
    rt.write_all(name)?;
    print!(rt; ": ")?;
    let mut response = [FILL; MOST];
    let mut table_out = [FILL; MOST];
    let response = response.get_mut(..slots.length(Slot::ResponseLength));
    let table_out = table_out.get_mut(..slots.length(Slot::TableLength));
    if let (Some(response), Some(table_out)) = (response, table_out) {
        match form {
            Form::Stored => run_stored(rt, detail, slots, response, table_out)?,
            Form::ByValue => run_by_value(rt, detail, slots, response, table_out)?,
        }
    }
    println!(rt)
}
