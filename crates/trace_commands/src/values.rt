// Calls on a table by value. The table in its slot is loaded, spoilt if the script asks for it, and handed to the call; the table that comes
// back is stored again. The line of a command is one of these, where SUM is a sum of a whole output that is untouched:
//   NAME: load N                            the slot has the stored form of no table, and nothing is called
//   NAME: by value, refusal N SUM           the call is refused; then what storing the table that came back gives
//   NAME: by value, response or draft ..    what was written into the response output; then the same
// and the table that came back is told by ` table ..`, what was written of its stored form, or by ` store N SUM`, if storing is refused.
use crate::{kind_of, lent_in};
use by_value::withdraw::withdraw;
use by_value::{Answer, run};
use fields::refusals::Refusal;
use key_table::forms::{load, store};
use key_table::records::Table;
use script::slots::{Slot, Slots};
use script::text::{Detail, adler, write_written};
use std::io;

// The first record's name says that it has n bytes.
fn with_name_len(mut t: Table, n: usize) -> Table {
    t.records[0].name_len = n;
    t
}

// The first record's name begins with the tail of a letter.
fn with_tail_first(mut t: Table) -> Table {
    t.records[0].name[0] = 0x80;
    t
}

// The second record has the first one's KeyID.
fn with_key_twice(mut t: Table) -> Table {
    let key_id = t.records[0].key_id;
    t.records[1].key_id = key_id;
    t
}

// Every record has the first one's mixed token.
fn with_one_mixed(mut t: Table) -> Table {
    let mixed = t.records[0].mixed;
    for record in t.records.iter_mut() {
        record.mixed = mixed;
    }
    t
}

// Spoils a table, so that it breaks a rule, as a value can and a stored form that loads cannot. The number says which rule; with any other number
// the table stays as it is.
fn spoil(t: Table, how: u32) -> Table {
    match how {
        1 => Table { len: 33, ..t },
        2 => with_name_len(t, 0),
        3 => with_name_len(t, 129),
        4 => with_key_twice(t),
        5 => with_one_mixed(t),
        6 => with_tail_first(t),
        _ => t,
    }
}

// Says what the call gave.
fn tell_answered(
    rt: &impl Print,
    answered: Result<Answer, Refusal>,
    response: &[u8],
) -> io::Result<()> {
    match answered {
        Err(refusal) => print!(rt; "refusal {} {}", u32::from(refusal), adler(response)),
        Ok(answer) => {
            print!(rt; "{}", kind_of(u32::from(answer.draft)))?;
            write_written(rt, response, answer.len, Detail::Whole)
        }
    }
}

// Stores the table that came back from a call and says what that gave: the stored form, if there is one.
fn hand_back<'a>(
    rt: &impl Print,
    t: Table,
    detail: Detail,
    table_out: &'a mut [u8],
) -> io::Result<Option<&'a [u8]>> {
    match store(t, table_out) {
        Err(refusal) => {
            print!(rt; " store {} {}", u32::from(refusal), adler(table_out))?;
            Ok(None)
        }
        Ok(len) => {
            print!(rt; " table")?;
            write_written(rt, table_out, len, detail)?;
            Ok(table_out.get(..len))
        }
    }
}

// The table in its slot, spoilt if the script asks for it; if the slot has the stored form of no table, says so.
fn table_in(rt: &impl Print, slots: &Slots) -> io::Result<Option<Table>> {
    match load(slots.arg(Slot::Table)) {
        Err(refusal) => {
            print!(rt; "load {}", u32::from(refusal))?;
            Ok(None)
        }
        Ok(t) => {
            print!(rt; "by value, ")?;
            Ok(Some(spoil(t, slots.number(Slot::Spoilt))))
        }
    }
}

// Calls with the table in its slot, if there is one, says what that gave, hands back the table left and keeps its stored form after a call that is not
// refused.
pub fn run_by_value(
    rt: &impl Print,
    detail: Detail,
    slots: &mut Slots,
    response: &mut [u8],
    table_out: &mut [u8],
) -> io::Result<()> {
    let Some(t) = table_in(rt, slots)? else {
        return Ok(());
    };
    let ran = run(slots.arg(Slot::Command), &lent_in(slots), t, response);
    tell_answered(rt, ran.answered, response)?;
    let form = hand_back(rt, ran.table, detail, table_out)?;
    if let (Ok(_), Some(form)) = (ran.answered, form) {
        slots.store(Slot::Table, form);
    }
    Ok(())
}

// Withdraws from the table in its slot, if there is one, says what that gave, hands back the table left and keeps its stored form after a withdrawal that
// is not refused.
pub fn withdraw_by_value(
    rt: &impl Print,
    slots: &mut Slots,
    table_out: &mut [u8],
) -> io::Result<()> {
    let Some(t) = table_in(rt, slots)? else {
        return Ok(());
    };
    let withdrew = withdraw(slots.arg(Slot::Mixed), slots.arg(Slot::KeyId), t);
    match withdrew.done {
        Ok(()) => print!(rt; "withdrawn")?,
        Err(refusal) => print!(rt; "refusal {}", u32::from(refusal))?,
    }
    let form = hand_back(rt, withdrew.table, Detail::Whole, table_out)?;
    if let (Ok(()), Some(form)) = (withdrew.done, form) {
        slots.store(Slot::Table, form);
    }
    Ok(())
}
