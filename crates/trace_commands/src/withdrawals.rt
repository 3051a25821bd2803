// Withdrawals, on the stored table here and on the table by value in `values`. The line is one of these, where SUM is a sum of a whole output that is
// untouched:
//   NAME: refusal N LENGTH SUM              the withdrawal is refused; the length is the one that was lent
//   NAME: withdrawn table ..                what was written of the table left
//   NAME: load N                            the slot has the stored form of no table, and nothing is called
//   NAME: by value, refusal N ..            the withdrawal is refused; then what storing the table that came back gives, as for a command by value
//   NAME: by value, withdrawn ..            the record was taken back; then the same
use crate::Form;
use crate::values::withdraw_by_value;
use script::slots::{FILL, MOST, Slot, Slots, UNSET};
use script::text::Given;
use std::io;
use token::withdrawals::uaf_withdraw;

// Withdraws from the stored table, says what that gave and keeps the table left.
fn withdraw_stored(rt: &impl Print, slots: &mut Slots, table_out: &mut [u8]) -> io::Result<()> {
    let mut len = UNSET;
    let code = uaf_withdraw(
        slots.arg(Slot::Mixed),
        slots.arg(Slot::KeyId),
        slots.arg(Slot::Table),
        table_out,
        &mut len,
    );
    let given = Given { code, len };
    given.tell(rt, "withdrawn table", table_out)?;
    if let Some(table) = given.written(table_out) {
        slots.store(Slot::Table, table);
    }
    Ok(())
}

// Runs a withdrawal with an output of its own, on the table in this form, writes its line and keeps the table that it left for the next.
pub fn take_back(rt: &impl Print, name: &[u8], form: Form, slots: &mut Slots) -> io::Result<()> {
    rt.write_all(name)?;
    print!(rt; ": ")?;
    let mut table_out = [FILL; MOST];
    if let Some(table_out) = table_out.get_mut(..slots.length(Slot::TableLength)) {
        match form {
            Form::Stored => withdraw_stored(rt, slots, table_out)?,
            Form::ByValue => withdraw_by_value(rt, slots, table_out)?,
        }
    }
    println!(rt)
}
