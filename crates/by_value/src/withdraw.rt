// A withdrawal on a table by value, which goes the same way as a call: the table is put into the stored form, and the table left is taken out again.
ghost use Rattle.std.specs.Prelude.{◌≡◌};
ghost use Rattle.std.proofs.Math.Option.{none};
ghost use Rattle.model.specs.Commands.{value};
ghost use Rattle.model.specs.Withdrawals.{withdraw};
ghost use Rattle.authenticator.specs.Withdrawing.{withdrawal};
ghost use Rattle.key_table.specs.Views.{view_table};
ghost use Rattle.by_value.specs.Withdrew.{ended, ends};

use authenticator::withdraw;
use fields::refusals::Refusal;
use key_table::forms::{load, put_form};
use key_table::records::Table;
use stored_table::records::MAX_STORED;

// What a withdrawal by value gives: that the record was taken back, or a refusal; and the table that it leaves.
#[derive(Clone, Copy)]
pub struct Withdrew {
    pub done: Result<(), Refusal>,
    pub table: Table,
}

// Takes a record back from a table by value. After a refusal the table is the very value that came.
pub fn withdraw(mixed: &[u8], key_id: &[u8], t: Table) -> Withdrew
    ensures { ended result ≡ ends (withdraw (withdrawal mixed.now key_id.now none) (value (view_table t))) t }
{
    let mut form = [0u8; MAX_STORED];
    let size = put_form(&mut form, t);
    let mut left = [0u8; MAX_STORED];
    match withdraw::withdraw(mixed, key_id, &form[..size], &mut left) {
        Err(refusal) => Withdrew {
            done: Err(refusal),
            table: t,
        },
        Ok(n) => {
            let table = load(&left[..n]).unwrap();
            Withdrew {
                done: Ok(()),
                table,
            }
        }
    }
}
