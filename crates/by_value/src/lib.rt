// A call on a table by value: the table is put into the stored form, the call goes the way of every call, and the table left is taken out again.
// `withdraw` has the withdrawal.
#![tactic(auto)]

pub mod withdraw;

ghost use Rattle.std.specs.Prelude.{◌≡◌, length};
ghost use Rattle.std.proofs.Math.Option.{none};
ghost use Rattle.model.specs.Commands.{value, outcome};
ghost use Rattle.params.specs.Lent.{call};
ghost use Rattle.key_table.specs.Views.{view_table};
ghost use Rattle.by_value.specs.Runs.{ended, ends};

use authenticator::call::call;
use fields::refusals::Refusal;
use key_table::forms::{load, put_form};
use key_table::records::Table;
use params::lent::Lent;
use stored_table::records::MAX_STORED;

// What was written of a call that is not refused: a response or a draft, of this length.
#[derive(Clone, Copy, Debug, PartialEq, Eq)]
pub struct Answer {
    pub draft: bool,
    pub len: usize,
}

// What a call by value gives, and the table that it leaves.
#[derive(Clone, Copy)]
pub struct Ran {
    pub answered: Result<Answer, Refusal>,
    pub table: Table,
}

// Runs a call on a table by value. After a refusal the table is the very value that came.
pub fn run(command: &[u8], lent: &Lent, t: Table, response: &mut [u8]) -> Ran
    ensures { ended result response.new
        ≡ ends
        (outcome (call command.now lent.now (length response.old) none) (value (view_table t)))
        t response.old }
{
    let mut form = [0u8; MAX_STORED];
    let size = put_form(&mut form, t);
    let mut left = [0u8; MAX_STORED];
    match call(command, lent, &form[..size], response, &mut left) {
        Err(refusal) => Ran {
            answered: Err(refusal),
            table: t,
        },
        Ok(gave) => {
            let answer = Answer {
                draft: gave.draft,
                len: gave.response_len,
            };
            let table = load(&left[..gave.table_len]).unwrap();
            Ran {
                answered: Ok(answer),
                table,
            }
        }
    }
}
