ghost use Rattle.std.specs.Prelude.{◌≡◌, ◌&&◌, length};
ghost use Rattle.std.proofs.Math.Option.{some};
ghost use Rattle.model.specs.Tlv as model;
ghost use Rattle.model.specs.Tlv.{fits, mixed_token};
ghost use Rattle.model.specs.Records.{encode};
ghost use Rattle.model.specs.Commands.{stored, on_gave};
ghost use Rattle.model.specs.Withdrawals.{withdraw};
ghost use Rattle.fields.specs.Refusals.{ended, ends};
ghost use Rattle.authenticator.specs.Withdrawing.{withdrawal};

use fields::refusals::Refusal;
use fields::{Field, fits};
use stored_table::records::{MAX_RECORDS, MAX_STORED};
use stored_table::table::StoredTable;

// Whether mixed token and KeyID have their lengths.
fn are_sized(mixed: &[u8], key_id: &[u8]) -> bool
    ensures { result ≡ (fits mixed_token mixed.now && fits model.key_id key_id.now) }
{
    fits(Field::MixedToken, mixed) && fits(Field::KeyId, key_id)
}

// A withdrawal on a table in its stored form: the refusals in their order, then the table is written without the record. The lengths are asked before the
// record is looked for, because a value of a wrong length stands in no record and would be refused with 7.
#[tactic(auto, using(crate::proofs::WithdrawLaws::short_told))]
pub fn withdraw(
    mixed: &[u8],
    key_id: &[u8],
    table: &[u8],
    table_out: &mut [u8],
) -> Result<usize, Refusal>
    ensures { ended result table_out.new
        ≡ ends
        (on_gave encode
        (withdraw (withdrawal mixed.now key_id.now (some (length table_out.old))) (stored table.now)))
        table_out.old }
{
    if table_out.len() < MAX_STORED {
        return Err(Refusal::ShortOutput);
    }
    let mut places = [0usize; MAX_RECORDS];
    let Some(table) = StoredTable::read(table, &mut places) else {
        return Err(Refusal::BrokenTable);
    };
    if !are_sized(mixed, key_id) {
        return Err(Refusal::WrongLent);
    }
    if !table.is_withdrawable(mixed, key_id) {
        return Err(Refusal::NotWithdrawable);
    }
    Ok(table.put_removed(table_out, mixed, key_id))
}
