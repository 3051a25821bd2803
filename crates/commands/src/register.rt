ghost use Rattle.std.specs.Prelude.{◌≡◌, ℕ, ◌||◌, List, [], leb, eqb, length};
ghost use Rattle.model.specs.Lists.{among};
ghost use Rattle.model.specs.Tlv.{register, full, surrogate};
ghost use Rattle.model.specs.Records.{own, key_ids, max_records};
ghost use Rattle.model.specs.Commands.{refused, judge, register_checks};
ghost use Rattle.params.specs.Lent.{lent_of};
ghost use Rattle.params.specs.Parse.{ParamsRead};
ghost use Rattle.commands.specs.Decisions.{Decides, judged, passed, decided};

use crate::decision::{Decision, plain};
use crate::statuses::verdict_status;
use fields::tags;
use params::lent::Numbers;
use params::parse::Params;
use replies::reply::Shape;
use replies::status::Status;
use stored_table::left::Change;
use stored_table::records::{MAX_OWN, MAX_RECORDS};
use stored_table::table::StoredTable;
use tlv::numbers::get16;

// Whether an attestation type is one of the two.
fn is_supported(attestation: usize) -> bool
    ensures { result ≡ (eqb attestation full || eqb attestation surrogate) }
{
    attestation == tags::BASIC_FULL || attestation == tags::BASIC_SURROGATE
}

// Register's statuses in their order. They do not look at what is lent for the draft alone.
#[tactic(auto, unfolding(model::specs::Commands::judge, model::specs::Commands::register_checks), using(crate::proofs::JudgeLaws::breaks_none))]
fn judge_register(
    command: &[u8],
    params: Params,
    numbers: Numbers,
    mixed: &[u8],
    key_id: &[u8],
    table: &StoredTable,
) -> Result<(), Status>
    requires params_read { ParamsRead register command.now params }
    ensures { judged result ≡ judge (register_checks command.now (lent_of [] numbers [] key_id.now [] [])
        (own mixed.now table.now)
        (among key_id.now (key_ids table.now)) (leb max_records (length table.now))) refused passed }
{
    if params.broken {
        return Err(Status::ParamsInvalid);
    }
    if numbers.verdict != 0 {
        return Err(verdict_status(numbers.verdict));
    }
    if !is_supported(get16(command, params.attestation_type.start)) {
        return Err(Status::AttestationNotSupported);
    }
    if table.is_stored(key_id) {
        return Err(Status::ErrUnknown);
    }
    if MAX_OWN <= table.own_count(mixed) || MAX_RECORDS <= table.len() {
        return Err(Status::InsufficientResources);
    }
    Ok(())
}

// Register: a status, or key registration data and a record more.
pub fn register(
    command: &[u8],
    params: Params,
    numbers: Numbers,
    mixed: &[u8],
    key_id: &[u8],
    table: &StoredTable,
) -> Result<Decision, Status>
    requires params_read { ParamsRead register command.now params }
    requires mixed_len { (length mixed.now ≡ 32) × (length key_id.now ≡ 32) }
    ensures { (chosen : List ℕ) → Decides register command.now numbers mixed.now key_id.now table.now
        params chosen (decided result) }
{
    judge_register(command, params, numbers, mixed, key_id, table)?;
    Ok(plain(Shape::Registration, Change::Add(params.username)))
}
