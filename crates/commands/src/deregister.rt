ghost use Rattle.std.specs.Prelude.{◌≡◌, ℕ, List};
ghost use Rattle.model.specs.Tlv.{deregister};
ghost use Rattle.model.specs.Records.{own};
ghost use Rattle.model.specs.Commands.{refused, judge, deregister_checks};
ghost use Rattle.params.specs.Parse.{ParamsRead};
ghost use Rattle.params.specs.declared.lent.Numbers.{Numbers};
ghost use Rattle.commands.specs.Decisions.{Decides, judged, passed, decided};

use crate::decision::{Decision, plain};
use params::parse::Params;
use replies::reply::Shape;
use replies::status::{OK, Status};
use stored_table::left::Change;
use stored_table::table::StoredTable;
use tlv::heads::part_of;

// Deregister's statuses in their order: a rule broken, then a KeyID that is not the caller's. An empty one always passes.
#[tactic(auto, unfolding(model::specs::Commands::judge), using(crate::proofs::JudgeLaws::breaks_none))]
fn judge_deregister(
    command: &[u8],
    params: Params,
    mixed: &[u8],
    table: &StoredTable,
) -> Result<(), Status>
    requires params_read { ParamsRead deregister command.now params }
    ensures { judged result ≡ judge (deregister_checks command.now (own mixed.now table.now)) refused passed }
{
    if params.broken {
        return Err(Status::ParamsInvalid);
    }
    let key = params.key_id;
    if !key.is_empty() && !table.is_own(mixed, part_of(command, key)) {
        return Err(Status::AccessDenied);
    }
    Ok(())
}

// Deregister: a status, and OK with one record removed or all of the mixed token's.
pub fn deregister(
    command: &[u8],
    params: Params,
    mixed: &[u8],
    table: &StoredTable,
) -> Result<Decision, Status>
    requires params_read { ParamsRead deregister command.now params }
    ensures { (n : Numbers) (k chosen : List ℕ) → Decides deregister command.now n mixed.now k table.now params chosen (decided result) }
{
    judge_deregister(command, params, mixed, table)?;
    Ok(plain(Shape::Status(OK), Change::Remove(params.key_id)))
}
