ghost use Rattle.std.specs.Prelude.{◌≡◌, ℕ, ◌+◌, List, length};
ghost use Rattle.model.specs.Tlv.{sign};
ghost use Rattle.model.specs.Commands.{refused, gave, judge, user_checks, one_checks};
ghost use Rattle.params.specs.Parse.{ParamsRead, HandlesRead};
ghost use Rattle.commands.specs.Decisions.{Decides, DecidesOne, judged, passed, decided};

use crate::decision::{Decision, plain};
use crate::statuses::{display_status, verdict_status};
use params::lent::Numbers;
use params::parse::Params;
use replies::reply::Shape;
use replies::status::Status;
use stored_table::left::Change;
use stored_table::table::StoredTable;

// Sign's statuses before the choice: a rule broken, then the verdict.
#[tactic(auto, unfolding(model::specs::Commands::judge))]
fn judge_sign(broken: bool, verdict: u32) -> Result<(), Status>
    ensures { judged result ≡ judge (user_checks broken verdict) refused passed }
{
    if broken {
        return Err(Status::ParamsInvalid);
    }
    if verdict != 0 {
        return Err(verdict_status(verdict));
    }
    Ok(())
}

// The display result, which counts with content only, then the counter, which rises by 1.
#[tactic(auto, unfolding(model::specs::Commands::judge))]
fn judge_one(content: bool, display: u32, count: u32) -> Result<u32, Status>
    ensures { judged result ≡ judge (one_checks content display count) refused (gave (count + 1)) }
{
    if content && display != 0 {
        return Err(display_status(display));
    }
    count.checked_add(1).ok_or(Status::ErrUnknown)
}

// One is chosen, with this count: record i.
fn sign_one(content: bool, display: u32, count: u32, i: usize) -> Result<Decision, Status>
    ensures { DecidesOne content display count i (decided result) }
{
    let next = judge_one(content, display, count)?;
    let shape = Shape::Signed {
        record: i,
        count: next,
        content,
    };
    Ok(plain(
        shape,
        Change::SetCount {
            record: i,
            count: next,
        },
    ))
}

// Sign: a status, the names of several, whose numbers it puts into what is lent for them, or signed data and a count raised. The key handles stand at
// the first of these places.
pub fn sign(
    command: &[u8],
    params: Params,
    handles: &[usize],
    numbers: Numbers,
    mixed: &[u8],
    table: &StoredTable,
    chosen: &mut [usize],
) -> Result<Decision, Status>
    requires params_read { ParamsRead sign command.now params × HandlesRead sign command.now handles.now params.handle_count }
    requires chosen_len { length chosen.old ≡ 8 }
    ensures { (k : List ℕ) → Decides sign command.now numbers mixed.now k table.now params
        chosen.new (decided result) }
{
    judge_sign(params.broken, numbers.verdict)?;
    let given = &handles[..params.handle_count];
    let named = table.choose(mixed, command, given, chosen);
    match named {
        0 => Err(Status::AccessDenied),
        1 => {
            let i = chosen[0];
            let content = !params.transaction_content.is_empty();
            let count = table.count_of(i);
            sign_one(content, numbers.display, count, i)
        }
        _ => Ok(Decision {
            shape: Shape::Names,
            named,
            change: Change::Keep,
        }),
    }
}
