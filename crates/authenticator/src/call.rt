ghost use Rattle.std.specs.Prelude.{◌≡◌, ◌≤◌, true, Ok, length};
ghost use Rattle.std.proofs.Math.Option.{some};
ghost use Rattle.model.specs.Records.{max_stored};
ghost use Rattle.model.specs.Commands.{least_output, short_output, lent_ok, stored, perform, gave, outcome};
ghost use Rattle.params.specs.Kinds.{kind_is};
ghost use Rattle.params.specs.Lent.{call};
ghost use Rattle.authenticator.specs.Outcomes.{ended, ends, outputs_of};

use crate::outcome::Gave;
use commands::caller::mixed_token;
use commands::decide::decide;
use fields::LEAST_OUTPUT;
use fields::refusals::Refusal;
use params::kinds::{Kind, kind_of};
use params::lent::Lent;
use params::parse::{MOST_HANDLES, params_of};
use replies::write::{reply_len, write_reply};
use stored_table::records::{MAX_OWN, MAX_RECORDS, MAX_STORED};
use stored_table::table::StoredTable;

// Whether an output is too short for what may be written into it.
fn is_short(response: usize, table: usize) -> bool
    ensures { result ≡ short_output response (some table) }
{
    response < LEAST_OUTPUT || table < MAX_STORED
}

// A call that is not refused: its command is parsed, its caller's mixed token worked out, the command decided, the reply written, and the table left.
fn perform(
    kind: Kind,
    command: &[u8],
    lent: &Lent,
    table: &StoredTable,
    response: &mut [u8],
    table_out: &mut [u8],
) -> Gave
    requires lent_value { lent_ok (kind_is kind) lent.now ≡ true }
    requires room { (least_output ≤ length response.old) × (max_stored ≤ length table_out.old) }
    ensures { ended (Ok result) response.new table_out.new
        ≡ ends
        (gave (perform (kind_is kind)
        (call command.now lent.now (length response.old) (some (length table_out.old)))
        table.now))
        (outputs_of response.old table_out.old) }
{
    let mut handles = [0usize; MOST_HANDLES];
    let params = params_of(command, kind, &mut handles);
    let mixed = mixed_token(kind, command, params, lent.numbers.verdict);
    let key_id = lent.key_id;
    let mut chosen = [0usize; MAX_OWN];
    let decision = decide(
        kind,
        command,
        params,
        &handles,
        lent.numbers,
        &mixed,
        key_id,
        table,
        &mut chosen,
    );
    let named = &chosen[..decision.named];
    let shape = decision.shape;
    let response_len = reply_len(
        shape,
        named,
        params.challenge_hash,
        lent.public_key,
        lent.nonce,
        table,
    );
    write_reply(
        response,
        shape,
        named,
        response_len,
        kind,
        command,
        params,
        lent,
        table,
    );
    let change = decision.change;
    let table_len = table.put_left(table_out, change, command, &mixed, key_id);
    Gave {
        draft: shape.is_draft(),
        response_len,
        table_len,
    }
}

// A call on a table in its stored form: document 01's refusals in their order, then the command.
pub fn call(
    command: &[u8],
    lent: &Lent,
    table: &[u8],
    response: &mut [u8],
    table_out: &mut [u8],
) -> Result<Gave, Refusal>
    ensures { ended result response.new table_out.new
        ≡ ends
        (outcome
        (call command.now lent.now (length response.old) (some (length table_out.old)))
        (stored table.now))
        (outputs_of response.old table_out.old) }
{
    if is_short(response.len(), table_out.len()) {
        return Err(Refusal::ShortOutput);
    }
    let mut places = [0usize; MAX_RECORDS];
    let Some(table) = StoredTable::read(table, &mut places) else {
        return Err(Refusal::BrokenTable);
    };
    let Some(kind) = kind_of(command) else {
        return Err(Refusal::NoCommand);
    };
    if !lent.is_ok_for(kind) {
        return Err(Refusal::WrongLent);
    }
    Ok(perform(kind, command, lent, &table, response, table_out))
}
