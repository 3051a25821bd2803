// The entries: numbers and byte stretches only. crates/token_c exports them for C.
#![tactic(auto)]

pub mod hashes;
pub mod responses;
mod told;
pub mod withdrawals;
pub mod writers;

ghost use Rattle.std.specs.Prelude.{◌≡◌, length};
ghost use Rattle.std.proofs.Math.Option.{some};
ghost use Rattle.model.specs.Commands.{stored, outcome};
ghost use Rattle.params.specs.Lent.{lent_of, call};
ghost use Rattle.token.specs.Returned.{gets, draft_number, returned, numbers_of};

use authenticator::call::call;
use params::lent::{Lent, Numbers};

// A draft is told by 1, a response by 0.
fn draft_number(draft: bool) -> u32
    ensures { result ≡ draft_number draft }
{
    u32::from(draft)
}

// Runs a call on a table in its stored form. Gives the refusal number, or 0; then response_len bytes of the response output are a response
// (answer 0) or a draft (1), and table_len bytes of the table output are the stored form of the table left.
pub fn uaf_command(
    command: &[u8],
    aaid: &[u8],
    version: u32,
    signature_algorithm: u32,
    key_algorithm: u32,
    metadata: &[u8],
    verdict: u32,
    display: u32,
    key_id: &[u8],
    public_key: &[u8],
    nonce: &[u8],
    table: &[u8],
    response: &mut [u8],
    table_out: &mut [u8],
    answer: &mut u32,
    response_len: &mut usize,
    table_len: &mut usize,
) -> u32
    ensures { gets result answer.new response_len.new table_len.new response.new table_out.new
        ≡ returned
        (outcome
        (call command.now
        (lent_of aaid.now (numbers_of version signature_algorithm key_algorithm verdict display) metadata.now
        key_id.now public_key.now nonce.now)
        (length response.old) (some (length table_out.old)))
        (stored table.now))
        (gets 0 answer.old response_len.old table_len.old response.old table_out.old) }
{
    let numbers = Numbers {
        version,
        signature_algorithm,
        key_algorithm,
        verdict,
        display,
    };
    let lent = Lent {
        aaid,
        numbers,
        metadata,
        key_id,
        public_key,
        nonce,
    };
    match call(command, &lent, table, response, table_out) {
        Err(refusal) => u32::from(refusal),
        Ok(gave) => {
            *answer = draft_number(gave.draft);
            *response_len = gave.response_len;
            *table_len = gave.table_len;
            0
        }
    }
}
