// Completion: a draft and its signature become a response.
#![tactic(auto)]

mod writers;

ghost use Rattle.std.specs.Prelude.{◌≡◌, [], length};
ghost use Rattle.model.specs.Complete.{is_draft, completion_ok, complete};
ghost use Rattle.fields.specs.Refusals.{ended, ends};
ghost use Rattle.completion.specs.Completions.{completion, kind_number, KindOf};

use crate::writers::{put_registration, put_sign};
use fields::refusals::Refusal;
use fields::{Field, LEAST_OUTPUT, fits, tags};
use layouts::{after_krd, after_signed};

// The kinds of completion, with the numbers by which C gives them.
#[derive(Clone, Copy)]
enum Kind {
    Registration = 0,
    Sign = 1,
}

// No command writes a draft of another kind.
impl TryFrom<u32> for Kind {
    type Error = Refusal;

    ghost try_from_gives = { KindOf };

    fn try_from(n: u32) -> Result<Kind, Refusal> {
        match n {
            0 => Ok(Kind::Registration),
            1 => Ok(Kind::Sign),
            _ => Err(Refusal::NotWritten),
        }
    }
}

// Whether a command can write this draft for this kind.
#[tactic(auto, using(crate::proofs::CompletionLaws::registration_by, crate::proofs::CompletionLaws::sign_by))]
fn is_draft(kind: Kind, draft: &[u8]) -> bool
    ensures { result ≡ is_draft (kind_number kind) draft.now }
{
    match kind {
        Kind::Registration => after_krd(draft, 0) == draft.len(),
        Kind::Sign => after_signed(draft, 0) == draft.len(),
    }
}

// Whether signature, attestation type and certificate are what this kind takes.
#[tactic(auto, using(crate::proofs::CompletionLaws::by_seal))]
fn completion_ok(kind: Kind, attestation: usize, signature: &[u8], certificate: &[u8]) -> bool
    ensures { result ≡ completion_ok (completion (kind_number kind) [] attestation signature.now certificate.now 0) }
{
    if !fits(Field::Signature, signature) {
        return false;
    }
    match (kind, attestation) {
        (Kind::Sign, _) => true,
        (Kind::Registration, tags::BASIC_FULL) => fits(Field::Certificate, certificate),
        (Kind::Registration, tags::BASIC_SURROGATE) => certificate.is_empty(),
        (Kind::Registration, _) => false,
    }
}

// Completes a draft: the refusals in document 01's order, then the response of its kind.
#[tactic(auto, using(crate::proofs::CompletionLaws::short_ends))]
pub fn complete(
    kind: u32,
    draft: &[u8],
    attestation: usize,
    signature: &[u8],
    certificate: &[u8],
    out: &mut [u8],
) -> Result<usize, Refusal>
    ensures { ended result out.new
        ≡ ends
        (complete
        (completion kind draft.now attestation signature.now certificate.now (length out.old)))
        out.old }
{
    if out.len() < LEAST_OUTPUT {
        return Err(Refusal::ShortOutput);
    }
    let kind = Kind::try_from(kind)?;
    if !is_draft(kind, draft) {
        return Err(Refusal::NotWritten);
    }
    if !completion_ok(kind, attestation, signature, certificate) {
        return Err(Refusal::WrongLent);
    }
    let len = match kind {
        Kind::Registration => put_registration(out, draft, attestation, signature, certificate),
        Kind::Sign => put_sign(out, draft, signature),
    };
    Ok(len)
}
