// How many bytes a field takes in a command, headers included. One that breaks its rule takes more than any command has, so that one test of the
// sum finds every reason for refusal 6. And the refusal by that sum.
ghost use Rattle.std.specs.Prelude.{◌≡◌, ◌≤◌, eqb};
ghost use Rattle.model.specs.Lists.{all};
ghost use Rattle.model.specs.Tlv.{mandatory, up_to, attestation_type, key_handle};
ghost use Rattle.model.specs.Writer.{one, number, pieces};
ghost use Rattle.params.specs.Slots.{slot_field};
ghost use Rattle.command_writer.specs.Lengths.{takes, check_len};

use fields::MAX_COMMAND;
use fields::refusals::Refusal;
use params::kinds::slot_fits;
use params::parse::MOST_HANDLES;

// A header; with it an index, which is all that Open settings has; and a header with a number of 16 bits.
pub const HEADER: usize = 4;

pub const HEADER_AND_INDEX: usize = 9;

const HEADER_AND_16_BITS: usize = 6;

const PAST_16_BITS: u32 = 65536;

// A key handle, and a header with one.
pub const HANDLE: usize = 32;

const HEADER_AND_HANDLE: usize = 36;

// Of a field that breaks its rule.
pub const TOO_LONG: usize = MAX_COMMAND + 1;

// A field that must be given.
pub fn one_len(slot: usize, v: &[u8]) -> usize
    ensures { (result ≡ takes (mandatory (slot_field slot)) (one v.now)) × (result ≤ 8196) }
{
    if !slot_fits(slot, v) {
        return TOO_LONG;
    }
    HEADER + v.len()
}

// The attestation type.
#[tactic(auto, using(crate::proofs::LengthLaws::by_number))]
pub fn type_len(n: u32) -> usize
    ensures { (result ≡ takes (mandatory attestation_type) (number n)) × (result ≤ 8196) }
{
    if PAST_16_BITS <= n {
        return TOO_LONG;
    }
    HEADER_AND_16_BITS
}

// Whether each of some lengths is a key handle's.
fn are_whole(sizes: &[usize]) -> bool
    ensures { result ≡ all (λ n. eqb n 32) sizes.now }
{
    sizes.iter().all(|n| *n == HANDLE)
}

// Key handles run together, with the length of each.
pub fn handles_len(handles: &[u8], sizes: &[usize]) -> usize
    ensures { (result ≡ takes (up_to 8 key_handle) (pieces sizes.now handles.now)) × (result ≤ 8196) }
{
    if MOST_HANDLES < sizes.len() {
        return TOO_LONG;
    }
    if !are_whole(sizes) {
        return TOO_LONG;
    }
    if handles.len() != HANDLE * sizes.len() {
        return TOO_LONG;
    }
    HEADER_AND_HANDLE * sizes.len()
}

// The refusal of a command of so many bytes, into an output of so many.
pub fn check_len(len: usize, room: usize) -> Result<(), Refusal>
    ensures { result ≡ check_len len room }
{
    if MAX_COMMAND < len {
        return Err(Refusal::BadField);
    }
    if room < len {
        return Err(Refusal::ShortOutput);
    }
    Ok(())
}
