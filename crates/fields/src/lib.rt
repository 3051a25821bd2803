// The fields of commands, records, lent results, responses and drafts: each one's tag and lengths in one table, and whether a value that is lent
// obeys its rule. Beside it the refusals, in one list.
#![tactic(auto)]

pub mod refusals;
pub mod sizes;
pub mod tags;

ghost use Rattle.std.specs.Prelude.{◌≡◌};
ghost use Rattle.model.specs.Tlv.{fits, username};
ghost use Rattle.fields.specs.Fields.{named, SizeIs};

use crate::sizes::{Size, allows};
use utf8::is_utf8;

// "A command is at most 8,192 bytes".
pub const MAX_COMMAND: usize = 8192;

// "Response output shorter than 4,096".
pub const LEAST_OUTPUT: usize = 4096;

// A field of which only the size is asked where it comes from a caller.
#[derive(Clone, Copy)]
pub enum Field {
    KeyId,
    MixedToken,
    Aaid,
    Metadata,
    PublicKey,
    Nonce,
    Signature,
    Certificate,
}

// The size of each.
fn size_of(f: Field) -> Size
    ensures { SizeIs f result }
{
    match f {
        Field::KeyId => sizes::KEY_ID,
        Field::MixedToken => sizes::MIXED_TOKEN,
        Field::Aaid => sizes::AAID,
        Field::Metadata => sizes::METADATA,
        Field::PublicKey => sizes::PUBLIC_KEY,
        Field::Nonce => sizes::NONCE,
        Field::Signature => sizes::SIGNATURE,
        Field::Certificate => sizes::CERTIFICATE,
    }
}

// Whether a value obeys a field's rule.
pub fn fits(f: Field, v: &[u8]) -> bool
    ensures { result ≡ fits (named f) v.now }
{
    allows(size_of(f), v.len())
}

// Whether a value is a username.
pub fn is_username(v: &[u8]) -> bool
    ensures { result ≡ fits username v.now }
{
    if !allows(sizes::USERNAME, v.len()) {
        return false;
    }
    is_utf8(v)
}
