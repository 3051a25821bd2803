ghost use Rattle.std.specs.Prelude.{◌≡◌};
ghost use Rattle.model.specs.Tlv.{kind_of, rule_of, fits};
ghost use Rattle.params.specs.Kinds.{kind_is, named_as};
ghost use Rattle.params.specs.Slots.{slot_field, slot_of, listing_for};

use fields::sizes::{Size, allows};
use fields::{sizes, tags};
use tlv::numbers::get16;
use utf8::is_utf8;

// The five commands.
#[derive(Clone, Copy, Debug, PartialEq, Eq)]
pub enum Kind {
    GetInfo,
    Register,
    Sign,
    Deregister,
    OpenSettings,
}

// Which command it is, by its outer tag; none with fewer than four bytes.
pub fn kind_of(s: &[u8]) -> Option<Kind>
    ensures { named_as result ≡ kind_of s.now }
{
    if s.len() < 4 {
        return None;
    }
    match get16(s, 0) {
        tags::GETINFO_CMD => Some(Kind::GetInfo),
        tags::REGISTER_CMD => Some(Kind::Register),
        tags::SIGN_CMD => Some(Kind::Sign),
        tags::DEREGISTER_CMD => Some(Kind::Deregister),
        tags::OPEN_SETTINGS_CMD => Some(Kind::OpenSettings),
        _ => None,
    }
}

// The fields that commands list have slots, numbered in an order that every command's list keeps. They are numbers and no enum, since they index the
// arrays of a listing, and since `slot_fits` promises its answer for every number.
pub const INDEX: usize = 0;

pub const APP_ID: usize = 1;

pub const CHALLENGE_HASH: usize = 2;

pub const USERNAME: usize = 3;

pub const ATTESTATION_TYPE: usize = 4;

pub const TRANSACTION_CONTENT: usize = 5;

pub const KEY_ID: usize = 6;

pub const ACCESS_TOKEN: usize = 7;

pub const USER_VERIFY_TOKEN: usize = 8;

pub const KEY_HANDLE: usize = 9;

// How many there are.
pub const SLOTS: usize = 10;

// The slot of the field with a tag; SLOTS for any other tag.
#[tactic(auto, using(crate::proofs::KindLaws::slot_none), unfolding(crate::specs::Slots::slot_of))]
pub fn slot_of(tag: usize) -> usize
    ensures { result ≡ slot_of tag }
{
    match tag {
        tags::AUTHENTICATOR_INDEX => INDEX,
        tags::APPID => APP_ID,
        tags::FINAL_CHALLENGE_HASH => CHALLENGE_HASH,
        tags::USERNAME => USERNAME,
        tags::ATTESTATION_TYPE => ATTESTATION_TYPE,
        tags::TRANSACTION_CONTENT => TRANSACTION_CONTENT,
        tags::KEYID => KEY_ID,
        tags::KEYHANDLE_ACCESS_TOKEN => ACCESS_TOKEN,
        tags::USERVERIFY_TOKEN => USER_VERIFY_TOKEN,
        tags::KEYHANDLE => KEY_HANDLE,
        _ => SLOTS,
    }
}

// How many numbers a listing has: one for each slot, and one more, 0, for any other tag.
pub const ENTRIES: usize = 11;

// How often the field of each slot must be given, and how often it may be.
#[derive(Clone, Copy)]
pub struct Listing {
    pub least: [u8; ENTRIES],
    pub most: [u8; ENTRIES],
}

// What each command lists, in the order of the slots. A field that it does not list is never given. Made once for a command, it is
// then indexed.
#[tactic(auto, unfolding(crate::specs::Slots::least_for, crate::specs::Slots::most_for))]
pub fn listed(kind: Kind) -> Listing
    ensures { result ≡ listing_for (kind_is kind) }
{
    match kind {
        Kind::GetInfo => Listing {
            least: [0, 0, 0, 0, 0, 0, 0, 0, 0, 0, 0],
            most: [0, 0, 0, 0, 0, 0, 0, 0, 0, 0, 0],
        },
        Kind::Register => Listing {
            least: [1, 0, 1, 1, 1, 0, 0, 1, 0, 0, 0],
            most: [1, 1, 1, 1, 1, 0, 0, 1, 1, 0, 0],
        },
        Kind::Sign => Listing {
            least: [1, 0, 1, 0, 0, 0, 0, 1, 0, 0, 0],
            most: [1, 1, 1, 0, 0, 1, 0, 1, 1, 8, 0],
        },
        Kind::Deregister => Listing {
            least: [1, 0, 0, 0, 0, 0, 1, 1, 0, 0, 0],
            most: [1, 1, 0, 0, 0, 0, 1, 1, 0, 0, 0],
        },
        Kind::OpenSettings => Listing {
            least: [1, 0, 0, 0, 0, 0, 0, 0, 0, 0, 0],
            most: [1, 0, 0, 0, 0, 0, 0, 0, 0, 0, 0],
        },
    }
}

// The size of a slot's field. A `match` on the number is a small table for the compiler.
fn size_of(slot: usize) -> Size
    ensures { (result.least ≡ (rule_of (slot_field slot)).least) × (result.most ≡ (rule_of (slot_field slot)).most) }
{
    match slot {
        INDEX => sizes::INDEX,
        APP_ID => sizes::APP_ID,
        CHALLENGE_HASH => sizes::CHALLENGE_HASH,
        USERNAME => sizes::USERNAME,
        ATTESTATION_TYPE => sizes::ATTESTATION_TYPE,
        TRANSACTION_CONTENT => sizes::TRANSACTION_CONTENT,
        KEY_ID => sizes::KEY_ID_OR_NONE,
        ACCESS_TOKEN => sizes::ACCESS_TOKEN,
        USER_VERIFY_TOKEN => sizes::USERVERIFY_TOKEN,
        _ => sizes::KEY_HANDLE,
    }
}

// Whether a value obeys the rule of a slot's field: its length, that an index is 0, a username UTF-8, and a KeyID whole or empty.
pub fn slot_fits(slot: usize, v: &[u8]) -> bool
    ensures { result ≡ fits (slot_field slot) v.now }
{
    if !allows(size_of(slot), v.len()) {
        return false;
    }
    match slot {
        INDEX => v[0] == 0,
        USERNAME => is_utf8(v),
        KEY_ID => v.is_empty() || v.len() == 32,
        _ => true,
    }
}
