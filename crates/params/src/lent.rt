ghost use Rattle.std.specs.Prelude.{◌≡◌, ◌&&◌, leb, ltb};
ghost use Rattle.model.specs.Tlv.{fits};
ghost use Rattle.model.specs.Tlv as model;
ghost use Rattle.model.specs.Commands.{profile_ok, lent_ok};
ghost use Rattle.params.specs.Kinds.{kind_is};

use crate::kinds::Kind;
use fields::{Field, fits};
use std::marker::Model;

// The lent numbers: the profile's, the fingerprint's verdict and the display's result. Each has 32 bits, so that none is cut off before it is judged.
#[derive(Clone, Copy)]
pub struct Numbers {
    pub version: u32,
    pub signature_algorithm: u32,
    pub key_algorithm: u32,
    pub verdict: u32,
    pub display: u32,
}

// What a call is lent beside its command. Contracts see it as the model's `Lent`, by the bytes of its stretches.
#[derive(Drop)]
pub struct Lent<'a> {
    pub aaid: &'a [u8],
    pub numbers: Numbers,
    pub metadata: &'a [u8],
    pub key_id: &'a [u8],
    pub public_key: &'a [u8],
    pub nonce: &'a [u8],
}

// The profile's numbers have 16 bits.
const PAST_16_BITS: u32 = 65536;

// The verdict is 0 to 5, the display result 0 to 3.
const LAST_VERDICT: u32 = 5;

const LAST_DISPLAY: u32 = 3;

// The profile's numbers.
fn numbers_ok(numbers: Numbers) -> bool
    ensures { result ≡ (ltb numbers.version 65536 && ltb numbers.signature_algorithm 65536 && ltb numbers.key_algorithm 65536) }
{
    numbers.version < PAST_16_BITS
        && numbers.signature_algorithm < PAST_16_BITS
        && numbers.key_algorithm < PAST_16_BITS
}

impl<'a> Model for Lent<'a> {
    ghost use Rattle.model.specs.Commands.{Lent};
    ghost use Rattle.params.specs.Lent.{lent_of};

    ghost Value = { Lent };

    ghost view = { λ l. lent_of l.aaid.now l.numbers l.metadata.now l.key_id.now l.public_key.now l.nonce.now };
}

impl<'a> Lent<'a> {
    // The profile.
    #[tactic(auto, unfolding(model::specs::Commands::profile_ok))]
    fn is_profile_ok(&self) -> bool
        ensures { result ≡ profile_ok self.now }
    {
        fits(Field::Aaid, self.aaid)
            && fits(Field::Metadata, self.metadata)
            && numbers_ok(self.numbers)
    }

    // What Register is lent besides the profile.
    fn is_register_ok(&self) -> bool
        ensures { result ≡ (leb self.now.verdict 5 && fits model.key_id self.now.key_id && fits model.public_key self.now.public_key) }
    {
        self.numbers.verdict <= LAST_VERDICT
            && fits(Field::KeyId, self.key_id)
            && fits(Field::PublicKey, self.public_key)
    }

    // What Sign is lent besides the profile.
    fn is_sign_ok(&self) -> bool
        ensures { result ≡ (leb self.now.verdict 5 && leb self.now.display 3 && fits model.nonce self.now.nonce) }
    {
        self.numbers.verdict <= LAST_VERDICT
            && self.numbers.display <= LAST_DISPLAY
            && fits(Field::Nonce, self.nonce)
    }

    // Whether the results that a command uses have the right lengths and numbers. Deregister and Open settings use none.
    #[tactic(auto, unfolding(model::specs::Commands::lent_ok))]
    pub fn is_ok_for(&self, kind: Kind) -> bool
        ensures { result ≡ lent_ok (kind_is kind) self.now }
    {
        match kind {
            Kind::GetInfo => self.is_profile_ok(),
            Kind::Register => self.is_profile_ok() && self.is_register_ok(),
            Kind::Sign => self.is_profile_ok() && self.is_sign_ok(),
            Kind::Deregister => true,
            Kind::OpenSettings => true,
        }
    }
}
