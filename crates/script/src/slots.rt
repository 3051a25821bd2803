// The arguments of the calls, and what their outputs hold before a call.
ghost use Rattle.std.specs.Prelude.{◌<◌};

// An argument that a script sets.
#[derive(Clone, Copy)]
pub enum Slot {
    Command,
    Aaid,
    Version,
    SignatureAlgorithm,
    KeyAlgorithm,
    Metadata,
    Verdict,
    Display,
    // Of the hash, its two stretches.
    First,
    KeyId,
    PublicKey,
    Nonce,
    Second,
    Table,
    ResponseLength,
    TableLength,
    Kind,
    Draft,
    Attestation,
    Signature,
    Certificate,
    Read,
    Spoilt,
    // Of the writers of commands, which also have Kind, Attestation, KeyId and ResponseLength.
    AppId,
    AppIdGiven,
    Challenge,
    Username,
    Content,
    ContentGiven,
    AccessToken,
    VerifyToken,
    VerifyTokenGiven,
    Handles,
    HandleSizes,
    // Of a withdrawal, which also has KeyId, Table and TableLength.
    Mixed,
}

impl Slot {
    // The slot that a letter sets. One that starts a comment has none.
    pub fn of(letter: u8) -> Option<Slot> {
        let slot = match letter {
            b'c' => Slot::Command,
            b'a' => Slot::Aaid,
            b'v' => Slot::Version,
            b's' => Slot::SignatureAlgorithm,
            b'g' => Slot::KeyAlgorithm,
            b'm' => Slot::Metadata,
            b'u' => Slot::Verdict,
            b'd' => Slot::Display,
            b'x' => Slot::First,
            b'k' => Slot::KeyId,
            b'p' => Slot::PublicKey,
            b'n' => Slot::Nonce,
            b'h' => Slot::Second,
            b't' => Slot::Table,
            b'o' => Slot::ResponseLength,
            b'w' => Slot::TableLength,
            b'j' => Slot::Kind,
            b'q' => Slot::Draft,
            b'y' => Slot::Attestation,
            b'z' => Slot::Signature,
            b'e' => Slot::Certificate,
            b'r' => Slot::Read,
            b'b' => Slot::Spoilt,
            b'A' => Slot::AppId,
            b'B' => Slot::AppIdGiven,
            b'C' => Slot::Challenge,
            b'U' => Slot::Username,
            b'T' => Slot::Content,
            b'S' => Slot::ContentGiven,
            b'K' => Slot::AccessToken,
            b'V' => Slot::VerifyToken,
            b'W' => Slot::VerifyTokenGiven,
            b'H' => Slot::Handles,
            b'L' => Slot::HandleSizes,
            b'M' => Slot::Mixed,
            _ => return None,
        };
        Some(slot)
    }
}

// What the outputs hold before a call, and each number that it may write.
pub const FILL: u8 = 0xEE;

pub const UNSET: usize = 77;

pub const NO_ANSWER: u32 = 77;

const SLOTS: usize = 35;

// An argument has at most so many bytes.
pub const MOST: usize = 8448;

const SIZE: usize = MOST + 2;

// What each slot holds: the argument's length in two bytes, the low one first, and then its bytes. A length stands beside its bytes, since a change of
// a place past the end of its slot goes on into the slots behind it, and may be of a length there.
#[derive(Drop)]
pub struct Slots {
    slots: [[u8; SIZE]; SLOTS],
}

impl Slots {
    // No argument is set.
    pub fn empty() -> Slots {
        Slots {
            slots: [[0; SIZE]; SLOTS],
        }
    }

    // The bytes in a slot.
    pub fn arg(&self, slot: Slot) -> &[u8] {
        let held = &self.slots[slot as usize][..];
        let len = usize::from(u16::from_le_bytes([held[0], held[1]]));
        held[2..].get(..len).unwrap_or(&[])
    }

    // The number in a slot, of four bytes.
    pub fn number(&self, slot: Slot) -> u32 {
        let chunk = self.arg(slot).first_chunk();
        chunk.map_or(0, |bytes| u32::from_le_bytes(*bytes))
    }

    // The number in a slot as a length.
    pub fn length(&self, slot: Slot) -> usize
        ensures { result < 4294967296 }
    {
        self.number(slot) as usize
    }

    // Puts an argument into a slot, if it is no longer than an argument may be.
    pub fn store(&mut self, slot: Slot, argument: &[u8]) {
        let held = &mut self.slots[slot as usize][..];
        let len = argument.len();
        if MOST < len {
            return;
        }
        held[..2].copy_from_slice(&(len as u16).to_le_bytes());
        held[2..2 + len].copy_from_slice(argument);
    }

    // Sets the byte at a place of the response to be read.
    pub fn change(&mut self, place: u16, byte: u8) {
        let at = 2 + usize::from(place);
        self.slots[Slot::Read as usize + at / SIZE][at % SIZE] = byte;
    }
}
