ghost use Rattle.std.specs.Prelude.{◌≡◌};
ghost use Rattle.model.specs.Reader.{read_response};
ghost use Rattle.response_reader.specs.Readings.{lent, signed_bytes};

use crate::shapes::shape_of;
use fields::refusals::Refusal;
use tlv::heads::part_of;

// The reader's first call: the signed structure as a part of the caller's own bytes.
pub fn signed_part(s: &[u8]) -> Result<&[u8], Refusal>
    ensures { lent result ≡ signed_bytes (read_response s.now) s.now }
{
    let Some(p) = shape_of(s) else {
        return Err(Refusal::NotWritten);
    };
    Ok(part_of(s, p))
}
