ghost use Rattle.std.specs.Prelude.{◌≡◌, ◌+◌, ◌≤◌, [], ◌∷◌, length};
ghost use Rattle.model.specs.Tlv.{tlv, bytes, info_tag};
ghost use Rattle.tlv.specs.Writing.{Wrote};
ghost use Rattle.replies.specs.Writes.{info_inside, info_written};

use crate::status::{OK, put_start};
use fields::tags;
use tlv::writer::{put_header, put_tlv, put_tlv16};

// AUTHENTICATOR_INFO, 75 bytes and its header: index, AAID, METADATA, content type, assertion scheme, the two attestation types.
fn put_authenticator_info(out: &mut [u8], at: usize, aaid: &[u8], metadata: &[u8]) -> usize
    requires { (length aaid.now ≡ 9) × (length metadata.now ≡ 15) × (at + 79 ≤ length out.old) }
    ensures { Wrote out.old at (bytes (tlv info_tag (info_inside aaid.now metadata.now) ∷ [])) 79 out.new result }
{
    let a1 = put_header(out, at, tags::AUTHENTICATOR_INFO, 75);
    let a2 = put_tlv(out, a1, tags::AUTHENTICATOR_INDEX, b"\x00");
    let a3 = put_tlv(out, a2, tags::AAID, aaid);
    let a4 = put_tlv(out, a3, tags::METADATA, metadata);
    let a5 = put_tlv(out, a4, tags::TC_DISPLAY_CONTENT_TYPE, b"text/plain");
    let a6 = put_tlv(out, a5, tags::ASSERTION_SCHEME, b"UAFV1TLV");
    let a7 = put_tlv16(out, a6, tags::ATTESTATION_TYPE, tags::BASIC_FULL);
    put_tlv16(out, a7, tags::ATTESTATION_TYPE, tags::BASIC_SURROGATE)
}

// Writes the response to GetInfo.
pub fn put_info(out: &mut [u8], aaid: &[u8], metadata: &[u8]) -> usize
    requires { (length aaid.now ≡ 9) × (length metadata.now ≡ 15) × (94 ≤ length out.old) }
    ensures { Wrote out.old 0 (info_written aaid.now metadata.now) 94 out.new result }
{
    let a1 = put_start(out, tags::GETINFO_CMD_RESPONSE, 90, OK);
    let a2 = put_tlv(out, a1, tags::API_VERSION, b"\x01");
    put_authenticator_info(out, a2, aaid, metadata)
}
