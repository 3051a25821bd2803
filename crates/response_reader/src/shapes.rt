ghost use Rattle.std.specs.Prelude.{◌≡◌, true, false, ◌||◌, [], ◌∷◌, ◌≤◌, length};
ghost use Rattle.model.specs.Tlv.{get_info, register, sign, signature, certificate, full, surrogate, response_tag};
ghost use Rattle.model.specs.Layouts.{end, field, group, fields, reads};
ghost use Rattle.model.specs.Commands.{info};
ghost use Rattle.model.specs.Reader.{registered, signed, is_response};
ghost use Rattle.layouts.specs.Places.{reads_at};
ghost use Rattle.response_reader.specs.Responses.{Opened, Longer, in_assertion, headed, alone};
ghost use Rattle.response_reader.specs.Shapes.{signed_at, shape_of, OpeningIs};

use crate::names::is_name_list;
use fields::{sizes, tags};
use layouts::{after_fixed, after_krd, after_signed, after_sized, enter};
use tlv::heads::{NO_SPAN, Span};
use tlv::numbers::get16;

// GetInfo's response with status OK.
fn is_info(s: &[u8]) -> bool
    requires { Opened (response_tag get_info) s.now }
    ensures { result ≡ reads info s.now }
{
    let a3 = after_fixed(s, 10, sizes::API_VERSION, b"\x01");
    let a4 = enter(s, a3, tags::AUTHENTICATOR_INFO);
    let a5 = after_fixed(s, a4, sizes::INDEX, b"\x00");
    let a6 = after_sized(s, a5, sizes::AAID);
    let a7 = after_sized(s, a6, sizes::METADATA);
    let a8 = after_fixed(s, a7, sizes::CONTENT_TYPE, b"text/plain");
    let a9 = after_fixed(s, a8, sizes::ASSERTION_SCHEME, b"UAFV1TLV");
    let a10 = after_fixed(s, a9, sizes::ATTESTATION_TYPE, b"\x07\x3E");
    let end = after_fixed(s, a10, sizes::ATTESTATION_TYPE, b"\x08\x3E");
    end == s.len()
}

// The place of what the assertion holds in a completed response.
#[tactic(auto, unfolding(crate::specs::Responses::in_assertion))]
fn assertion_in(s: &[u8], assertion: usize) -> usize
    ensures { result ≡ in_assertion assertion s.now }
{
    let a = enter(s, 10, tags::AUTHENTICATOR_ASSERTION);
    enter(s, a, assertion)
}

// Whether with full attestation a signature and a certificate follow the draft.
fn is_full(s: &[u8], at: usize) -> bool
    ensures { result ≡ reads_at (group full (fields (signature ∷ certificate ∷ [])) end) s.now at }
{
    let a1 = enter(s, at, tags::BASIC_FULL);
    let a2 = after_sized(s, a1, sizes::SIGNATURE);
    let end = after_sized(s, a2, sizes::CERTIFICATE);
    end == s.len()
}

// Whether with surrogate attestation a signature follows it.
fn is_surrogate(s: &[u8], at: usize) -> bool
    ensures { result ≡ reads_at (group surrogate (fields (signature ∷ [])) end) s.now at }
{
    let a1 = enter(s, at, tags::BASIC_SURROGATE);
    let end = after_sized(s, a1, sizes::SIGNATURE);
    end == s.len()
}

// A completed registration.
fn is_registered(s: &[u8]) -> bool
    requires { Opened (response_tag register) s.now }
    ensures { result ≡ (reads (registered full (signature ∷ certificate ∷ [])) s.now || reads (registered surrogate (signature ∷ [])) s.now) }
{
    let a1 = assertion_in(s, tags::REG_ASSERTION);
    let a2 = after_krd(s, a1);
    is_full(s, a2) || is_surrogate(s, a2)
}

// A completed Sign: the assertion holds SIGNED_DATA, with content or without, and its signature.
fn is_signed(s: &[u8]) -> bool
    requires { Opened (response_tag sign) s.now }
    ensures { result ≡ (reads (signed true) s.now || reads (signed false) s.now) }
{
    let a1 = assertion_in(s, tags::AUTH_ASSERTION);
    if s.len() < a1 {
        return false;
    }
    let a2 = after_signed(s, a1);
    let end = after_sized(s, a2, sizes::SIGNATURE);
    end == s.len()
}

// The signed structure of a completed response, with its header. It stands after three headers and the status.
fn signed_in(s: &[u8]) -> Span
    requires { 22 ≤ length s.now }
    ensures { result ≡ signed_at s.now }
{
    Span {
        start: 18,
        end: 22 + get16(s, 20),
    }
}

// Whether a stretch is one TLV that starts with a status. Tag and status are not looked at.
#[tactic(auto, unfolding(crate::specs::Responses::headed))]
fn is_headed(s: &[u8]) -> bool
    ensures { result ≡ headed s.now }
{
    10 <= s.len()
        && get16(s, 2) == s.len() - 4
        && get16(s, 4) == tags::STATUS_CODE
        && get16(s, 6) == 2
}

// Whether the command with this response tag can answer this status alone.
#[tactic(auto, using(crate::proofs::ShapeLaws::alone_laws))]
fn is_alone(tag: usize, status: usize) -> bool
    ensures { result ≡ alone tag status }
{
    match tag {
        tags::GETINFO_CMD_RESPONSE => status == 0x08,
        tags::REGISTER_CMD_RESPONSE => matches!(
            status,
            0x01 | 0x02 | 0x03 | 0x05 | 0x07 | 0x08 | 0x0E | 0x0F | 0x10
        ),
        tags::SIGN_CMD_RESPONSE => matches!(
            status,
            0x01 | 0x02 | 0x03 | 0x04 | 0x05 | 0x08 | 0x0E | 0x10
        ),
        tags::DEREGISTER_CMD_RESPONSE => matches!(status, 0x00 | 0x02 | 0x08),
        tags::OPEN_SETTINGS_CMD_RESPONSE => matches!(status, 0x06 | 0x08),
        _ => false,
    }
}

// The signed structure of a stretch in which more follows status OK, if it is a response: an empty part where it has none. The outer tag says which
// responses it can be.
fn shape_with(s: &[u8], tag: usize) -> Option<Span>
    requires { Longer tag s.now }
    ensures { result ≡ shape_of s.now }
{
    match tag {
        tags::GETINFO_CMD_RESPONSE => is_info(s).then_some(NO_SPAN),
        tags::REGISTER_CMD_RESPONSE => is_registered(s).then(|| signed_in(s)),
        tags::SIGN_CMD_RESPONSE => {
            if is_signed(s) {
                return Some(signed_in(s));
            }
            is_name_list(s).then_some(NO_SPAN)
        }
        _ => None,
    }
}

// How a response starts: as a status, which is a response alone; or with this tag and status OK, and more follows.
#[derive(Clone, Copy)]
enum Opening {
    Alone,
    Longer(usize),
}

// How a stretch starts, if as a response, by its headers and its status, each read once at its place. Made part of both its callers, so that a status
// alone is judged without a call.
#[inline]
#[tactic(auto, using(crate::proofs::SignedLaws::more_after))]
fn opening_of(s: &[u8]) -> Option<Opening>
    ensures { OpeningIs s.now result }
{
    if !is_headed(s) {
        return None;
    }
    let tag = get16(s, 0);
    let status = get16(s, 8);
    if s.len() == 10 {
        return is_alone(tag, status).then_some(Opening::Alone);
    }
    if status != 0 {
        return None;
    }
    Some(Opening::Longer(tag))
}

// The signed structure of a response, with its header: an empty part where it has none. None where a stretch is no response.
pub fn shape_of(s: &[u8]) -> Option<Span>
    ensures { result ≡ shape_of s.now }
{
    match opening_of(s)? {
        Opening::Alone => Some(NO_SPAN),
        Opening::Longer(tag) => shape_with(s, tag),
    }
}

// Whether some allowed inputs make a command or a completion write these bytes.
pub fn is_response(s: &[u8]) -> bool
    ensures { result ≡ is_response s.now }
{
    match opening_of(s) {
        None => false,
        Some(Opening::Alone) => true,
        Some(Opening::Longer(tag)) => shape_with(s, tag).is_some(),
    }
}
