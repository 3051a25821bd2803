ghost use Rattle.std.specs.Prelude.{◌≡◌, ◌+◌, ◌≤◌, cond, [], ◌∷◌, ◌++◌, length};
ghost use Rattle.model.specs.Sha256.{sha256};
ghost use Rattle.model.specs.Tlv.{le, tlv, bytes};
ghost use Rattle.tlv.specs.Writing.{Wrote};
ghost use Rattle.replies.specs.Writes.{info_start, krd, signed_draft};

use fields::tags;
use params::lent::Numbers;
use sha256::message::hash;
use tlv::numbers::{put8, put16};
use tlv::writer::{put_header, put_tlv, put_tlv32};

// Version, mode and signature algorithm.
fn put_info_start(out: &mut [u8], at: usize, numbers: Numbers, mode: u8) -> usize
    requires { at + 5 ≤ length out.old }
    ensures { Wrote out.old at (info_start numbers mode) 5 out.new result }
{
    let a1 = put16(out, at, numbers.version as usize);
    let a2 = put8(out, a1, mode);
    put16(out, a2, numbers.signature_algorithm as usize)
}

// The ASSERTION_INFO of KRD, which has both algorithms.
fn put_krd_info(out: &mut [u8], at: usize, numbers: Numbers) -> usize
    requires { at + 11 ≤ length out.old }
    ensures { Wrote out.old at (bytes (tlv 0x2E0E (info_start numbers 0x01 ++ le 2 numbers.key_algorithm) ∷ [])) 11 out.new result }
{
    let a1 = put_header(out, at, tags::ASSERTION_INFO, 7);
    let a2 = put_info_start(out, a1, numbers, 0x01);
    put16(out, a2, numbers.key_algorithm as usize)
}

// The ASSERTION_INFO of SIGNED_DATA, which has the signature algorithm alone.
fn put_signed_info(out: &mut [u8], at: usize, numbers: Numbers, mode: u8) -> usize
    requires { at + 9 ≤ length out.old }
    ensures { Wrote out.old at (bytes (tlv 0x2E0E (info_start numbers mode) ∷ [])) 9 out.new result }
{
    let a1 = put_header(out, at, tags::ASSERTION_INFO, 5);
    put_info_start(out, a1, numbers, mode)
}

// Writes a registration draft of len bytes from the front.
pub fn put_krd(
    out: &mut [u8],
    len: usize,
    aaid: &[u8],
    numbers: Numbers,
    challenge: &[u8],
    key_id: &[u8],
    public_key: &[u8],
) -> usize
    requires aaid_len { (length aaid.now ≡ 9) × (length challenge.now ≤ 32) × (length key_id.now ≡ 32) × (length public_key.now ≤ 512) }
    requires len_value { (len ≡ 84 + length challenge.now + length public_key.now) × (len ≤ length out.old) }
    ensures { Wrote out.old 0 (krd aaid.now numbers challenge.now key_id.now public_key.now) len out.new result }
{
    let a1 = put_header(out, 0, tags::KRD, len - 4);
    let a2 = put_tlv(out, a1, tags::AAID, aaid);
    let a3 = put_krd_info(out, a2, numbers);
    let a4 = put_tlv(out, a3, tags::FINAL_CHALLENGE_HASH, challenge);
    let a5 = put_tlv(out, a4, tags::KEYID, key_id);
    let a6 = put_tlv(out, a5, tags::COUNTERS, b"\x00\x00\x00\x00\x00\x00\x00\x00");
    put_tlv(out, a6, tags::PUB_KEY, public_key)
}

// The transaction hash, that of the content where it lies; without content it is empty, and nothing is hashed.
fn put_content_hash(out: &mut [u8], at: usize, shown: &[u8], content: bool) -> usize
    requires { at + cond content 36 4 ≤ length out.old }
    ensures { Wrote out.old at (bytes (tlv 0x2E10 (cond content (sha256 shown.now) []) ∷ [])) (cond content 36 4) out.new result }
{
    if content {
        let hash = hash(shown, b"");
        return put_tlv(out, at, tags::TRANSACTION_CONTENT_HASH, &hash);
    }
    put_header(out, at, tags::TRANSACTION_CONTENT_HASH, 0)
}

// Writes a sign draft of len bytes from the front; shown is the transaction content.
pub fn put_signed_data(
    out: &mut [u8],
    len: usize,
    aaid: &[u8],
    numbers: Numbers,
    content: bool,
    nonce: &[u8],
    challenge: &[u8],
    shown: &[u8],
    key_id: &[u8],
    count: u32,
) -> usize
    requires aaid_len { (length aaid.now ≡ 9) × (length nonce.now ≤ 32) × (length challenge.now ≤ 32) × (length key_id.now ≡ 32) }
    requires len_value { (len ≡ 78 + length challenge.now + length nonce.now + cond content 36 4) × (len ≤ length out.old) }
    ensures { Wrote out.old 0
        (signed_draft content aaid.now numbers nonce.now challenge.now (sha256 shown.now) key_id.now count)
        len out.new result }
{
    let mode = if content { 0x02 } else { 0x01 };
    let a1 = put_header(out, 0, tags::SIGNED_DATA, len - 4);
    let a2 = put_tlv(out, a1, tags::AAID, aaid);
    let a3 = put_signed_info(out, a2, numbers, mode);
    let a4 = put_tlv(out, a3, tags::NONCE, nonce);
    let a5 = put_tlv(out, a4, tags::FINAL_CHALLENGE_HASH, challenge);
    let a6 = put_content_hash(out, a5, shown, content);
    let a7 = put_tlv(out, a6, tags::KEYID, key_id);
    put_tlv32(out, a7, tags::COUNTERS, count as usize)
}
