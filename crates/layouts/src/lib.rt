// Structures whose fields stand in a fixed order, read from place to place: each function gives the place where the next thing starts, and
// one past the stretch's end where something else stands. Nothing is found there, so a structure is read without a test between its fields.
// A place past the end, and no Option, is what the definitions of specs/Places give: a chain of calls then has one proof line and no branch in it.
// What is asked of a field is given as constants, so that each call is compiled to a few comparisons.
#![tactic(auto)]

ghost use Rattle.std.specs.Prelude.{◌≡◌, ℕ, ◌≤◌, Bool, true, List, length};
ghost use Rattle.std.specs.Fn.{FnReturnsAt};
ghost use Rattle.model.specs.Lists.{eq_bytes};
ghost use Rattle.model.specs.Tlv.{rule, sized, username, assertion_info, content_hash, no_counts, new_count, krd_tag, pair_tag};
ghost use Rattle.model.specs.Layouts.{reads};
ghost use Rattle.model.specs.Records.{record_fields};
ghost use Rattle.model.specs.Commands.{pair_fields};
ghost use Rattle.layouts.specs.Places.{reads_at, after_tlv, after_rule, after_field, after_group, in_group};
ghost use Rattle.layouts.specs.Groups.{krd_fields, signed_rest, is_signed_data, after_signed};

use fields::sizes::Size;
use fields::{sizes, tags};
use tlv::bytes::same;
use tlv::numbers::{get16, get32, get64};
use utf8::is_utf8;

// The place after a TLV with this tag.
#[tactic(auto, using(crate::proofs::LeafLaws::tlv_none))]
fn after_tag(s: &[u8], at: usize, tag: usize) -> usize
    ensures { result ≡ after_tlv tag (λ v. true) s.now at }
{
    if s.len() < at || s.len() - at < 4 || get16(s, at) != tag {
        return s.len() + 1;
    }
    let n = get16(s, at + 2);
    if s.len() - at - 4 < n {
        return s.len() + 1;
    }
    at + 4 + n
}

// The place of the value of a TLV with this tag that ends with the stretch.
pub fn enter(s: &[u8], at: usize, tag: usize) -> usize
    ensures { result ≡ in_group tag s.now at }
{
    let end = after_tag(s, at, tag);
    if end != s.len() {
        return s.len() + 1;
    }
    at + 4
}

// The place after a field of which only the size is asked. That the least value has room is asked first: the end of a value of one length is then
// known from its place, before its header is read, and the compiler leaves out the last test.
#[tactic(auto, using(crate::proofs::LeafLaws::sized_none))]
pub fn after_sized(s: &[u8], at: usize, size: Size) -> usize
    ensures { result ≡ after_rule (sized size.tag size.least size.most) s.now at }
{
    if s.len() < at
        || s.len() - at < 4
        || s.len() - at - 4 < size.least
        || get16(s, at) != size.tag
    {
        return s.len() + 1;
    }
    let len = get16(s, at + 2);
    if len < size.least || size.most < len || s.len() - at - 4 < len {
        return s.len() + 1;
    }
    at + 4 + len
}

// The place after a field whose value passes a test, which is asked only of values of this size.
fn after_allowed<F: Fn(&[u8]) -> bool>(s: &[u8], at: usize, size: Size, allowed: F) -> usize
    requires { (v : _) → size.least ≤ length v.now → length v.now ≤ size.most → F.pre allowed v }
    ensures { (test : List ℕ → Bool)
        → ((v : List ℕ) (b : Bool) → size.least ≤ length v → length v ≤ size.most → FnReturnsAt F.Fn allowed v b → b ≡ test v)
        → result ≡ after_rule (rule size.tag size.least size.most test) s.now at }
{
    let end = after_sized(s, at, size);
    if end <= s.len() && allowed(&s[at + 4..end]) {
        return end;
    }
    s.len() + 1
}

// The place after a field that has one value only.
pub fn after_fixed(s: &[u8], at: usize, size: Size, value: &[u8]) -> usize
    ensures { result ≡ after_rule (rule size.tag size.least size.most (eq_bytes value.now)) s.now at }
{
    after_allowed(s, at, size, |v| same(value, v))
}

// The place after a username.
fn after_name(s: &[u8], at: usize) -> usize
    ensures { result ≡ after_field username s.now at }
{
    after_allowed(s, at, sizes::USERNAME, is_utf8)
}

// The place after KRD's ASSERTION_INFO: its third byte, the mode, is 1.
fn after_krd_info(s: &[u8], at: usize) -> usize
    ensures { result ≡ after_field (assertion_info 7 1) s.now at }
{
    after_allowed(s, at, sizes::KRD_INFO, |v| v[2] == 1)
}

// The place after KRD's COUNTERS: both are zero.
fn after_no_counts(s: &[u8], at: usize) -> usize
    ensures { result ≡ after_field no_counts s.now at }
{
    after_allowed(s, at, sizes::TWO_COUNTERS, |v| get64(v, 0) == 0)
}

// The place after SIGNED_DATA's COUNTERS, a new count: it is not zero.
fn after_count(s: &[u8], at: usize) -> usize
    ensures { result ≡ after_field new_count s.now at }
{
    after_allowed(s, at, sizes::COUNTER, |v| 0 < get32(v, 0))
}

// The place after SIGNED_DATA's TRANSACTION_CONTENT_HASH, which is empty without content.
fn after_hash(s: &[u8], at: usize, content: bool) -> usize
    ensures { result ≡ after_field (content_hash content) s.now at }
{
    if content {
        return after_sized(s, at, sizes::CONTENT_HASH);
    }
    after_sized(s, at, sizes::NO_CONTENT_HASH)
}

// Whether a stretch is what KRD holds.
fn is_krd(s: &[u8]) -> bool
    ensures { result ≡ reads krd_fields s.now }
{
    let a1 = after_sized(s, 0, sizes::AAID);
    let a2 = after_krd_info(s, a1);
    let a3 = after_sized(s, a2, sizes::CHALLENGE_HASH);
    let a4 = after_sized(s, a3, sizes::KEY_ID);
    let a5 = after_no_counts(s, a4);
    let end = after_sized(s, a5, sizes::PUBLIC_KEY);
    end == s.len()
}

// Whether from a place on a stretch is what SIGNED_DATA holds after ASSERTION_INFO.
fn is_signed_rest(s: &[u8], at: usize, content: bool) -> bool
    ensures { result ≡ reads_at (signed_rest content) s.now at }
{
    let a1 = after_sized(s, at, sizes::NONCE);
    let a2 = after_sized(s, a1, sizes::CHALLENGE_HASH);
    let a3 = after_hash(s, a2, content);
    let a4 = after_sized(s, a3, sizes::KEY_ID);
    let end = after_count(s, a4);
    end == s.len()
}

// Whether a stretch is what SIGNED_DATA holds. The mode, the third byte of its ASSERTION_INFO, tells which of the two layouts it can have: 2 with
// content, 1 without.
#[tactic(auto, using(crate::proofs::LeafLaws::signed_none, crate::proofs::LeafLaws::signed_other))]
fn is_signed_data(s: &[u8]) -> bool
    ensures { result ≡ is_signed_data s.now }
{
    let a1 = after_sized(s, 0, sizes::AAID);
    let a2 = after_sized(s, a1, sizes::SIGNED_INFO);
    if s.len() < a2 {
        return false;
    }
    let mode = s[a1 + 6];
    if mode < 1 || 2 < mode {
        return false;
    }
    is_signed_rest(s, a2, mode == 2)
}

// Whether a stretch is a name and its KeyID.
fn is_pair(s: &[u8]) -> bool
    ensures { result ≡ reads pair_fields s.now }
{
    let a = after_name(s, 0);
    let end = after_sized(s, a, sizes::KEY_HANDLE);
    end == s.len()
}

// Whether a stretch is the children of a stored record.
fn is_record(s: &[u8]) -> bool
    ensures { result ≡ reads record_fields s.now }
{
    let a1 = after_sized(s, 0, sizes::KEY_ID);
    let a2 = after_sized(s, a1, sizes::MIXED_TOKEN);
    let a3 = after_name(s, a2);
    let end = after_sized(s, a3, sizes::COUNTER);
    end == s.len()
}

// The place after a group: a TLV with this tag whose value passes a test. The value is read as its own stretch, since something may follow.
fn after_inside<F: Fn(&[u8]) -> bool>(s: &[u8], at: usize, tag: usize, inside: F) -> usize
    requires { F.IsAlwaysCallable inside }
    ensures { (test : List ℕ → Bool) → ((v : List ℕ) (b : Bool) → FnReturnsAt F.Fn inside v b → b ≡ test v)
        → result ≡ after_tlv tag test s.now at }
{
    let end = after_tag(s, at, tag);
    if end <= s.len() && inside(&s[at + 4..end]) {
        return end;
    }
    s.len() + 1
}

// The place after KRD.
pub fn after_krd(s: &[u8], at: usize) -> usize
    ensures { result ≡ after_group krd_tag krd_fields s.now at }
{
    after_inside(s, at, tags::KRD, is_krd)
}

// The place after SIGNED_DATA, with content or without.
pub fn after_signed(s: &[u8], at: usize) -> usize
    ensures { result ≡ after_signed s.now at }
{
    after_inside(s, at, tags::SIGNED_DATA, is_signed_data)
}

// The place after USERNAME_AND_KEYHANDLE in a list of names.
pub fn after_pair(s: &[u8], at: usize) -> usize
    ensures { result ≡ after_group pair_tag pair_fields s.now at }
{
    after_inside(s, at, tags::USERNAME_AND_KEYHANDLE, is_pair)
}

// The place after a stored record.
pub fn after_record(s: &[u8], at: usize) -> usize
    ensures { result ≡ after_group pair_tag record_fields s.now at }
{
    after_inside(s, at, tags::USERNAME_AND_KEYHANDLE, is_record)
}
