ghost use Rattle.std.specs.Prelude.{◌≡◌, ◌+◌, ◌<◌, true, false, ◌||◌, List, [], ◌∷◌, ◌++◌};
ghost use Rattle.model.specs.Lists.{any};
ghost use Rattle.model.specs.Tlv.{signature, certificate, full, surrogate};
ghost use Rattle.model.specs.Layouts.{reads};
ghost use Rattle.model.specs.Commands.{name_list};
ghost use Rattle.model.specs.Reader.{Part, registered, signed, list_lengths, field_parts, is_response, read_response};
ghost use Rattle.response_reader.specs.Readings.{held, Same, parts_of, left, reading_of};
ghost use Rattle.response_reader.specs.Met.{part_at};
ghost use Rattle.response_reader.specs.Laid.{status_row, info_rows};

use crate::shapes::is_response;
use fields::refusals::Refusal;
use fields::tags;
use tlv::numbers::get16;

// The most fields that a response has.
pub const MOST_FIELDS: usize = 17;

// The caller's columns: of each field its tag, its value's place and its value's length. Entries past their number are 0.
#[derive(Drop)]
struct Columns<'a> {
    tags: &'a mut [usize; MOST_FIELDS],
    places: &'a mut [usize; MOST_FIELDS],
    lengths: &'a mut [usize; MOST_FIELDS],
    count: usize,
}

impl Columns<'_> {
    // A field more.
    fn push(&mut self, tag: usize, place: usize, len: usize)
        requires { self.old.count < MOST_FIELDS }
        ensures same { Same self.old self.new }
        ensures counted { self.new.count ≡ self.old.count + 1 }
        ensures more { (ps : List Part) → held self.old ≡ parts_of ps → held self.new ≡ parts_of (ps ++ part_at tag place len ∷ []) }
    {
        self.tags[self.count] = tag;
        self.places[self.count] = place;
        self.lengths[self.count] = len;
        self.count += 1;
    }
}

// The fields of GetInfo's response after the status. Each of its fields has one length, and so no byte is looked at.
fn info_fields(columns: &mut Columns)
    requires begun { held columns.old ≡ parts_of (status_row ∷ []) }
    requires one { columns.old.count ≡ 1 }
    ensures same { Same columns.old columns.new }
    ensures listed { held columns.new ≡ parts_of info_rows }
{
    columns.push(tags::API_VERSION, 14, 1);
    columns.push(tags::AUTHENTICATOR_INDEX, 23, 1);
    columns.push(tags::AAID, 28, 9);
    columns.push(tags::METADATA, 41, 15);
    columns.push(tags::TC_DISPLAY_CONTENT_TYPE, 60, 10);
    columns.push(tags::ASSERTION_SCHEME, 74, 8);
    columns.push(tags::ATTESTATION_TYPE, 86, 2);
    columns.push(tags::ATTESTATION_TYPE, 92, 2);
}

// The fields of a completed registration. Read are the lengths of challenge hash, public key and signature, and KRD's; all others are known, and a
// certificate reaches to the end.
fn registered_fields(s: &[u8], columns: &mut Columns)
    requires form { (reads (registered full (signature ∷ certificate ∷ [])) s.now || reads (registered surrogate (signature ∷ [])) s.now) ≡ true }
    requires begun { held columns.old ≡ parts_of (status_row ∷ []) }
    requires one { columns.old.count ≡ 1 }
    ensures same { Same columns.old columns.new }
    ensures listed { held columns.new ≡ parts_of (field_parts s.now) }
{
    let hash_len = get16(s, 48);
    let id = 50 + hash_len + 4;
    let counts = id + 32 + 4;
    let key_len = get16(s, counts + 8 + 2);
    let key = counts + 8 + 4;
    let next = 22 + get16(s, 20) + 4;
    let sig_len = get16(s, next + 2);
    let sig = next + 4;
    let end = sig + sig_len;
    columns.push(tags::AAID, 26, 9);
    columns.push(tags::ASSERTION_INFO, 39, 7);
    columns.push(tags::FINAL_CHALLENGE_HASH, 50, hash_len);
    columns.push(tags::KEYID, id, 32);
    columns.push(tags::COUNTERS, counts, 8);
    columns.push(tags::PUB_KEY, key, key_len);
    columns.push(tags::SIGNATURE, sig, sig_len);
    if end != s.len() {
        columns.push(tags::CERT, end + 4, s.len() - (end + 4));
    }
}

// The fields of a completed Sign. Read are the lengths of nonce, challenge hash and content hash, and SIGNED_DATA's; the signature reaches to the
// end.
fn signed_fields(s: &[u8], columns: &mut Columns)
    requires form { (reads (signed true) s.now || reads (signed false) s.now) ≡ true }
    requires begun { held columns.old ≡ parts_of (status_row ∷ []) }
    requires one { columns.old.count ≡ 1 }
    ensures same { Same columns.old columns.new }
    ensures listed { held columns.new ≡ parts_of (field_parts s.now) }
{
    let nonce_len = get16(s, 46);
    let hash_len = get16(s, 48 + nonce_len + 2);
    let hash = 48 + nonce_len + 4;
    let shown_len = get16(s, hash + hash_len + 2);
    let shown = hash + hash_len + 4;
    let id = shown + shown_len + 4;
    let counts = id + 32 + 4;
    let sig = 22 + get16(s, 20) + 4;
    columns.push(tags::AAID, 26, 9);
    columns.push(tags::ASSERTION_INFO, 39, 5);
    columns.push(tags::NONCE, 48, nonce_len);
    columns.push(tags::FINAL_CHALLENGE_HASH, hash, hash_len);
    columns.push(tags::TRANSACTION_CONTENT_HASH, shown, shown_len);
    columns.push(tags::KEYID, id, 32);
    columns.push(tags::COUNTERS, counts, 4);
    columns.push(tags::SIGNATURE, sig, s.len() - sig);
}

// The fields of a list of names: two for each pair.
fn name_fields(s: &[u8], columns: &mut Columns)
    requires form { any (λ n. reads (name_list n) s.now) list_lengths ≡ true }
    requires begun { held columns.old ≡ parts_of (status_row ∷ []) }
    requires one { columns.old.count ≡ 1 }
    ensures same { Same columns.old columns.new }
    ensures listed { held columns.new ≡ parts_of (field_parts s.now) }
{
    let mut at = 10;
    // Each pair is as long as its header says, so no range gives their places.
    while at < s.len() {
        let n = get16(s, at + 4 + 2);
        let name = at + 4 + 4;
        columns.push(tags::USERNAME, name, n);
        columns.push(tags::KEYHANDLE, name + n + 4, 32);
        at = at + 4 + get16(s, at + 2);
    }
}

// The fields of a response. Its shape says where they stand.
fn parts_in(s: &[u8], columns: &mut Columns)
    requires form { is_response s.now ≡ true }
    requires begun { held columns.old ≡ parts_of [] }
    requires none { columns.old.count ≡ 0 }
    ensures same { Same columns.old columns.new }
    ensures listed { held columns.new ≡ parts_of (field_parts s.now) }
{
    columns.push(tags::STATUS_CODE, 8, 2);
    if s.len() == 10 {
        return;
    }
    let tag = get16(s, 0);
    if tag == tags::GETINFO_CMD_RESPONSE {
        return info_fields(columns);
    }
    if tag == tags::REGISTER_CMD_RESPONSE {
        return registered_fields(s, columns);
    }
    if get16(s, 10) == tags::AUTHENTICATOR_ASSERTION {
        return signed_fields(s, columns);
    }
    name_fields(s, columns);
}

// What the second call gives beside the columns: the response tag, the status and the number of fields.
#[derive(Clone, Copy, Debug, PartialEq, Eq)]
pub struct Reading {
    pub tag: usize,
    pub status: usize,
    pub count: usize,
}

// The reader's second call: of each field its tag, its value's place and its value's length, in order. Entries past their number are 0; after
// a refusal nothing has changed.
pub fn read_fields(
    s: &[u8],
    tags: &mut [usize; MOST_FIELDS],
    places: &mut [usize; MOST_FIELDS],
    lengths: &mut [usize; MOST_FIELDS],
) -> Result<Reading, Refusal>
    ensures { left result tags.new places.new lengths.new
        ≡ reading_of (read_response s.now) tags.old places.old lengths.old }
{
    if !is_response(s) {
        return Err(Refusal::NotWritten);
    }
    // Made here and not by a function of its own: of a reference that goes through one, a proof no longer knows what it leaves.
    *tags = [0; MOST_FIELDS];
    *places = [0; MOST_FIELDS];
    *lengths = [0; MOST_FIELDS];
    let mut columns = Columns {
        tags,
        places,
        lengths,
        count: 0,
    };
    parts_in(s, &mut columns);
    Ok(Reading {
        tag: get16(s, 0),
        status: get16(s, 8),
        count: columns.count,
    })
}
