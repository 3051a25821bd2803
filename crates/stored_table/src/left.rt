ghost use Rattle.std.specs.Prelude.{◌≡◌, ◌+◌, ◌-◌, ◌≤◌, ◌<◌, true, [], ◌∷◌, length, take, drop, set, get_or};
ghost use Rattle.model.specs.Records.{table_ok, encode, max_stored};
ghost use Rattle.model.specs.Commands.{apply, add, with_count};
ghost use Rattle.tlv.specs.Writing.{Wrote};
ghost use Rattle.stored_table.specs.Stored.{beside_name, record_of, no_record, Stands, record_at, Indexed, table_in};
ghost use Rattle.stored_table.specs.Changes.{goes, removal, stay_first, change_of, Can};

use crate::records::{INSIDE_BESIDE_NAME, KEY_ID, MIXED, count_place};
use crate::table::StoredTable;
use fields::tags;
use tlv::heads::{Span, part_of};
use tlv::numbers::put32;
use tlv::rows::row_is;
use tlv::writer::{put_bytes, put_header, put_tlv, put_tlv32};

// What a command changes in the table. A name and a KeyID are parts of the command; an empty KeyID removes all of the mixed token. A record is told by
// its number, the oldest of all being 0.
#[derive(Clone, Copy)]
pub enum Change {
    Keep,
    Add(Span),
    SetCount { record: usize, count: u32 },
    Remove(Span),
}

// Writes the stored form of a record.
pub fn put_record(
    out: &mut [u8],
    at: usize,
    key_id: &[u8],
    mixed: &[u8],
    name: &[u8],
    count: u32,
) -> usize
    requires key_id_len { (length key_id.now ≡ 32) × (length mixed.now ≡ 32) × (length name.now ≤ 128) }
    requires name_in_bounds { at + (beside_name + length name.now) ≤ length out.old }
    ensures { Wrote out.old at (encode (record_of key_id.now mixed.now name.now count ∷ []))
        (beside_name + length name.now) out.new result }
{
    let a1 = put_header(
        out,
        at,
        tags::USERNAME_AND_KEYHANDLE,
        INSIDE_BESIDE_NAME + name.len(),
    );
    let a2 = put_tlv(out, a1, tags::KEYID, key_id);
    let a3 = put_tlv(out, a2, tags::KEYHANDLE_ACCESS_TOKEN, mixed);
    let a4 = put_tlv(out, a3, tags::USERNAME, name);
    put_tlv32(out, a4, tags::COUNTERS, count as usize)
}

// Whether the record at a place goes: it has the mixed token and, unless the KeyID is empty, the KeyID.
#[tactic(auto, unfolding(crate::specs::Stored::record_at))]
fn is_going(table: &[u8], place: usize, mixed: &[u8], key: &[u8]) -> bool
    requires { Stands table.now place }
    ensures { result ≡ goes mixed.now key.now (record_at table.now place) }
{
    row_is(table, place + MIXED, mixed) && (key.is_empty() || row_is(table, place + KEY_ID, key))
}

impl<'a> StoredTable<'a> {
    // The number of the first record from i on that goes; if none does, how many there are.
    pub fn next_going(&self, i: usize, mixed: &[u8], key: &[u8]) -> usize
        requires { i ≤ length self.now }
        ensures { result ≡ i + stay_first mixed.now key.now (drop i self.now) }
    {
        for j in i..self.places.len() {
            if is_going(self.bytes, self.places[j], mixed, key) {
                return j;
            }
        }
        self.places.len()
    }

    // Where record j starts; where the table ends, if there are no more.
    fn start_of(&self, j: usize) -> usize
        ensures { result ≡ length (encode (take j self.now)) }
    {
        self.places.get(j).copied().unwrap_or(self.bytes.len())
    }

    // The table with a record more, as the newest, its counter 0.
    fn put_added(&self, out: &mut [u8], key_id: &[u8], mixed: &[u8], name: &[u8]) -> usize
        requires self_len { length self.now < 32 }
        requires key_id_len { (length key_id.now ≡ 32) × (length mixed.now ≡ 32) × (length name.now ≤ 128) }
        requires max_stored_in_bounds { max_stored ≤ length out.old }
        ensures { Wrote out.old 0 (encode (apply mixed.now (add key_id.now name.now) self.now)) result out.new result }
    {
        let end = put_bytes(out, 0, self.bytes);
        put_record(out, end, key_id, mixed, name, 0)
    }

    // The table with another count in record i: the same bytes, and the count over the old one.
    #[tactic(auto, using(crate::proofs::IndexLaws::has_place, crate::proofs::IndexLaws::stands_at))]
    fn put_counted(&self, out: &mut [u8], i: usize, count: u32) -> usize
        requires { (i < length self.now) × (length (encode self.now) ≤ length out.old) }
        ensures { Wrote out.old 0 (encode (set self.now i (with_count (get_or self.now i no_record) count))) result out.new result }
    {
        let place = count_place(self.bytes, self.places[i]);
        let end = put_bytes(out, 0, self.bytes);
        put32(out, place, count as usize);
        end
    }

    // The table without the record of a mixed token that has this KeyID or, if the KeyID is empty, without all of the mixed token's. The rest keeps its
    // order and closes the gap: what stands between two records that go is written at once.
    #[tactic(auto, using(crate::proofs::IndexLaws::place_is, crate::proofs::LeftLaws::stored_ends, crate::proofs::LeftLaws::end_is))]
    pub fn put_removed(&self, out: &mut [u8], mixed: &[u8], key: &[u8]) -> usize
        requires { length (encode self.now) ≤ length out.old }
        ensures { Wrote out.old 0 (encode (apply mixed.now (removal key.now) self.now)) result out.new result }
    {
        let mut end = 0;
        let mut from = 0;
        for (i, place) in self.places.iter().enumerate() {
            if is_going(self.bytes, *place, mixed, key) {
                end = put_bytes(out, end, &self.bytes[from..*place]);
                from = self.start_of(i + 1);
            }
        }
        put_bytes(out, end, &self.bytes[from..])
    }

    // Writes the stored form of the table that a change leaves. The change is that of a command s, lent this mixed token and this KeyID.
    pub fn put_left(
        &self,
        out: &mut [u8],
        change: Change,
        s: &[u8],
        mixed: &[u8],
        key_id: &[u8],
    ) -> usize
        requires can { Can s.now key_id.now mixed.now self.now change }
        requires max_stored_in_bounds { max_stored ≤ length out.old }
        ensures { Wrote out.old 0 (encode (apply mixed.now (change_of s.now key_id.now self.now change) self.now)) result out.new result }
    {
        let table = self.bytes;
        match change {
            Change::Keep => put_bytes(out, 0, table),
            Change::Add(name) => self.put_added(out, key_id, mixed, part_of(s, name)),
            Change::SetCount { record, count } => self.put_counted(out, record, count),
            Change::Remove(key) => self.put_removed(out, mixed, part_of(s, key)),
        }
    }
}
