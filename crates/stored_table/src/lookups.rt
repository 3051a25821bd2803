ghost use Rattle.std.specs.Prelude.{◌≡◌, ◌+◌, ◌≤◌, false, ◌&&◌, ◌||◌, eqb, length};
ghost use Rattle.model.specs.Lists.{among, empty, eq_bytes};
ghost use Rattle.model.specs.Records.{own, key_ids};
ghost use Rattle.tlv.specs.Rows.{row, rows, Within};
ghost use Rattle.stored_table.specs.Stored.{Stands, record_at};
ghost use Rattle.stored_table.specs.Chosen.{ChosenAre, positions, is_chosen};
ghost use Rattle.stored_table.specs.Newest.{withdrawable};

use crate::records::{KEY_ID, MIXED, count_at};
use crate::table::StoredTable;
use tlv::rows::{is_among, row_is, same_row, times_in};

// Whether no handle is given or the 32 bytes at a place are among them. The handles are the rows of s at these places.
fn is_given(table: &[u8], place: usize, s: &[u8], handles: &[usize]) -> bool
    requires place_in_bounds { place + 32 ≤ length table.now }
    requires within { Within 0 handles.now s.now }
    ensures { result ≡ (empty (rows 0 handles.now s.now) || among (row place table.now) (rows 0 handles.now s.now)) }
{
    handles.is_empty()
        || handles
            .iter()
            .any(|handle| same_row(table, place, s, *handle))
}

// Whether the record at a place is chosen by a mixed token and the handles given, which are rows of s.
#[tactic(auto, unfolding(crate::specs::Stored::record_at))]
fn is_chosen(table: &[u8], place: usize, mixed: &[u8], s: &[u8], handles: &[usize]) -> bool
    requires stands { Stands table.now place }
    requires within { Within 0 handles.now s.now }
    ensures { result ≡ is_chosen mixed.now (rows 0 handles.now s.now) (record_at table.now place) }
{
    row_is(table, place + MIXED, mixed) && is_given(table, place + KEY_ID, s, handles)
}

// Whether the record at a place has this KeyID and has not signed.
#[tactic(auto, unfolding(crate::specs::Stored::record_at))]
fn is_unsigned(table: &[u8], place: usize, key: &[u8]) -> bool
    requires { Stands table.now place }
    ensures { result ≡ (eq_bytes (record_at table.now place).key_id key.now && eqb (record_at table.now place).count 0) }
{
    row_is(table, place + KEY_ID, key) && count_at(table, place) == 0
}

impl<'a> StoredTable<'a> {
    // Whether a KeyID is stored, by anybody.
    pub fn is_stored(&self, key: &[u8]) -> bool
        ensures { result ≡ among key.now (key_ids self.now) }
    {
        is_among(self.bytes, self.places, KEY_ID, key)
    }

    // How many records a mixed token has.
    pub fn own_count(&self, mixed: &[u8]) -> usize
        ensures { result ≡ length (own mixed.now self.now) }
    {
        times_in(self.bytes, self.places, MIXED, 0, mixed)
    }

    // How many records are chosen by a mixed token and the handles given, which are rows of s: at most eight, because a mixed token has no more. Their
    // numbers in the table are put first in what is lent for them; what stands past them is open.
    pub fn choose(&self, mixed: &[u8], s: &[u8], handles: &[usize], chosen: &mut [usize]) -> usize
        requires within { Within 0 handles.now s.now }
        requires chosen_len { length chosen.old ≡ 8 }
        ensures { ChosenAre (positions (is_chosen mixed.now (rows 0 handles.now s.now)) 0 self.now) chosen.new result }
    {
        let mut len = 0;
        for (i, place) in self.places.iter().enumerate() {
            if is_chosen(self.bytes, *place, mixed, s, handles) {
                chosen[len] = i;
                len += 1;
            }
        }
        len
    }

    // Whether a mixed token has a record with this KeyID: it would go in a removal by both.
    pub fn is_own(&self, mixed: &[u8], key: &[u8]) -> bool
        requires { empty key.now ≡ false }
        ensures { result ≡ among key.now (key_ids (own mixed.now self.now)) }
    {
        self.next_going(0, mixed, key) < self.len()
    }

    // Whether the record of a mixed token with this KeyID can be taken back: it is the newest of the mixed token's and has not signed. So the last record
    // with the mixed token decides, and one with the KeyID that stands before it does not count.
    pub fn is_withdrawable(&self, mixed: &[u8], key: &[u8]) -> bool
        ensures { result ≡ withdrawable key.now (own mixed.now self.now) }
    {
        for place in self.places.iter().rev() {
            if row_is(self.bytes, *place + MIXED, mixed) {
                return is_unsigned(self.bytes, *place, key);
            }
        }
        false
    }
}
