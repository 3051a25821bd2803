ghost use Rattle.std.specs.Prelude.{◌≡◌, ◌+◌, ◌≤◌, ◌<◌, [], ◌∷◌, length, get_or};
ghost use Rattle.model.specs.Commands.{name_response};
ghost use Rattle.tlv.specs.Writing.{Wrote};
ghost use Rattle.stored_table.specs.Stored.{no_record};
ghost use Rattle.stored_table.specs.Chosen.{ChosenOf, records_at};
ghost use Rattle.replies.specs.Writes.{pairs_of};
ghost use Rattle.replies.specs.Replies.{pairs_size};

use crate::status::{OK, put_start};
use fields::tags;
use stored_table::table::StoredTable;
use tlv::writer::{put_header, put_tlv};

// What a USERNAME_AND_KEYHANDLE takes besides the name: three headers and a KeyID; and of this what its value takes.
const BESIDE_NAME: usize = 44;

const INSIDE_BESIDE_NAME: usize = 40;

// How many bytes the names and KeyIDs of the records with these numbers take.
pub fn pairs_len(table: &StoredTable, named: &[usize]) -> usize
    requires { ChosenOf table.now named.now }
    ensures { (result ≡ pairs_size (records_at table.now named.now)) × (result ≤ 1376) }
{
    BESIDE_NAME * named.len() + table.names_len(named)
}

// Writes the name and the KeyID of record i.
fn put_pair(out: &mut [u8], at: usize, table: &StoredTable, i: usize) -> usize
    requires { (i < length table.now) × (at + (44 + length (get_or table.now i no_record).name) ≤ length out.old) }
    ensures { Wrote out.old at (pairs_of (get_or table.now i no_record ∷ []))
        (44 + length (get_or table.now i no_record).name) out.new result }
{
    let a1 = put_header(
        out,
        at,
        tags::USERNAME_AND_KEYHANDLE,
        INSIDE_BESIDE_NAME + table.name_len(i),
    );
    let a2 = put_tlv(out, a1, tags::USERNAME, table.name_of(i));
    put_tlv(out, a2, tags::KEYHANDLE, table.key_of(i))
}

// Writes the name and the KeyID of each of these records, in their order.
fn put_pairs(out: &mut [u8], at: usize, table: &StoredTable, named: &[usize]) -> usize
    requires chosen_of { ChosenOf table.now named.now }
    requires named_in_bounds { at + pairs_size (records_at table.now named.now) ≤ length out.old }
    ensures { Wrote out.old at (pairs_of (records_at table.now named.now))
        (pairs_size (records_at table.now named.now)) out.new result }
{
    let mut end = at;
    for &record in named {
        end = put_pair(out, end, table, record);
    }
    end
}

// Writes Sign's response where several are chosen, of len bytes: their names and KeyIDs, oldest first.
pub fn put_names(out: &mut [u8], len: usize, table: &StoredTable, named: &[usize]) -> usize
    requires chosen_of { ChosenOf table.now named.now }
    requires len_value { (len ≡ 10 + pairs_size (records_at table.now named.now)) × (len ≤ length out.old) }
    ensures { Wrote out.old 0 (name_response (records_at table.now named.now)) len out.new result }
{
    let a = put_start(out, tags::SIGN_CMD_RESPONSE, len - 4, OK);
    put_pairs(out, a, table, named)
}
