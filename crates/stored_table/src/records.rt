ghost use Rattle.std.specs.Prelude.{◌≡◌, ◌+◌};
ghost use Rattle.stored_table.specs.Stored.{Stands, name_size, count_at, record_at};

use tlv::numbers::{get16, get32};

// "The table has at most 32 records".
pub const MAX_RECORDS: usize = 32;

// ".. at most 8 with one mixed token".
pub const MAX_OWN: usize = 8;

// "6,912 bytes at most": the least table output.
pub const MAX_STORED: usize = 6912;

// A stored record is one USERNAME_AND_KEYHANDLE that holds KEYID, KEYHANDLE_ACCESS_TOKEN (the mixed token), USERNAME and COUNTERS. Where their values
// stand, from the record's first byte on: each is behind its own header and the record's.
const HEADER: usize = 4;

const KEY_SIZE: usize = 32;

const COUNT_SIZE: usize = 4;

pub const KEY_ID: usize = HEADER + HEADER;

pub const MIXED: usize = KEY_ID + KEY_SIZE + HEADER;

pub const NAME: usize = MIXED + KEY_SIZE + HEADER;

// The name's length is the second half of its header.
const NAME_SIZE: usize = NAME - 2;

// What a record takes besides its name, and of this what its value takes.
pub const BESIDE_NAME: usize = NAME + HEADER + COUNT_SIZE;

pub const INSIDE_BESIDE_NAME: usize = BESIDE_NAME - HEADER;

// How long the name of the record at a place is.
pub fn name_len_at(table: &[u8], place: usize) -> usize
    requires { Stands table.now place }
    ensures { result ≡ name_size table.now place }
{
    get16(table, place + NAME_SIZE)
}

// The KeyID of the record at a place.
#[tactic(auto, unfolding(crate::specs::Stored::record_at))]
pub fn key_at(table: &[u8], place: usize) -> &[u8]
    requires { Stands table.now place }
    ensures { result.now ≡ (record_at table.now place).key_id }
{
    let start = place + KEY_ID;
    let end = start + KEY_SIZE;
    &table[start..end]
}

// The mixed token of the record at a place.
#[tactic(auto, unfolding(crate::specs::Stored::record_at))]
pub fn mixed_at(table: &[u8], place: usize) -> &[u8]
    requires { Stands table.now place }
    ensures { result.now ≡ (record_at table.now place).mixed }
{
    let start = place + MIXED;
    let end = start + KEY_SIZE;
    &table[start..end]
}

// The name of the record at a place.
#[tactic(auto, unfolding(crate::specs::Stored::record_at))]
pub fn name_at(table: &[u8], place: usize) -> &[u8]
    requires { Stands table.now place }
    ensures { result.now ≡ (record_at table.now place).name }
{
    let start = place + NAME;
    let end = start + name_len_at(table, place);
    &table[start..end]
}

// Where the counter of the record at a place stands.
pub fn count_place(table: &[u8], place: usize) -> usize
    requires { Stands table.now place }
    ensures { result ≡ count_at table.now place }
{
    place + NAME + HEADER + name_len_at(table, place)
}

// The counter of the record at a place.
#[tactic(auto, unfolding(crate::specs::Stored::record_at))]
pub fn count_at(table: &[u8], place: usize) -> u32
    requires { Stands table.now place }
    ensures { result ≡ (record_at table.now place).count }
{
    get32(table, count_place(table, place)) as u32
}
