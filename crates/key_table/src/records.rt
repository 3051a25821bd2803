ghost use Rattle.std.specs.Prelude.{◌≡◌, ◌≤◌, [], length, take};
ghost use Rattle.tlv.specs.Firsts.{firsts};
ghost use Rattle.key_table.specs.Views.{value_of, spare_record, table_value};

use stored_table::records::MAX_RECORDS;
use tlv::writer::put_bytes;

// A record. The name is the first name_len bytes of its array: memory is fixed, and a record owns no other.
#[derive(Clone, Copy)]
pub struct Record {
    pub key_id: [u8; 32],
    pub mixed: [u8; 32],
    pub name: [u8; 128],
    pub name_len: usize,
    pub count: u32,
}

impl Record {
    // The name, where it is no longer than its array.
    pub fn name(&self) -> &[u8]
        requires { self.now.name_len ≤ 128 }
        ensures { result.now ≡ take self.now.name_len self.now.name }
    {
        &self.name[..self.name_len]
    }
}

// A table: its records, oldest first, are the first len of these, in fixed memory too.
#[derive(Clone, Copy)]
pub struct Table {
    pub records: [Record; MAX_RECORDS],
    pub len: usize,
}

impl Table {
    // Its records, where it has no more than there is room for.
    pub fn held(&self) -> &[Record]
        requires { self.now.len ≤ 32 }
        ensures { result.now ≡ take self.now.len self.now.records }
    {
        &self.records[..self.len]
    }
}

// Bytes as an array of N, the bytes after them zero.
fn filled<const N: usize>(s: &[u8]) -> [u8; N]
    requires { length s.now ≤ N }
    ensures { result ≡ firsts 0 N s.now }
{
    let mut k = [0u8; N];
    put_bytes(&mut k, 0, s);
    k
}

// The record of these fields.
pub fn record_of(key_id: &[u8], mixed: &[u8], name: &[u8], count: u32) -> Record
    requires { (length key_id.now ≡ 32) × (length mixed.now ≡ 32) × (length name.now ≤ 128) }
    ensures { result ≡ value_of key_id.now mixed.now name.now count }
{
    Record {
        key_id: filled(key_id),
        mixed: filled(mixed),
        name: filled(name),
        name_len: name.len(),
        count,
    }
}

// What stands past the last record: all zeros.
fn spare() -> Record
    ensures { result ≡ spare_record }
{
    Record {
        key_id: [0u8; 32],
        mixed: [0u8; 32],
        name: [0u8; 128],
        name_len: 0,
        count: 0,
    }
}

// The empty table.
pub fn no_table() -> Table
    ensures { result ≡ table_value [] }
{
    let empty = spare();
    Table {
        records: [empty; MAX_RECORDS],
        len: 0,
    }
}
