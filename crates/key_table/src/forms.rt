ghost use Rattle.std.specs.Prelude.{◌≡◌, ◌+◌, ◌≤◌, ◌<◌, true, ◌&&◌, [], ◌∷◌, leb, length, get_or};
ghost use Rattle.model.specs.Lists.{all};
ghost use Rattle.model.specs.Records.{record_ok, max_records, encode, max_stored, decode};
ghost use Rattle.tlv.specs.Writing.{Wrote};
ghost use Rattle.fields.specs.Refusals.{ended, ends};
ghost use Rattle.stored_table.specs.Stored.{beside_name, no_record};
ghost use Rattle.key_table.specs.Views.{view_record, view_table, record_value, table_value};
ghost use Rattle.key_table.specs.Forms.{FormIs, storing, loading};

use crate::records::{Record, Table, no_table, record_of};
use crate::rules::records_ok;
use fields::refusals::Refusal;
use stored_table::left::put_record;
use stored_table::records::{MAX_RECORDS, MAX_STORED};
use stored_table::table::StoredTable;
use tlv::numbers::put8;
use tlv::writer::put_bytes;

// Writes the stored form of a record by value.
fn put_value(out: &mut [u8], at: usize, r: &Record) -> usize
    requires { (r.now.name_len ≤ 128) × (at + (beside_name + r.now.name_len) ≤ length out.old) }
    ensures { Wrote out.old at (encode (view_record r.now ∷ [])) (beside_name + r.now.name_len) out.new result }
{
    put_record(out, at, &r.key_id, &r.mixed, r.name(), r.count)
}

// Writes the stored form of a table from the front.
fn put_table(out: &mut [u8], t: Table) -> usize
    requires t_value { (leb (length (view_table t)) max_records && all record_ok (view_table t)) ≡ true }
    requires max_stored_in_bounds { max_stored ≤ length out.old }
    ensures { Wrote out.old 0 (encode (view_table t)) result out.new result }
{
    let mut at = 0;
    for record in t.held() {
        at = put_value(out, at, record);
    }
    at
}

// Puts a table into the form that a call reads: its stored form, or a stretch that is the stored form of no table if some record breaks a rule, so that
// the call finds that in its turn.
pub fn put_form(out: &mut [u8], t: Table) -> usize
    requires { max_stored ≤ length out.old }
    ensures { FormIs (view_table t) out.new result }
{
    if !records_ok(t) {
        return put8(out, 0, 0);
    }
    put_table(out, t)
}

// Writes the stored form of a table: refusal 1 for an output that is too short, then 2 for a table that breaks a rule.
#[tactic(auto, using(crate::proofs::StoreLaws::stores_short))]
pub fn store(t: Table, out: &mut [u8]) -> Result<usize, Refusal>
    ensures { ended result out.new ≡ ends (storing (view_table t) (length out.old)) out.old }
{
    if out.len() < MAX_STORED {
        return Err(Refusal::ShortOutput);
    }
    let mut form = [0u8; MAX_STORED];
    let n = put_form(&mut form, t);
    let mut places = [0usize; MAX_RECORDS];
    let Some(_) = StoredTable::read(&form[..n], &mut places) else {
        return Err(Refusal::BrokenTable);
    };
    Ok(put_bytes(out, 0, &form[..n]))
}

// Record i of a stored table, by value.
fn value_at(table: &StoredTable, i: usize) -> Record
    requires { i < length table.now }
    ensures { result ≡ record_value (get_or table.now i no_record) }
{
    let key_id = table.key_of(i);
    let mixed = table.mixed_of(i);
    record_of(key_id, mixed, table.name_of(i), table.count_of(i))
}

// All records of a stored table, by value.
fn values_at(table: &StoredTable) -> Table
    ensures { result ≡ table_value table.now }
{
    let mut t = no_table();
    let len = table.len();
    for i in 0..len {
        t.records[i] = value_at(table, i);
    }
    t.len = len;
    t
}

// Reads a table from its stored form: refusal 2 for a stretch that is the stored form of no table. Spare bytes of a table that is read are zero.
pub fn load(stored: &[u8]) -> Result<Table, Refusal>
    ensures { result ≡ loading (decode stored.now) }
{
    let mut places = [0usize; MAX_RECORDS];
    match StoredTable::read(stored, &mut places) {
        None => Err(Refusal::BrokenTable),
        Some(table) => Ok(values_at(&table)),
    }
}
