ghost use Rattle.std.specs.Prelude.{◌≡◌};
ghost use Rattle.tlv.specs.Rows.{Within};
ghost use Rattle.stored_table.specs.Stored.{mixed_at};
ghost use Rattle.stored_table.specs.Index.{few_distinct, IndexIs};

use crate::records::{KEY_ID, MAX_OWN, MAX_RECORDS, MIXED};
use layouts::after_record;
use tlv::rows::{all_distinct, each_few};

// Whether records that start at these places have different KeyIDs, and each mixed token at most eight of them.
fn obeys(table: &[u8], places: &[usize]) -> bool
    requires { Within mixed_at places.now table.now }
    ensures { result ≡ few_distinct table.now places.now }
{
    each_few(table, places, MIXED, MAX_OWN) && all_distinct(table, places, KEY_ID)
}

// The index of the table of which a stretch is the stored form, if it is one: how many records it has, and where they start. What stands past their
// number is open.
pub fn index_of(table: &[u8], places: &mut [usize; MAX_RECORDS]) -> Option<usize>
    ensures { IndexIs table.now places.new result }
{
    let mut len = 0;
    let mut at = 0;

    // A turn goes to where the record that it read ends: no range or iterator says the places in advance.
    while at < table.len() {
        if len == MAX_RECORDS {
            return None;
        }
        let end = after_record(table, at);
        if table.len() < end {
            return None;
        }
        places[len] = at;
        len += 1;
        at = end;
    }
    obeys(table, &places[..len]).then_some(len)
}
