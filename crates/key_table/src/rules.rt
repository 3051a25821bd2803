ghost use Rattle.std.specs.Prelude.{◌≡◌, ◌≤◌, ◌&&◌, leb, length, take};
ghost use Rattle.model.specs.Lists.{all};
ghost use Rattle.model.specs.Tlv.{fits, username};
ghost use Rattle.model.specs.Records.{record_ok, max_records};
ghost use Rattle.key_table.specs.Views.{view_record, view_table};

use crate::records::{Record, Table};
use fields::is_username;
use stored_table::records::MAX_RECORDS;

// Whether a record obeys the rules: the other lengths and the counter's width are those of its types.
fn record_ok(r: Record) -> bool
    ensures { result ≡ record_ok (view_record r) }
{
    r.name_len <= 128 && is_username(r.name())
}

// Whether there are at most 32 records, each of which obeys its rules. That no KeyID stands there twice, and no mixed token too often, is found
// when the table's stored form is read.
#[tactic(auto, using(crate::proofs::RuleLaws::too_many))]
pub fn records_ok(t: Table) -> bool
    ensures { result ≡ (leb (length (view_table t)) max_records && all record_ok (view_table t)) }
{
    if MAX_RECORDS < t.len {
        return false;
    }
    t.held().iter().all(|r| record_ok(*r))
}
