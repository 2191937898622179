// A whole table: every record is looked at, and the first faulty one decides.
ghost use Rattle.std.specs.Prelude.{◌≡◌};
ghost use Rattle.motor_table.specs.Tables.{read_table, table_answer};

use crate::record::{is_present, record_at};
use crate::refusal::TableRefusal;

// The largest number of records in a table.
pub const MOST_RECORDS: u32 = 4096;

// How many records a table has, each of them granted.
pub fn read_table(s: &[u8], joints: u32) -> Result<u32, TableRefusal>
    ensures { result ≡ table_answer 0 (read_table joints s.now) }
{
    let mut at: usize = 0;
    let mut count: u32 = 0;
    // a `while`: each record says where the next one starts
    while at < s.len() {
        if count == MOST_RECORDS {
            return Err(TableRefusal::Broken);
        }
        let read = record_at(s, at)?;
        if !is_present(joints, read.entry) {
            return Err(TableRefusal::Absent);
        }
        at = read.next;
        count += 1;
    }
    Ok(count)
}
