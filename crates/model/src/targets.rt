// The records of a motor table (request R-6) set in the joints' numbers.
ghost use Rattle.std.specs.Prelude.{◌≡◌, ◌+◌, ◌*◌, ◌≤◌, ◌<◌, length, Ok};
ghost use Rattle.motor_table.specs.Tables.{read_table, table_answer};
ghost use Rattle.model.specs.Layout.{numbers_width};
ghost use Rattle.model.specs.MotorTargets.{set_record, set_table};

use crate::store::put_target;
use motor_table::record::{Entry, record_at};
use motor_table::target::target_velocity;

// One record's target.
fn set_record(numbers: &mut [f32], e: Entry)
    requires { (e.axis.size < 3) × (e.joint.size * numbers_width + numbers_width ≤ length numbers.old) }
    ensures { numbers.new ≡ set_record numbers.old e }
{
    let v = target_velocity(e.thousandths);
    put_target(numbers, e.joint.size as usize, e.axis.size as usize, v);
}

// Every record's target, of a table of n records that was granted to a model of so many joints: a later one for the same axis wins.
pub fn set_table(numbers: &mut [f32], text: &[u8], joints: u32, n: u32)
    requires { (joints * numbers_width ≤ length numbers.old) × (table_answer 0 (read_table joints text.now) ≡ Ok n) }
    ensures { numbers.new ≡ set_table numbers.old (read_table joints text.now) }
{
    let mut at = 0;
    for i in 0..n {
        let Ok(record) = record_at(text, at) else {
            return;
        };
        set_record(&mut *numbers, record.entry);
        at = record.next;
    }
}
