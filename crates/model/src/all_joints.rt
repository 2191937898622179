// What stands in row storage of all joints, read. The work on all joints is multibody's, over any kind of system.
ghost use Rattle.std.specs.Prelude.{◌≡◌, ◌+◌, ◌*◌, ◌≤◌, length};
ghost use Rattle.rows.specs.Update.{rows_array};
ghost use Rattle.multibody.specs.Calls.{rows_from};
ghost use Rattle.model.specs.Layout.{row_width};
ghost use Rattle.model.specs.Planar.{plane};

use crate::store::row_at;
use rows::joint_velocity_constraint::{Rows, blank_row};

// n rows from row k on, at most six, as an array.
pub fn rows_from(rows: &[f32], k: usize, n: usize) -> Rows
    requires n_bound { n ≤ 6 }
    requires row_width_in_bounds { (k + n) * row_width ≤ length rows.now }
    ensures { result ≡ rows_array (rows_from plane rows.now k n) }
{
    let mut out = [blank_row(); 6];
    for i in 0..n {
        out[i] = row_at(rows, k + i);
    }
    Rows { rows: out, len: n }
}
