// The work on all joints, ascending. A joint's rows follow the earlier joints' rows, so the first row moves on by each joint's count.
ghost use Rattle.std.specs.Prelude.{◌≡◌, ◌≤◌, length};
ghost use Rattle.multibody.specs.JointRows.{state};
ghost use Rattle.multibody.specs.Model.{model};
ghost use Rattle.multibody.specs.Counts.{Sound, Room, joint_count, total_rows};
ghost use Rattle.multibody.specs.Calls.{each_joint, rounds, build_one, warmstart_one, counted, counted_round, remove_bias_one, write_back_one};

use crate::counts::joint_count;
use crate::header::Header;
use crate::joint_rows::{count_at, motors_at, remove_bias_joint, sweep_joint, warmstart_joint};
use crate::kind::Work;

// The rows of all joints made anew; their number comes back.
pub fn build_all<K: Work>(
    header: Header,
    bodies: &[f32],
    words: &[u32],
    numbers: &[f32],
    rows: &mut [f32],
    warmstart: Option<f32>,
    substep_id: u32,
) -> usize
    requires fact { Sound K.system.store (model header.params header.built bodies.now words.now numbers.now) }
    requires fact_2 { Room K.system.store (model header.params header.built bodies.now words.now numbers.now) rows.old }
    ensures { (result ≡ total_rows K.system.store words.now numbers.now) × (rows.new ≡ each_joint (build_one K.system.store (model header.params header.built bodies.now words.now numbers.now) warmstart substep_id) 0 (joint_count K.system.store words.now numbers.now) rows.old) }
{
    let joints = joint_count::<K>(words, numbers);
    let mut first = 0;
    for j in 0..joints {
        first += K::build_joint(
            header.params,
            bodies,
            words,
            numbers,
            j,
            rows,
            first,
            warmstart,
            substep_id,
        );
    }
    first
}

// The warm start of all rows.
pub fn warmstart_all<K: Work>(
    header: Header,
    bodies: &mut [f32],
    words: &[u32],
    numbers: &[f32],
    rows: &[f32],
)
    requires fact { Sound K.system.store (model header.params header.built bodies.old words.now numbers.now) }
    requires fact_2 { Room K.system.store (model header.params header.built bodies.old words.now numbers.now) rows.now }
    ensures { bodies.new ≡ each_joint (warmstart_one K.system.store words.now rows.now) 0 (joint_count K.system.store words.now numbers.now) bodies.old }
{
    let n = joint_count::<K>(words, numbers);
    let mut first = 0;
    for j in 0..n {
        let count = count_at::<K>(words, j);
        let b1 = K::body1_at(words, j);
        let b2 = K::body2_at(words, j);
        warmstart_joint::<K>(rows, first, count, bodies, b1, b2);
        first += count;
    }
}

// One round of a sweep, which stores each joint's count.
pub fn sweep_round<K: Work>(
    header: Header,
    bodies: &mut [f32],
    words: &[u32],
    numbers: &[f32],
    rows: &mut [f32],
    counts: &mut [u8],
)
    requires fact { Sound K.system.store (model header.params header.built bodies.old words.now numbers.now) }
    requires fact_2 { Room K.system.store (model header.params header.built bodies.old words.now numbers.now) rows.old }
    requires numbers_in_bounds { joint_count K.system.store words.now numbers.now ≤ length counts.old }
    ensures { counted (state rows.new bodies.new) counts.new ≡ counted_round K.system.store words.now (joint_count K.system.store words.now numbers.now) (counted (state rows.old bodies.old) counts.old) }
{
    let n = joint_count::<K>(words, numbers);
    let mut first = 0;
    for j in 0..n {
        let count = count_at::<K>(words, j);
        let b1 = K::body1_at(words, j);
        let b2 = K::body2_at(words, j);
        let motors = motors_at::<K>(words, j);
        counts[j] = sweep_joint::<K>(rows, first, count, motors, bodies, b1, b2);
        first += count;
    }
}

// n rounds.
pub fn sweep_all<K: Work>(
    header: Header,
    bodies: &mut [f32],
    words: &[u32],
    numbers: &[f32],
    rows: &mut [f32],
    counts: &mut [u8],
    n: u32,
)
    requires fact { Sound K.system.store (model header.params header.built bodies.old words.now numbers.now) }
    requires fact_2 { Room K.system.store (model header.params header.built bodies.old words.now numbers.now) rows.old }
    requires numbers_in_bounds { joint_count K.system.store words.now numbers.now ≤ length counts.old }
    ensures { counted (state rows.new bodies.new) counts.new ≡ rounds (counted_round K.system.store words.now (joint_count K.system.store words.now numbers.now)) n (counted (state rows.old bodies.old) counts.old) }
{
    for _round in 0..n {
        sweep_round::<K>(header, bodies, words, numbers, rows, counts);
    }
}

// All rows without their bias.
pub fn remove_bias_all<K: Work>(
    header: Header,
    bodies: &[f32],
    words: &[u32],
    numbers: &[f32],
    rows: &mut [f32],
)
    requires { Room K.system.store (model header.params header.built bodies.now words.now numbers.now) rows.old }
    ensures { rows.new ≡ each_joint (remove_bias_one K.system.store words.now) 0 (joint_count K.system.store words.now numbers.now) rows.old }
{
    let n = joint_count::<K>(words, numbers);
    let mut first = 0;
    for j in 0..n {
        let count = count_at::<K>(words, j);
        remove_bias_joint::<K>(rows, first, count);
        first += count;
    }
}

// The impulses of all rows stored by their ids.
pub fn write_back_all<K: Work>(
    header: Header,
    bodies: &[f32],
    words: &[u32],
    numbers: &mut [f32],
    rows: &[f32],
)
    requires { Room K.system.store (model header.params header.built bodies.now words.now numbers.old) rows.now }
    ensures { numbers.new ≡ each_joint (write_back_one K.system.store rows.now words.now) 0 (joint_count K.system.store words.now numbers.old) numbers.old }
{
    let n = joint_count::<K>(words, numbers);
    let mut first = 0;
    for j in 0..n {
        K::write_back_joint(rows, words, first, j, numbers);
        first += count_at::<K>(words, j);
    }
}
