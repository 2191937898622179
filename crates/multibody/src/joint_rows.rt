// One joint's rows in storage: their number, and what is done to them in turn.
ghost use Rattle.std.specs.Prelude.{◌≡◌, ◌+◌, ◌*◌, ◌≤◌, length};
ghost use Rattle.rows.specs.RowIds.{no_masks};
ghost use Rattle.multibody.specs.Counts.{Present};
ghost use Rattle.multibody.specs.Refusals.{reads_rows};
ghost use Rattle.multibody.specs.JointRows.{state, row_masks_at, row_count, motor_count, sweep_joint, count_row, count_rows, warmstart_joint, remove_bias_joint};

use crate::kind::{Kind, Work};
use floats::scalar::Side;
use rows::generic_joint::Masks;

// No axis is locked, limited, driven or coupled.
pub fn no_masks() -> Masks
    ensures { result ≡ no_masks }
{
    Masks {
        locked_axes: 0,
        limit_axes: 0,
        motor_axes: 0,
        coupled_axes: 0,
    }
}

// The masks that give joint j its rows: its own where it is enabled, and none where it is not.
pub fn row_masks_at<K: Kind>(words: &[u32], j: usize) -> Masks
    requires { j * K.system.store.words_width + K.system.store.words_width ≤ length words.now }
    ensures { result ≡ row_masks_at K.system.store words.now j }
{
    if K::enabled_at(words, j).is_enabled() {
        K::masks_at(words, j)
    } else {
        no_masks()
    }
}

// The number of joint j's rows.
pub fn count_at<K: Kind>(words: &[u32], j: usize) -> usize
    requires { j * K.system.store.words_width + K.system.store.words_width ≤ length words.now }
    ensures value { result ≡ row_count K.system.store words.now j }
    ensures few { result ≤ K.system.store.most_rows }
{
    K::row_count(row_masks_at::<K>(words, j))
}

// How many of them are motors', the first ones.
pub fn motors_at<K: Kind>(words: &[u32], j: usize) -> usize
    requires { j * K.system.store.words_width + K.system.store.words_width ≤ length words.now }
    ensures { result ≡ motor_count K.system.store words.now j }
{
    K::motor_count(row_masks_at::<K>(words, j))
}

// A build that has both a warm coefficient and a substep above 0 reads the rows of the last build.
pub fn reads_rows(warmstart: Option<f32>, substep_id: u32) -> bool
    ensures { result ≡ reads_rows warmstart substep_id }
{
    match warmstart {
        None => false,
        Some(_) => substep_id > 0,
    }
}

// 1 where row i is one of the first `motors` and its step met a bound.
fn count_row<K: Kind>(i: usize, motors: usize, side: Side) -> u8
    ensures value { result ≡ count_row K.system.store i motors side }
    ensures upper_bound { result ≤ 1 }
{
    if i >= motors {
        return 0;
    }
    match side {
        Side::Low => 1,
        Side::High => 1,
        Side::Inside => 0,
    }
}

// n rows from row k on, each in turn. How many of the first `motors` met a bound comes back.
pub fn sweep_joint<K: Work>(
    rows: &mut [f32],
    k: usize,
    n: usize,
    motors: usize,
    bodies: &mut [f32],
    b1: u32,
    b2: u32,
) -> u8
    requires n_bound { n ≤ K.system.store.most_rows }
    requires row_width_in_bounds { (k + n) * K.system.store.row_width ≤ length rows.old }
    requires present { Present K.system.store bodies.old b1 }
    requires present_2 { Present K.system.store bodies.old b2 }
    ensures { (result ≡ count_rows K.system.store motors k n b1 b2 (state rows.old bodies.old)) × (state rows.new bodies.new ≡ sweep_joint K.system.store k n b1 b2 (state rows.old bodies.old)) }
{
    let mut count = 0u8;
    for i in 0..n {
        let side = K::sweep_row(rows, k + i, bodies, b1, b2);
        count += count_row::<K>(i, motors, side);
    }
    count
}

pub fn warmstart_joint<K: Work>(
    rows: &[f32],
    k: usize,
    n: usize,
    bodies: &mut [f32],
    b1: u32,
    b2: u32,
)
    requires row_width_in_bounds { (k + n) * K.system.store.row_width ≤ length rows.now }
    requires present { Present K.system.store bodies.old b1 }
    requires present_2 { Present K.system.store bodies.old b2 }
    ensures { bodies.new ≡ warmstart_joint K.system.store rows.now k n b1 b2 bodies.old }
{
    for i in 0..n {
        K::warmstart_row(rows, k + i, bodies, b1, b2);
    }
}

// n rows from row k on without their bias.
pub fn remove_bias_joint<K: Work>(rows: &mut [f32], k: usize, n: usize)
    requires { (k + n) * K.system.store.row_width ≤ length rows.old }
    ensures { rows.new ≡ remove_bias_joint K.system.store k n rows.old }
{
    for i in 0..n {
        K::remove_bias_row(rows, k + i);
    }
}
