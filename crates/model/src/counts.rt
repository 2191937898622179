// How many bodies, joints and rows a storage holds, and where a joint's rows begin.
ghost use Rattle.std.specs.Prelude.{◌≡◌, ◌*◌, ◌≤◌, length};
ghost use Rattle.model.specs.Layout.{words_width};
ghost use Rattle.multibody.specs.Model.{most_joints};
ghost use Rattle.multibody.specs.Counts.{body_count, joint_count, row_capacity, rows_before, store_firsts};
ghost use Rattle.model.specs.Store.{put_masks};
ghost use Rattle.model.specs.Planar.{plane};

use crate::joint_rows::count_with;
use crate::layout::{BODY_WIDTH, FIRST_ROW, NUMBERS_WIDTH, ROW_WIDTH, WORDS_WIDTH};
use crate::plane::Plane;
use multibody::joint_rows::count_at;
use rows::generic_joint::Masks;

// The rows of the first n joints together once joint j has other masks, of which none is stored yet (request R-10).
pub fn rows_with(words: &[u32], n: usize, j: usize, masks: Masks) -> usize
    requires { n * words_width ≤ length words.now }
    ensures { result ≡ rows_before plane (put_masks words.now j masks) n }
{
    let mut first = 0usize;
    for i in 0..n {
        first += count_with(words, i, j, masks);
    }
    first
}

// The first row of each of n joints, stored (request R-10).
pub fn store_firsts(words: &mut [u32], n: usize)
    requires n_le_most_joints { n ≤ most_joints }
    requires words_width_in_bounds { n * words_width ≤ length words.old }
    ensures { words.new ≡ store_firsts plane 0 n words.old }
{
    let mut first = 0usize;
    for j in 0..n {
        words[j * WORDS_WIDTH + FIRST_ROW] = first as u32;
        first += count_at::<Plane>(words, j);
    }
}
