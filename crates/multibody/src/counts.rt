// How many bodies, joints and rows a storage holds, and where a joint's rows begin.
ghost use Rattle.std.specs.Prelude.{◌≡◌, ◌*◌, ◌≤◌, length};
ghost use Rattle.multibody.specs.Counts.{body_count, joint_count, row_capacity, rows_before};

use crate::joint_rows::count_at;
use crate::kind::Kind;

// The number of bodies, and of rows that a storage has room for: whole records.
pub fn body_count<K: Kind>(bodies: &[f32]) -> usize
    ensures { result ≡ body_count K.system.store bodies.now }
{
    bodies.len() / K::BODY_WIDTH
}

pub fn row_capacity<K: Kind>(rows: &[f32]) -> usize
    ensures { result ≡ row_capacity K.system.store rows.now }
{
    rows.len() / K::ROW_WIDTH
}

// The number of joints: a joint is there where both its words and its numbers are.
pub fn joint_count<K: Kind>(words: &[u32], numbers: &[f32]) -> usize
    ensures { result ≡ joint_count K.system.store words.now numbers.now }
{
    (words.len() / K::WORDS_WIDTH).min(numbers.len() / K::NUMBERS_WIDTH)
}

// The rows of the first j joints together: where joint j's rows begin.
pub fn rows_before<K: Kind>(words: &[u32], j: usize) -> usize
    requires { j * K.system.store.words_width ≤ length words.now }
    ensures { result ≡ rows_before K.system.store words.now j }
{
    let mut first = 0;
    for i in 0..j {
        first += count_at::<K>(words, i);
    }
    first
}
