// A kind of multibody system: what the plane and space each have of their own. The work on any kind is in the other modules.
ghost use Rattle.std.specs.Prelude.{◌≡◌, ℕ, List, ◌*◌, ◌+◌, ◌≤◌, length};
ghost use Rattle.multibody.specs.System.{System};
ghost use Rattle.multibody.specs.Counts.{Present};
ghost use Rattle.multibody.specs.Refusals.{finite_body, finite_joint};
ghost use Rattle.multibody.specs.JointRows.{state, row_masks_at, row_count, motor_count, build_joint, sweep_row, sweep_side, warmstart_row, write_back_joint};
ghost use Rattle.multibody.specs.Kind.{Widths};

use floats::scalar::Side;
use rows::generic_joint::{JointEnabled, Masks};
use rows::integration_parameters::IntegrationParameters;

pub trait Kind {
    ghost system: { System };

    // How many numbers or words a record has.
    const ROW_WIDTH: usize;

    const BODY_WIDTH: usize;

    const WORDS_WIDTH: usize;

    const NUMBERS_WIDTH: usize;

    ghost ROW_WIDTH: { ℕ };

    ghost BODY_WIDTH: { ℕ };

    ghost WORDS_WIDTH: { ℕ };

    ghost NUMBERS_WIDTH: { ℕ };

    // The first and the second body of joint j, its masks, and whether it is enabled.
    fn body1_at(words: &[u32], j: usize) -> u32
        requires { j * system.store.words_width + system.store.words_width ≤ length words.now }
        ensures { result ≡ system.store.body1_at words.now j };

    fn body2_at(words: &[u32], j: usize) -> u32
        requires { j * system.store.words_width + system.store.words_width ≤ length words.now }
        ensures { result ≡ system.store.body2_at words.now j };

    fn masks_at(words: &[u32], j: usize) -> Masks
        requires { j * system.store.words_width + system.store.words_width ≤ length words.now }
        ensures { result ≡ system.store.masks_at words.now j };

    fn enabled_at(words: &[u32], j: usize) -> JointEnabled
        requires { j * system.store.words_width + system.store.words_width ≤ length words.now }
        ensures { result ≡ system.store.enabled_at words.now j };

    // How many rows a joint has that these masks give its rows, and how many of them are motors', the first ones.
    fn row_count(masks: Masks) -> usize
        ensures value { (words : List ℕ) (j : ℕ) → masks ≡ row_masks_at system.store words j → result ≡ row_count system.store words j }
        ensures few { result ≤ system.store.most_rows };

    fn motor_count(masks: Masks) -> usize
        ensures { (words : List ℕ) (j : ℕ) → masks ≡ row_masks_at system.store words j → result ≡ motor_count system.store words j };

    ghost widths: { Widths system.store ROW_WIDTH BODY_WIDTH WORDS_WIDTH NUMBERS_WIDTH };
}

// What is done to one of its rows, and to one joint.
pub trait Work: Kind {
    // Joint j's rows made anew and stored from row `first` on, none where it is not enabled; their number comes back.
    fn build_joint(
        params: IntegrationParameters,
        bodies: &[f32],
        words: &[u32],
        numbers: &[f32],
        j: usize,
        rows: &mut [f32],
        first: usize,
        warmstart: Option<f32>,
        substep_id: u32,
    ) -> usize
        requires words_width_in_bounds { j * Self.system.store.words_width + Self.system.store.words_width ≤ length words.now }
        requires numbers_width_in_bounds { j * Self.system.store.numbers_width + Self.system.store.numbers_width ≤ length numbers.now }
        requires present { Present Self.system.store bodies.now (Self.system.store.body1_at words.now j) }
        requires present_2 { Present Self.system.store bodies.now (Self.system.store.body2_at words.now j) }
        requires row_width_in_bounds { (first + row_count Self.system.store words.now j) * Self.system.store.row_width ≤ length rows.old }
        ensures { (result ≡ row_count Self.system.store words.now j) × (rows.new ≡ build_joint Self.system.store params bodies.now words.now numbers.now j first warmstart substep_id rows.old) };

    // Row k's step, between bodies b1 and b2. Which bound it met comes back.
    fn sweep_row(rows: &mut [f32], k: usize, bodies: &mut [f32], b1: u32, b2: u32) -> Side
        requires row_width_in_bounds { k * Self.system.store.row_width + Self.system.store.row_width ≤ length rows.old }
        requires present { Present Self.system.store bodies.old b1 }
        requires present_2 { Present Self.system.store bodies.old b2 }
        ensures { (result ≡ sweep_side Self.system.store k b1 b2 (state rows.old bodies.old)) × (state rows.new bodies.new ≡ sweep_row Self.system.store k b1 b2 (state rows.old bodies.old)) };

    // Row k's warm start, between bodies b1 and b2.
    fn warmstart_row(rows: &[f32], k: usize, bodies: &mut [f32], b1: u32, b2: u32)
        requires row_width_in_bounds { k * Self.system.store.row_width + Self.system.store.row_width ≤ length rows.now }
        requires present { Present Self.system.store bodies.old b1 }
        requires present_2 { Present Self.system.store bodies.old b2 }
        ensures { bodies.new ≡ warmstart_row Self.system.store rows.now k b1 b2 bodies.old };

    // Row k without its bias.
    fn remove_bias_row(rows: &mut [f32], k: usize)
        requires { k * Self.system.store.row_width + Self.system.store.row_width ≤ length rows.old }
        ensures { rows.new ≡ Self.system.store.put_row rows.old k (Self.system.store.remove_bias_of (Self.system.store.row_at rows.old k)) };

    // The impulses of joint j's rows, from row k on, stored by their ids.
    fn write_back_joint(rows: &[f32], words: &[u32], k: usize, j: usize, numbers: &mut [f32])
        requires words_width_in_bounds { j * Self.system.store.words_width + Self.system.store.words_width ≤ length words.now }
        requires numbers_width_in_bounds { j * Self.system.store.numbers_width + Self.system.store.numbers_width ≤ length numbers.old }
        requires row_width_in_bounds { (k + row_count Self.system.store words.now j) * Self.system.store.row_width ≤ length rows.now }
        ensures { numbers.new ≡ write_back_joint Self.system.store rows.now words.now k j numbers.old };

    // What rule 6 asks of body i and of joint j.
    fn finite_body(bodies: &[f32], i: usize) -> bool
        requires { i * Self.system.store.body_width + Self.system.store.body_width ≤ length bodies.now }
        ensures { result ≡ finite_body Self.system bodies.now i };

    fn finite_joint(words: &[u32], numbers: &[f32], j: usize) -> bool
        requires words_width_in_bounds { j * Self.system.store.words_width + Self.system.store.words_width ≤ length words.now }
        requires numbers_width_in_bounds { j * Self.system.store.numbers_width + Self.system.store.numbers_width ≤ length numbers.now }
        ensures { result ≡ finite_joint Self.system words.now numbers.now j };
}
