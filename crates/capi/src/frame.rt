// A frame of a study that moves (document 02, R-12) for C, Rust and Python callers, in the forms of the calls.
ghost use Rattle.std.specs.Prelude.{◌≡◌, cond};
ghost use Rattle.frames.specs.Frames.{run_frame};
ghost use Rattle.capi.specs.CallExports.{lent, warm_of, number, short_slice, room_for_counts};
ghost use Rattle.capi.specs.FrameExports.{frame_counts_out};

use crate::calls::{SHORT_SLICE, header, put_counts, warm_of};
use frames::frame::frame;

// 128 bytes are lent for the counts of the last sweep, one a joint. Where there are fewer the answer says so, and nothing is done. A granted frame leaves the mark set, a refused one as it was: the caller keeps it.
#[unsafe(no_mangle)]
pub extern "C" fn katydidzinc_frame(
    dt: f32,
    length_unit: f32,
    normalized: f32,
    built: u32,
    bodies: &mut [f32],
    words: &[u32],
    numbers: &mut [f32],
    rows: &mut [f32],
    warm: u32,
    coefficient: f32,
    sweeps: u32,
    n: u32,
    counts: &mut [u8],
) -> u64
    ensures value { result ≡ cond (room_for_counts counts.old) (number (run_frame (warm_of warm coefficient) sweeps n (lent dt length_unit normalized built bodies.old words.now numbers.old) rows.old).answer) short_slice }
    ensures bodies_after { bodies.new ≡ cond (room_for_counts counts.old) (run_frame (warm_of warm coefficient) sweeps n (lent dt length_unit normalized built bodies.old words.now numbers.old) rows.old).after.bodies bodies.old }
    ensures numbers_after { numbers.new ≡ cond (room_for_counts counts.old) (run_frame (warm_of warm coefficient) sweeps n (lent dt length_unit normalized built bodies.old words.now numbers.old) rows.old).after.numbers numbers.old }
    ensures rows_after { rows.new ≡ cond (room_for_counts counts.old) (run_frame (warm_of warm coefficient) sweeps n (lent dt length_unit normalized built bodies.old words.now numbers.old) rows.old).rows rows.old }
    ensures counts_after { counts.new ≡ cond (room_for_counts counts.old) (frame_counts_out (run_frame (warm_of warm coefficient) sweeps n (lent dt length_unit normalized built bodies.old words.now numbers.old) rows.old).answer counts.old) counts.old }
{
    if counts.len() < 128 {
        return SHORT_SLICE;
    }
    let h = header(dt, length_unit, normalized, built);
    let warmstart = warm_of(warm, coefficient);
    match frame(h, bodies, words, numbers, rows, warmstart, sweeps, n) {
        Ok(made) => {
            let told = made.1;
            put_counts(counts, told);
            0
        }
        Err(refused) => refused.number() as u64,
    }
}
