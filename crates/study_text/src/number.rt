// A number in millionths: the micro report in decimal, or a word where there is none; and an impulse or a bound, which is spelled in full where it has no millionths.
// Each function puts a text in from `at` on and answers where it ends.
ghost use Rattle.std.specs.Prelude.{◌≡◌, ◌-◌, length};
ghost use Rattle.texts.specs.Sink.{Appended};
ghost use Rattle.study_text.specs.Number.{signed, over_text, millionths_text, number_column, right_column};
ghost use Rattle.motor_table.specs.Text.{number_text};
ghost use Rattle.decimals.specs.Spelled.{spelled_text};

use decimals::spelled::spelled;
use floats::bits::{Parts, parts_of};
use floats::micro_report::{MicroReport, micro_report};
use motor_table::text::put_number;
use motor_table::whole_number::Number;
use texts::sink::{put_blanks, put_byte, put_text};

fn signed(n: i32) -> Number
    ensures { result ≡ signed n }
{
    Number {
        negative: n < 0,
        size: n.unsigned_abs(),
    }
}

fn put_over(out: &mut [u8], at: usize, x: f32) -> usize
    ensures { Appended out.old at (over_text x) out.new result }
{
    match parts_of(x) {
        Parts::Infinite(true) => put_text(out, at, b"-inf"),
        Parts::Infinite(false) => put_text(out, at, b"inf"),
        Parts::Finite(..) | Parts::Nan => put_text(out, at, b"over"),
    }
}

pub fn put_millionths(out: &mut [u8], at: usize, x: f32) -> usize
    ensures { Appended out.old at (millionths_text x) out.new result }
{
    match micro_report(x) {
        MicroReport::Whole(n) => put_number(out, at, signed(n)),
        MicroReport::Over => put_over(out, at, x),
        MicroReport::Nan => put_text(out, at, b"nan"),
    }
}

// The number as a decimal that reads as it.
pub fn put_spelled(out: &mut [u8], at: usize, x: f32) -> usize
    ensures { Appended out.old at (spelled_text x) out.new result }
{
    let word = spelled(x);
    let bytes = word.bytes;
    put_text(out, at, &bytes[..word.len])
}

// ---- at the right of 15 bytes, and a blank

fn blanks_before(len: usize) -> usize
    ensures { result ≡ 15 - len }
{
    15usize.saturating_sub(len)
}

fn put_right(out: &mut [u8], at: usize, text: &[u8]) -> usize
    ensures { Appended out.old at (right_column text.now) out.new result }
{
    let a = put_blanks(out, at, blanks_before(text.len()));
    let b = put_text(out, a, text);
    put_byte(out, b, b' ')
}

pub(crate) fn put_right_spelled(out: &mut [u8], at: usize, x: f32) -> usize
    ensures { Appended out.old at (right_column (spelled_text x)) out.new result }
{
    let word = spelled(x);
    let bytes = word.bytes;
    put_right(out, at, &bytes[..word.len])
}

// A first run tells the length.
fn put_right_whole(out: &mut [u8], at: usize, n: i32) -> usize
    ensures { Appended out.old at (right_column (number_text (signed n))) out.new result }
{
    let number = signed(n);
    let mut none = [0u8; 1];
    let len = put_number(&mut none, 0, number);
    let a = put_blanks(out, at, blanks_before(len));
    let b = put_number(out, a, number);
    put_byte(out, b, b' ')
}

// An impulse or a bound: its millionths, or the number itself where it has none.
pub(crate) fn put_number_column(out: &mut [u8], at: usize, x: f32) -> usize
    ensures { Appended out.old at (number_column x) out.new result }
{
    match micro_report(x) {
        MicroReport::Whole(n) => put_right_whole(out, at, n),
        MicroReport::Over => put_right_spelled(out, at, x),
        MicroReport::Nan => put_right(out, at, b"nan"),
    }
}
