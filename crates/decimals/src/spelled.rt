// A number written as a decimal of nine digits that reads as the same number.
ghost use Rattle.std.specs.Prelude.{◌≡◌, ◌*◌, ◌^◌, ◌<◌, ◌≤◌, length, take};
ghost use Rattle.std.specs.Float.{inf, binary32};
ghost use Rattle.std.specs.Float.Ieee.{to_bits};
ghost use Rattle.decimals.specs.Limbs.{value};
ghost use Rattle.decimals.specs.Text.{bits_text};
ghost use Rattle.decimals.specs.Words.{reading_of};
ghost use Rattle.decimals.specs.Spelled.{tenths, Leaves, nine_of, digit_at, exponent_sign, exponent_size, nine_text, signed_text, nine_digits, reads_as, spelled_text, spelled};

use crate::big::{at_most, natural, shifted, times, times_power};
use crate::number::read_number;
use crate::rounding::nearest;
use crate::text::number_text;
use floats::bits::{Parts, parts_of, to_bits};
use texts::sink::put_text;

// Nine digits, and how many places were dropped for them.
#[derive(Clone, Copy)]
pub struct Nine {
    pub digits: u32,
    pub places: u32,
}

// A text at the left of 15 bytes, since the library takes no heap for a String and a slice would need a caller's bytes.
#[derive(Clone, Copy)]
pub struct Spelling {
    pub bytes: [u8; 15],
    pub len: usize,
}

// ---- the digits

// d·2^k units of 2^-149, times 5^53
fn tenths(d: u32, k: u32) -> [u32; 14]
    requires { (d < 2 ^ 24) × (k ≤ 253) }
    ensures { value result ≡ tenths (d * 2 ^ k) }
{
    let units = shifted(natural(d as u64), k);
    times(times_power(units, 1220703125, 4), 5)
}

// The places that are dropped, and what they divide by.
#[derive(Clone, Copy)]
pub struct Divisor {
    pub den: [u32; 14],
    pub places: u32,
}

fn dropped(num: [u32; 14]) -> Divisor
    requires { value num < 2 ^ 277 * 5 ^ 53 }
    ensures { Leaves (value num) (value result.den) result.places }
{
    let twice = times(num, 2);
    let mut den = shifted(natural(1), 96);
    for places in 0..83 {
        if !at_most(times(den, 1999999999), twice) {
            return Divisor { den, places };
        }
        let next = times(den, 10);
        den = next;
    }
    Divisor { den, places: 83 }
}

// The nine digits of a number of d·2^k units of 2^-149.
fn nine_of(d: u32, k: u32) -> Nine
    requires { (d < 2 ^ 24) × (k ≤ 253) }
    ensures { result ≡ nine_of (d * 2 ^ k) }
{
    if d == 0 {
        return Nine {
            digits: 0,
            places: 45,
        };
    }
    let num = tenths(d, k);
    let by = dropped(num);
    Nine {
        digits: nearest(num, by.den, 1000000000),
        places: by.places,
    }
}

// ---- their text

// The digit of n where p, a power of ten, has its 1.
fn digit_at(n: u32, p: u32) -> u8
    requires { 0 < p }
    ensures { result ≡ digit_at n p }
{
    48 + (n / p % 10) as u8
}

fn exponent_sign(places: u32) -> u8
    ensures { result ≡ exponent_sign places }
{
    if places < 45 { b'-' } else { b'+' }
}

fn exponent_size(places: u32) -> u32
    ensures { result ≡ exponent_size places }
{
    if places < 45 {
        45 - places
    } else {
        places - 45
    }
}

fn nine_text(nine: Nine) -> [u8; 14]
    ensures { result ≡ nine_text nine }
{
    let n = nine.digits;
    let a8 = digit_at(n, 100000000);
    let a7 = digit_at(n, 10000000);
    let a6 = digit_at(n, 1000000);
    let a5 = digit_at(n, 100000);
    let a4 = digit_at(n, 10000);
    let a3 = digit_at(n, 1000);
    let a2 = digit_at(n, 100);
    let a1 = digit_at(n, 10);
    let a0 = digit_at(n, 1);
    let sign = exponent_sign(nine.places);
    let size = exponent_size(nine.places);
    let e1 = digit_at(size, 10);
    let e0 = digit_at(size, 1);
    [a8, b'.', a7, a6, a5, a4, a3, a2, a1, a0, b'e', sign, e1, e0]
}

// A minus before the text of a negative number.
fn signed_text(negative: bool, t: [u8; 14]) -> Spelling
    ensures { result ≡ spelled (signed_text negative t) }
{
    if negative {
        let mut bytes = *b"-              ";
        let len = put_text(&mut bytes, 1, &t);
        return Spelling { bytes, len };
    }
    let mut bytes = [b' '; 15];
    let len = put_text(&mut bytes, 0, &t);
    Spelling { bytes, len }
}

fn infinite_text(negative: bool) -> Spelling
    ensures { result ≡ spelled (nine_digits (inf negative)) }
{
    if negative {
        return Spelling {
            bytes: *b"-inf           ",
            len: 4,
        };
    }
    Spelling {
        bytes: *b"inf            ",
        len: 3,
    }
}

// The nine digits of a number; nothing of a NaN.
fn nine_digits(x: f32) -> Spelling
    ensures { result ≡ spelled (nine_digits x) }
{
    match parts_of(x) {
        Parts::Nan => Spelling {
            bytes: [b' '; 15],
            len: 0,
        },
        Parts::Infinite(negative) => infinite_text(negative),
        Parts::Finite(negative, d, k) => signed_text(negative, nine_text(nine_of(d, k))),
    }
}

// ---- the text that is written

fn reads_as(x: f32, text: Spelling) -> bool
    requires { text.len ≤ length text.bytes }
    ensures { result ≡ reads_as x (reading_of (take text.len text.bytes)) }
{
    match read_number(&text.bytes[..text.len]) {
        Ok(y) => to_bits(y) == to_bits(x),
        Err(_) => false,
    }
}

fn bits_spelled(x: f32) -> Spelling
    ensures { result ≡ spelled (bits_text (to_bits binary32 x)) }
{
    let t = number_text(x);
    let mut bytes = [b' '; 15];
    let len = put_text(&mut bytes, 0, &t);
    Spelling { bytes, len }
}

// A word that reads as the number.
pub fn spelled(x: f32) -> Spelling
    ensures { result ≡ spelled (spelled_text x) }
{
    let nine = nine_digits(x);
    if reads_as(x, nine) {
        return nine;
    }
    bits_spelled(x)
}
