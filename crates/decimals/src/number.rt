// A word that spells a number.
ghost use Rattle.std.specs.Prelude.{◌≡◌, false, cond, ◌+◌, ◌^◌, ◌<◌, ◌≤◌, length, drop};
ghost use Rattle.std.specs.Float.Ieee.{neg};
ghost use Rattle.decimals.specs.Rounding.{decimal_of};
ghost use Rattle.decimals.specs.Words.{decimal_read, exponent_digits, exponent_sign, exponent_part, point_digits, no_point, decimal_word, hex_value, bits_after, bits_word, is_hex, is_inf, unsigned, reading_of};

use crate::digits::digits_at;
use crate::rounding::{scaled_down, scaled_up};
use floats::bits::from_bits;

// Why a word spells no number.
#[derive(Clone, Copy, PartialEq, Eq)]
pub enum NumberFault {
    // a decimal of more than 19 digits, leading zeros aside
    TooManyDigits,
    NotANumber,
}

pub type Reading = Result<f32, NumberFault>;

// ---- decimals

// w·10^-n
fn downward(w: u64, n: u64) -> f32
    requires { w < 10 ^ 19 }
    ensures { result ≡ decimal_of false w 0 n }
{
    if 64 < n {
        return 0.0;
    }
    from_bits(scaled_down(w, n as u32))
}

// w·10^n
fn upward(w: u64, n: u64) -> f32
    ensures { result ≡ decimal_of false w n 0 }
{
    if w == 0 {
        return 0.0;
    }
    if 38 < n {
        return f32::INFINITY;
    }
    from_bits(scaled_up(w, n as u32))
}

// w·10^e, f digits of w after the point
fn with_exponent(w: u64, f: u64, e: u64) -> f32
    requires { w < 10 ^ 19 }
    ensures { result ≡ decimal_of false w e f }
{
    if f <= e {
        return upward(w, e - f);
    }
    downward(w, f - e)
}

// w·10^-e, f digits of w after the point
fn with_negative_exponent(w: u64, f: u64, e: u64) -> f32
    requires { (w < 10 ^ 19) × (f < 2 ^ 63) }
    ensures { result ≡ decimal_of false w 0 (f + e) }
{
    if 64 < e {
        return 0.0;
    }
    downward(w, f + e)
}

fn signed(negative: bool, x: f32) -> f32
    ensures { result ≡ cond negative (neg x) x }
{
    if negative { -x } else { x }
}

fn decimal(negative: bool, w: u64, f: usize, down: bool, e: u64) -> Reading
    requires { f < 2 ^ 63 }
    ensures { result ≡ decimal_read negative w f down e }
{
    if 10000000000000000000 <= w {
        return Err(NumberFault::TooManyDigits);
    }
    if down {
        return Ok(signed(negative, with_negative_exponent(w, f as u64, e)));
    }
    Ok(signed(negative, with_exponent(w, f as u64, e)))
}

// The exponent's digits, from a position to the end of the word.
fn exponent_digits(word: &[u8], at: usize, negative: bool, w: u64, f: usize, down: bool) -> Reading
    requires { (at ≤ length word.now) × (f < 2 ^ 63) }
    ensures { result ≡ exponent_digits negative w f down (drop at word.now) }
{
    let digits = digits_at(word, at, 0);
    let end = digits.end;
    if end == at {
        return Err(NumberFault::NotANumber);
    }
    if end < word.len() {
        return Err(NumberFault::NotANumber);
    }
    decimal(negative, w, f, down, digits.value)
}

fn exponent_sign(word: &[u8], at: usize, negative: bool, w: u64, f: usize) -> Reading
    requires { (at ≤ length word.now) × (f < 2 ^ 63) }
    ensures { result ≡ exponent_sign negative w f (drop at word.now) }
{
    if at < word.len() {
        let b = word[at];
        if b == b'+' {
            return exponent_digits(word, at + 1, negative, w, f, false);
        }
        if b == b'-' {
            return exponent_digits(word, at + 1, negative, w, f, true);
        }
        return exponent_digits(word, at, negative, w, f, false);
    }
    Err(NumberFault::NotANumber)
}

fn exponent_part(word: &[u8], at: usize, negative: bool, w: u64, f: usize) -> Reading
    requires { (at ≤ length word.now) × (f < 2 ^ 63) }
    ensures { result ≡ exponent_part negative w f (drop at word.now) }
{
    if at < word.len() {
        let b = word[at];
        if b == b'e' || b == b'E' {
            return exponent_sign(word, at + 1, negative, w, f);
        }
        return Err(NumberFault::NotANumber);
    }
    decimal(negative, w, f, false, 0)
}

// After a point, with n digits of the value w before it.
fn point_digits(word: &[u8], at: usize, negative: bool, n: usize, w: u64) -> Reading
    requires { (at ≤ length word.now) × (n ≤ at) × (w ≤ 10 ^ 19) }
    ensures { result ≡ point_digits negative n w (drop at word.now) }
{
    let digits = digits_at(word, at, w);
    let end = digits.end;
    let f = end - at;
    if n + f == 0 {
        return Err(NumberFault::NotANumber);
    }
    exponent_part(word, end, negative, digits.value, f)
}

// Without a point, after n digits of the value w.
fn no_point(word: &[u8], at: usize, negative: bool, n: usize, w: u64) -> Reading
    requires { at ≤ length word.now }
    ensures { result ≡ no_point negative n w (drop at word.now) }
{
    if n == 0 {
        return Err(NumberFault::NotANumber);
    }
    exponent_part(word, at, negative, w, 0)
}

fn decimal_word(word: &[u8], at: usize, negative: bool) -> Reading
    requires { at ≤ length word.now }
    ensures { result ≡ decimal_word negative (drop at word.now) }
{
    let digits = digits_at(word, at, 0);
    let end = digits.end;
    let n = end - at;
    if end < word.len() {
        if word[end] == b'.' {
            return point_digits(word, end + 1, negative, n, digits.value);
        }
        return no_point(word, end, negative, n, digits.value);
    }
    no_point(word, end, negative, n, digits.value)
}

// ---- f32 bits in hexadecimal digits

// 16 for a byte that is no digit
fn hex_value(b: u8) -> u32
    ensures { result ≡ hex_value b }
{
    if b < 0x30 {
        return 16;
    }
    if b <= 0x39 {
        return b as u32 - 0x30;
    }
    if b < 0x41 {
        return 16;
    }
    if b <= 0x46 {
        return b as u32 - 0x37;
    }
    if b < 0x61 {
        return 16;
    }
    if b <= 0x66 {
        return b as u32 - 0x57;
    }
    16
}

// The eight digits after 0x.
fn hex_digits(word: &[u8]) -> Reading
    requires { length word.now ≡ 10 }
    ensures { result ≡ bits_after 0 (drop 2 word.now) }
{
    let mut v: u32 = 0;
    for i in 2..word.len() {
        let d = hex_value(word[i]);
        if 16 <= d {
            return Err(NumberFault::NotANumber);
        }
        v = v * 16 + d;
    }
    Ok(from_bits(v))
}

fn is_hex(word: &[u8]) -> bool
    ensures { result ≡ is_hex word.now }
{
    if word.len() < 2 {
        return false;
    }
    if word[0] != b'0' {
        return false;
    }
    word[1] == b'x'
}

fn bits_word(word: &[u8]) -> Reading
    ensures { result ≡ bits_word word.now }
{
    if word.len() == 10 {
        return hex_digits(word);
    }
    Err(NumberFault::NotANumber)
}

// ---- words

fn is_inf(word: &[u8], at: usize) -> bool
    requires { at ≤ length word.now }
    ensures { result ≡ is_inf (drop at word.now) }
{
    if word.len() - at != 3 {
        return false;
    }
    if word[at] != b'i' {
        return false;
    }
    if word[at + 1] != b'n' {
        return false;
    }
    word[at + 2] == b'f'
}

fn unsigned(word: &[u8], at: usize, negative: bool) -> Reading
    requires { at ≤ length word.now }
    ensures { result ≡ unsigned negative (drop at word.now) }
{
    if is_inf(word, at) {
        return Ok(signed(negative, f32::INFINITY));
    }
    decimal_word(word, at, negative)
}

// The number that a word spells.
pub fn read_number(word: &[u8]) -> Reading
    ensures { result ≡ reading_of word.now }
{
    if word.len() == 0 {
        return Err(NumberFault::NotANumber);
    }
    let b = word[0];
    if b == b'+' {
        return unsigned(word, 1, false);
    }
    if b == b'-' {
        return unsigned(word, 1, true);
    }
    if is_hex(word) {
        return bits_word(word);
    }
    unsigned(word, 0, false)
}
