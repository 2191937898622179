// Document 01's micro report: an impulse in millionths, half to even (request R-3).
ghost use Rattle.std.specs.Prelude.{◌≡◌, ◌*◌, ◌^◌, ◌<◌};
ghost use Rattle.floats.specs.MicroReport.{half_even, whole_or_over, micro_report_of};

use crate::bits::{Parts, parts_of};

// No Result: Over and Nan are reports, not failures.
#[derive(Clone, Copy)]
pub enum MicroReport {
    Whole(i32),
    Over,
    Nan,
}

// The whole number nearest to num / den, and half way between two the even one.
fn half_even(num: u64, den: u64) -> u64
    requires { (num < 2 ^ 62) × (den < 2 ^ 62) × (0 < den) }
    ensures { result ≡ half_even num den }
{
    let whole = num / den;
    let twice = num % den * 2;
    if twice < den {
        return whole;
    }
    if twice > den {
        return whole + 1;
    }
    whole + whole % 2
}

// The rounded millionths of d · 2^k units of 2^-149, for a number below 4096. Below 2^-24 there are
// none.
fn millionths(d: u32, k: u32) -> u64
    requires { (d < 2 ^ 24) × (k < 138) }
    ensures { result ≡ half_even (d * 2 ^ k * 10 ^ 6) (2 ^ 149) }
{
    let s = 149 - k;
    if s >= 48 {
        return 0;
    }
    half_even(d as u64 * 1000000, 1u64 << s)
}

fn whole_or_over(negative: bool, size: u64) -> MicroReport
    ensures { result ≡ whole_or_over negative size }
{
    if size >= 0x8000_0000 {
        return MicroReport::Over;
    }
    let whole = size as i32;
    if negative {
        return MicroReport::Whole(-whole);
    }
    MicroReport::Whole(whole)
}

pub fn micro_report(impulse: f32) -> MicroReport
    ensures { result ≡ micro_report_of impulse }
{
    match parts_of(impulse) {
        Parts::Nan => MicroReport::Nan,
        Parts::Infinite(_) => MicroReport::Over,
        Parts::Finite(negative, d, k) => {
            // 4096 or more
            if k >= 138 {
                return MicroReport::Over;
            }
            whole_or_over(negative, millionths(d, k))
        }
    }
}
