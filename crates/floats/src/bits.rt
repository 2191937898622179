// What a binary32 number is made of, for the integer work on it, and its bit pattern.
ghost use Rattle.std.specs.Prelude.{◌≡◌, from_bits, to_bits};
ghost use Rattle.std.specs.Float.{binary32};
ghost use Rattle.floats.specs.Bits.{parts_of};

// A finite number is its sign, its leading digits (below 2^24) and a power of two, in units of
// 2^-149, the smallest value.
#[derive(Clone, Copy)]
pub enum Parts {
    Nan,
    Infinite(bool),
    Finite(bool, u32, u32),
}

pub fn parts_of(x: f32) -> Parts
    ensures { result ≡ parts_of x }
{
    if x != x {
        return Parts::Nan;
    }
    let b = f32::to_bits(x);
    let sign = b >= 0x8000_0000;
    let c = b % 0x8000_0000;
    let field = c / 0x80_0000;
    let t = c % 0x80_0000;
    if field == 255 {
        return Parts::Infinite(sign);
    }
    if field == 0 {
        return Parts::Finite(sign, t, 0);
    }
    Parts::Finite(sign, t + 0x80_0000, field - 1)
}

// The number that a bit pattern stands for; each NaN's pattern gives a NaN.
pub fn from_bits(b: u32) -> f32
    ensures { result ≡ from_bits binary32 b }
{
    if b % 0x8000_0000 > 0x7f80_0000 {
        return 0.0 / 0.0;
    }
    f32::from_bits(b)
}

// The bit pattern of a number; a NaN's is 7FC00000.
pub fn to_bits(x: f32) -> u32
    ensures { result ≡ to_bits binary32 x }
{
    if x != x {
        return 0x7fc0_0000;
    }
    f32::to_bits(x)
}
