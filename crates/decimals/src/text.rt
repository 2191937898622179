// A number written as its bits: 0x and eight hexadecimal digits.
ghost use Rattle.std.specs.Prelude.{◌≡◌};
ghost use Rattle.std.specs.Float.{binary32};
ghost use Rattle.std.specs.Float.Ieee.{to_bits};
ghost use Rattle.decimals.specs.Text.{bits_text};

use floats::bits::to_bits;
use texts::hex::hex_word;

pub fn bits_text(b: u32) -> [u8; 10]
    ensures { result ≡ bits_text b }
{
    hex_word(true, b)
}

// The word that reads as the number again.
pub fn number_text(x: f32) -> [u8; 10]
    ensures { result ≡ bits_text (to_bits binary32 x) }
{
    bits_text(to_bits(x))
}
