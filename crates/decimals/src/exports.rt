// Numbers for C and Rust callers; a slice is passed as its pointer, then its length.
ghost use Rattle.std.specs.Prelude.{◌≡◌, get_or};
ghost use Rattle.decimals.specs.Words.{reading_of};
ghost use Rattle.decimals.specs.Text.{bits_text};
ghost use Rattle.std.specs.Float.{binary32};
ghost use Rattle.std.specs.Float.Ieee.{of_bits};
ghost use Rattle.decimals.specs.Spelled.{spelled_text};
ghost use Rattle.decimals.specs.Exports.{reading_number};

use crate::number::{NumberFault, read_number};
use crate::spelled::spelled;
use crate::text::bits_text;
use floats::bits::{from_bits, to_bits};

// The bits of the number that a word spells; 4294967296 for too many digits, 4294967297 for a word that is no number.
#[unsafe(no_mangle)]
pub extern "C" fn katydidzinc_decimals_read(word: &[u8]) -> u64
    ensures { result ≡ reading_number (reading_of word.now) }
{
    match read_number(word) {
        Ok(x) => to_bits(x) as u64,
        Err(NumberFault::TooManyDigits) => 4294967296,
        Err(NumberFault::NotANumber) => 4294967297,
    }
}

// Byte i of the word that spells bits; 0 past its end.
#[unsafe(no_mangle)]
pub extern "C" fn katydidzinc_decimals_text(bits: u32, i: usize) -> u8
    ensures { result ≡ get_or (bits_text bits) i 0 }
{
    let text = bits_text(bits);
    if i < 10 {
        return text[i];
    }
    0
}

// Byte i of the decimal that reads as the number of these bits; 0 past its end.
#[unsafe(no_mangle)]
pub extern "C" fn katydidzinc_decimals_spelled(bits: u32, i: usize) -> u8
    ensures { result ≡ get_or (spelled_text (of_bits binary32 bits)) i 0 }
{
    let text = spelled(from_bits(bits));
    let bytes = text.bytes;
    if i < text.len {
        return bytes[i];
    }
    0
}
