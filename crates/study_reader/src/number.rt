// A number of the text.
ghost use Rattle.std.specs.Prelude.{◌≡◌};
ghost use Rattle.study_reader.specs.Numbers.{number_in, number_fault, value_of};

use crate::faults::Fault;
use crate::words::{Word, bytes_of};
use decimals::number::{NumberFault, Reading, read_number};

// The number that a word spells.
pub fn number_in(text: &[u8], w: Word) -> Reading
    ensures { result ≡ number_in text.now w }
{
    read_number(bytes_of(text, w))
}

// Why a word is no number.
#[tactic(auto, unfolding(crate::specs::Numbers::number_fault))]
pub fn number_fault(r: Reading) -> Option<Fault>
    ensures { result ≡ number_fault r }
{
    match r {
        Ok(_) => None,
        Err(NumberFault::TooManyDigits) => Some(Fault::Digits),
        Err(NumberFault::NotANumber) => Some(Fault::Number),
    }
}

#[tactic(auto, unfolding(crate::specs::Numbers::value_of))]
pub fn value_of(r: Reading) -> f32
    ensures { result ≡ value_of r }
{
    r.unwrap_or(0.0)
}
