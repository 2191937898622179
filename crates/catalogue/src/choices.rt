// All choices of the four masks, counted from 0.
ghost use Rattle.std.specs.Prelude.{◌≡◌};
ghost use Rattle.catalogue.specs.Choices.{choice_of};

use rows::generic_joint::Masks;

pub const CHOICES: u32 = 4096;

// The choice that n's digits to the base 8 give; where n is below 4096 it is entry n.
pub fn choice(n: u32) -> Masks
    ensures { result ≡ choice_of n }
{
    Masks {
        locked_axes: n / 512,
        limit_axes: n / 64 % 8,
        motor_axes: n / 8 % 8,
        coupled_axes: n % 8,
    }
}
