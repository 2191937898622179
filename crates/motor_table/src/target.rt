// The target velocity of a record.
ghost use Rattle.std.specs.Prelude.{◌≡◌};
ghost use Rattle.motor_table.specs.Targets.{target_of};

use crate::whole_number::Number;

// The number of thousandths, divided once by 1000. Up to the largest size the number is an f32.
pub fn target_velocity(n: Number) -> f32
    ensures { result ≡ target_of n }
{
    let size = std::num::nearest_u32_to_f32(n.size);
    if n.negative {
        return -size / 1000.0;
    }
    size / 1000.0
}
