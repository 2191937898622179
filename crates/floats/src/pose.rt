// Planar poses: a rotation, then a translation.
ghost use Rattle.std.specs.Prelude.{◌≡◌};
ghost use Rattle.floats.specs.Pose.{pose_product_of};

use crate::rotation_ops::Rotation;
use crate::vector::Vector;

#[repr(C)]
#[derive(Clone, Copy)]
pub struct Pose {
    pub rotation: Rotation,
    pub translation: Vector,
}

impl Pose {
    pub fn mul(self, rhs: Pose) -> Pose
        ensures { result ≡ pose_product_of self rhs }
    {
        Pose {
            rotation: self.rotation.mul(rhs.rotation),
            translation: self.rotation.rotate(rhs.translation).add(self.translation),
        }
    }
}
