// The Rust's dynamics/joint/generic_joint.rs in space: a joint's contents, as far as its rows read them.
ghost use Rattle.std.specs.Prelude.{◌≡◌};
ghost use Rattle.spatial_rows.specs.GenericJoint.{limits_at, motor_at};
ghost use Rattle.spatial_rows.specs.SpatialMasks.{spatial_masks};

use rows::generic_joint::{JointEnabled, JointLimits, JointMotor, Masks};
use rows::integration_parameters::SpringCoefficients;
use rows::motor_model::MotorModel;
use spatial_floats::pose::Pose;

// In each mask bits 0 to 2 are the linear axes and bits 3 to 5 the angular ones. Limits and motors are by linear axis. The frames
// are relative to each body's centre of mass.
#[derive(Clone, Copy)]
pub struct GenericJoint {
    pub local_frame1: Pose,
    pub local_frame2: Pose,
    pub masks: Masks,
    pub limits: [JointLimits; 3],
    pub motors: [JointMotor; 3],
    pub softness: SpringCoefficients,
    pub enabled: JointEnabled,
}

// The masks that give a joint in space its rows.
pub fn spatial_masks(masks: Masks) -> Masks
    ensures { result ≡ spatial_masks masks }
{
    Masks {
        locked_axes: masks.locked_axes % 64,
        limit_axes: masks.limit_axes % 8,
        motor_axes: masks.motor_axes % 8,
        coupled_axes: 0,
    }
}

impl GenericJoint {
    // An axis's limits; past the last linear axis, where no row reads, NaNs.
    pub fn limits_at(self, axis: usize) -> JointLimits
        ensures { result ≡ limits_at self axis }
    {
        // copied first: an index into the joint itself would keep all of it in memory
        let limits = self.limits;
        if axis < 3 {
            return limits[axis];
        }
        let nan = 0.0 / 0.0;
        JointLimits {
            min: nan,
            max: nan,
            impulse: nan,
        }
    }

    // An axis's motor, likewise.
    pub fn motor_at(self, axis: usize) -> JointMotor
        ensures { result ≡ motor_at self axis }
    {
        let motors = self.motors;
        if axis < 3 {
            return motors[axis];
        }
        let nan = 0.0 / 0.0;
        JointMotor {
            target_vel: nan,
            target_pos: nan,
            stiffness: nan,
            damping: nan,
            max_force: nan,
            impulse: nan,
            model: MotorModel::AccelerationBased,
        }
    }
}
