// The Rust's dynamics/joint/generic_joint.rs: a joint's contents, as far as its rows read them.
ghost use Rattle.std.specs.Prelude.{◌≡◌};
ghost use Rattle.rows.specs.GenericJoint.{motor_params_of, max_impulse_of, limits_at, motor_at, is_enabled};
ghost use Rattle.rows.specs.RowIds.{has_axis};

use crate::integration_parameters::SpringCoefficients;
use crate::joint_velocity_constraint::MotorParameters;
use crate::motor_model::MotorModel;
use floats::pose::Pose;

#[derive(Clone, Copy)]
pub struct JointLimits {
    pub min: f32,
    pub max: f32,
    pub impulse: f32,
}

#[derive(Clone, Copy)]
pub struct JointMotor {
    pub target_vel: f32,
    pub target_pos: f32,
    pub stiffness: f32,
    pub damping: f32,
    pub max_force: f32,
    pub impulse: f32,
    pub model: MotorModel,
}

// In each mask bits 0 and 1 are the linear axes and bit 2 is the angular one.
#[derive(Clone, Copy)]
pub struct Masks {
    pub locked_axes: u32,
    pub limit_axes: u32,
    pub motor_axes: u32,
    pub coupled_axes: u32,
}

// Whether a joint is enabled.
#[derive(Clone, Copy, PartialEq, Eq)]
pub enum JointEnabled {
    Enabled,
    DisabledByAttachedBody,
    Disabled,
}

impl JointEnabled {
    // The Rust has it of a `GenericJoint`.
    pub fn is_enabled(self) -> bool
        ensures { result ≡ is_enabled self }
    {
        self == JointEnabled::Enabled
    }
}

// Limits and motors are by axis. The frames are relative to each body's centre of mass.
#[derive(Clone, Copy)]
pub struct GenericJoint {
    pub local_frame1: Pose,
    pub local_frame2: Pose,
    pub masks: Masks,
    pub limits: [JointLimits; 3],
    pub motors: [JointMotor; 3],
    pub softness: SpringCoefficients,
    pub enabled: JointEnabled,
}

impl JointMotor {
    pub fn motor_params(self, dt: f32) -> MotorParameters
        ensures { result ≡ motor_params_of self dt }
    {
        let c = self
            .model
            .combine_coefficients(dt, self.stiffness, self.damping);
        MotorParameters {
            erp_inv_dt: c.erp_inv_dt,
            cfm_coeff: c.cfm_coeff,
            cfm_gain: c.cfm_gain,
            target_pos: self.target_pos,
            target_vel: self.target_vel,
            max_impulse: JointMotor::max_impulse(self.max_force, dt),
        }
    }

    // The largest impulse of a motor during dt: zero if dt is zero, whatever the force.
    pub fn max_impulse(max_force: f32, dt: f32) -> f32
        ensures { result ≡ max_impulse_of max_force dt }
    {
        if dt == 0.0 { 0.0 } else { max_force * dt }
    }
}

// Whether a mask has an axis.
pub fn has_axis(mask: u32, axis: usize) -> bool
    ensures { result ≡ has_axis mask axis }
{
    axis < 32 && (mask >> axis) % 2 == 1
}

impl GenericJoint {
    // An axis's limits; past the last axis, where no row reads, NaNs.
    pub fn limits_at(self, axis: usize) -> JointLimits
        ensures { result ≡ limits_at self axis }
    {
        // copied first: an index into the joint itself would keep all of it in memory
        let limits = self.limits;
        if axis < 3 {
            return limits[axis];
        }
        let nan = 0.0 / 0.0;
        JointLimits {
            min: nan,
            max: nan,
            impulse: nan,
        }
    }

    // An axis's motor, likewise.
    pub fn motor_at(self, axis: usize) -> JointMotor
        ensures { result ≡ motor_at self axis }
    {
        let motors = self.motors;
        if axis < 3 {
            return motors[axis];
        }
        let nan = 0.0 / 0.0;
        JointMotor {
            target_vel: nan,
            target_pos: nan,
            stiffness: nan,
            damping: nan,
            max_force: nan,
            impulse: nan,
            model: MotorModel::AccelerationBased,
        }
    }
}
