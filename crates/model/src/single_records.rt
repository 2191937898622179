// One row, one body's pose or velocity, one joint, one stored impulse, for callers who hold a storage of their own: read and stored where the record is there whole. Elsewhere zeros are
// read, of a body the world, and nothing is stored.
ghost use Rattle.std.specs.Prelude.{◌≡◌};
ghost use Rattle.model.specs.SingleRecords.{row_if_there, put_row_if_there, pose_if_there, vel_if_there, put_pose_if_there, blank_joint, joint_if_there, put_seed_if_there};

use crate::layout::NUMBERS_WIDTH;
use crate::plane::Plane;
use crate::store::{joint_at, put_pose, put_row, put_seed, row_at, solver_pose_at, vel_at};
use floats::pose::Pose;
use floats::rotation_ops::Rotation;
use floats::vector::Vector;
use multibody::counts::{body_count, joint_count, row_capacity};
use rows::generic_joint::{GenericJoint, JointEnabled, JointLimits, JointMotor, Masks};
use rows::integration_parameters::SpringCoefficients;
use rows::joint_constraint_builder::ImpulseJoint;
use rows::joint_velocity_constraint::{JointConstraint, SolverVel, WritebackId, blank_row};
use rows::motor_model::MotorModel;

pub fn read_row(rows: &[f32], k: usize) -> JointConstraint
    ensures { result ≡ row_if_there rows.now k }
{
    if k < row_capacity::<Plane>(rows) {
        return row_at(rows, k);
    }
    blank_row()
}

pub fn write_row(rows: &mut [f32], k: usize, row: JointConstraint)
    ensures { rows.new ≡ put_row_if_there rows.old k row }
{
    if k < row_capacity::<Plane>(rows) {
        put_row(rows, k, row);
    }
}

pub fn read_pose(bodies: &[f32], i: u32) -> Pose
    ensures { result ≡ pose_if_there bodies.now i }
{
    if (i as usize) < body_count::<Plane>(bodies) {
        return solver_pose_at(bodies, i).pose;
    }
    Pose {
        rotation: Rotation { re: 1.0, im: 0.0 },
        translation: Vector { x: 0.0, y: 0.0 },
    }
}

pub fn read_vel(bodies: &[f32], i: u32) -> SolverVel
    ensures { result ≡ vel_if_there bodies.now i }
{
    if (i as usize) < body_count::<Plane>(bodies) {
        return vel_at(bodies, i);
    }
    SolverVel {
        linear: Vector { x: 0.0, y: 0.0 },
        angular: 0.0,
    }
}

pub fn write_pose(bodies: &mut [f32], i: u32, pose: Pose)
    ensures { bodies.new ≡ put_pose_if_there bodies.old i pose }
{
    if (i as usize) < body_count::<Plane>(bodies) {
        put_pose(bodies, i, pose);
    }
}

// A joint of zeros, enabled, its motors acceleration based.
fn blank_joint() -> ImpulseJoint
    ensures { result ≡ blank_joint }
{
    let zero = Rotation { re: 0.0, im: 0.0 };
    let pose = Pose {
        rotation: zero,
        translation: Vector { x: 0.0, y: 0.0 },
    };
    let limits = JointLimits {
        min: 0.0,
        max: 0.0,
        impulse: 0.0,
    };
    let motor = JointMotor {
        target_vel: 0.0,
        target_pos: 0.0,
        stiffness: 0.0,
        damping: 0.0,
        max_force: 0.0,
        impulse: 0.0,
        model: MotorModel::AccelerationBased,
    };
    let data = GenericJoint {
        local_frame1: pose,
        local_frame2: pose,
        masks: Masks {
            locked_axes: 0,
            limit_axes: 0,
            motor_axes: 0,
            coupled_axes: 0,
        },
        limits: [limits, limits, limits],
        motors: [motor, motor, motor],
        softness: SpringCoefficients {
            natural_frequency: 0.0,
            damping_ratio: 0.0,
        },
        enabled: JointEnabled::Enabled,
    };
    ImpulseJoint {
        data: data,
        impulses: [0.0, 0.0, 0.0],
        center: zero,
    }
}

pub fn read_joint(words: &[u32], numbers: &[f32], j: usize) -> ImpulseJoint
    ensures { result ≡ joint_if_there words.now numbers.now j }
{
    if j < joint_count::<Plane>(words, numbers) {
        return joint_at(words, numbers, j);
    }
    blank_joint()
}

pub fn write_impulse(numbers: &mut [f32], j: usize, id: WritebackId, impulse: f32)
    ensures { numbers.new ≡ put_seed_if_there numbers.old j id impulse }
{
    if j < numbers.len() / NUMBERS_WIDTH {
        put_seed(numbers, j, id, impulse);
    }
}
