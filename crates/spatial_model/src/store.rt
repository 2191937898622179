// Bodies, joints and rows in flat lent storage: a record is read into its struct by value, and stored from it.
ghost use Rattle.std.specs.Prelude.{◌≡◌, [], ◌∷◌, ◌+◌, ◌*◌, ◌≤◌, ◌<◌, length};
ghost use Rattle.multibody.specs.Records.{num_from, num, word, puts};
ghost use Rattle.multibody.specs.JointRecords.{limits_of, motor_model_of, motor_of, enabled_of, axis_of};
ghost use Rattle.multibody.specs.Counts.{Present};
ghost use Rattle.spatial_model.specs.Layout.{row_width, body_width, words_width, numbers_width};
ghost use Rattle.spatial_model.specs.Store.{row_at, put_row, pose_of, inertia_of, solver_pose_at, vel_at, put_vel, put_pose, body1_at, body2_at, masks_at, all_limits_of, all_motors_of, data_of, dofs_of, joint_at, seed_axes, seed_index, put_seed, enabled_at};
ghost use Rattle.spatial_model.specs.Spatial.{space};

use crate::layout::{
    BODY_WIDTH, BODY1, BODY2, COUPLED_AXES, DAMPING_RATIO, DOFS, ENABLED, FRAME1, FRAME2, INERTIA,
    LIMIT_AXES, LIMIT_SEED, LIMITS_WIDTH, LIMITS_X, LIMITS_Y, LIMITS_Z, LOCKED_AXES, MASS_X,
    MASS_Y, MASS_Z, MODEL_X, MODEL_Y, MODEL_Z, MOTOR_AXES, MOTOR_SEED, MOTOR_WIDTH, MOTOR_X,
    MOTOR_Y, MOTOR_Z, NATURAL_FREQUENCY, NUMBERS_WIDTH, POSE, ROW_WIDTH, VELOCITY, WORDS_WIDTH,
    WORLD,
};
use crate::space::Space;
use multibody::kind::Kind;
use multibody::records::{axis, limits_at, motor_at, put6, six_at};
use rows::generic_joint::{JointEnabled, JointLimits, JointMotor, Masks};
use rows::integration_parameters::SpringCoefficients;
use rows::joint_velocity_constraint::WritebackId;
use spatial_floats::angular_inertia_ops::SdpMatrix3;
use spatial_floats::pose::Pose;
use spatial_floats::rotation_ops::Rotation;
use spatial_floats::vector::Vector;
use spatial_rows::generic_joint::{GenericJoint, spatial_masks};
use spatial_rows::joint_constraint_builder::{ImpulseJoint, SolverPose};
use spatial_rows::joint_velocity_constraint::{JointConstraint, SolverVel};

// ---- rows

// Row k of the storage. (Number 23 is read twice.)
pub fn row_at(s: &[f32], k: usize) -> JointConstraint
    requires { k * row_width + row_width ≤ length s.now }
    ensures { result ≡ row_at s.now k }
{
    let o = k * ROW_WIDTH;
    let a = six_at(s, o, 0);
    let b = six_at(s, o, 6);
    let c = six_at(s, o, 12);
    let d = six_at(s, o, 18);
    let e = six_at(s, o, 23);
    JointConstraint {
        impulse: a.n0,
        impulse_min: a.n1,
        impulse_max: a.n2,
        lin_jac: Vector {
            x: a.n3,
            y: a.n4,
            z: a.n5,
        },
        ang_jac1: Vector {
            x: b.n0,
            y: b.n1,
            z: b.n2,
        },
        ang_jac2: Vector {
            x: b.n3,
            y: b.n4,
            z: b.n5,
        },
        ii_ang_jac1: Vector {
            x: c.n0,
            y: c.n1,
            z: c.n2,
        },
        ii_ang_jac2: Vector {
            x: c.n3,
            y: c.n4,
            z: c.n5,
        },
        inv_lhs: d.n0,
        rhs: d.n1,
        rhs_wo_bias: d.n2,
        cfm_gain: d.n3,
        cfm_coeff: d.n4,
        im1: Vector {
            x: e.n0,
            y: e.n1,
            z: e.n2,
        },
        im2: Vector {
            x: e.n3,
            y: e.n4,
            z: e.n5,
        },
    }
}

// Five numbers from place o on.
fn put5(s: &mut [f32], o: usize, a: f32, b: f32, c: f32, d: f32, e: f32)
    requires { o + 5 ≤ length s.old }
    ensures { s.new ≡ puts s.old o 0 (a ∷ b ∷ c ∷ d ∷ e ∷ []) }
{
    s[o] = a;
    s[o + 1] = b;
    s[o + 2] = c;
    s[o + 3] = d;
    s[o + 4] = e;
}

// Row k replaced.
pub fn put_row(s: &mut [f32], k: usize, r: JointConstraint)
    requires { k * row_width + row_width ≤ length s.old }
    ensures { s.new ≡ put_row s.old k r }
{
    let o = k * ROW_WIDTH;
    put6(
        s,
        o,
        r.impulse,
        r.impulse_min,
        r.impulse_max,
        r.lin_jac.x,
        r.lin_jac.y,
        r.lin_jac.z,
    );
    put6(
        s,
        o + 6,
        r.ang_jac1.x,
        r.ang_jac1.y,
        r.ang_jac1.z,
        r.ang_jac2.x,
        r.ang_jac2.y,
        r.ang_jac2.z,
    );
    put6(
        s,
        o + 12,
        r.ii_ang_jac1.x,
        r.ii_ang_jac1.y,
        r.ii_ang_jac1.z,
        r.ii_ang_jac2.x,
        r.ii_ang_jac2.y,
        r.ii_ang_jac2.z,
    );
    put5(
        s,
        o + 18,
        r.inv_lhs,
        r.rhs,
        r.rhs_wo_bias,
        r.cfm_gain,
        r.cfm_coeff,
    );
    put6(
        s,
        o + 23,
        r.im1.x,
        r.im1.y,
        r.im1.z,
        r.im2.x,
        r.im2.y,
        r.im2.z,
    );
}

// ---- bodies

// The pose in seven numbers from number c on of the record that starts at place o.
fn pose_at(s: &[f32], o: usize, c: usize) -> Pose
    requires { o + c + 7 ≤ length s.now }
    ensures { result ≡ pose_of (num_from s.now o) c }
{
    let a = o + c;
    Pose {
        rotation: Rotation {
            x: s[a],
            y: s[a + 1],
            z: s[a + 2],
            w: s[a + 3],
        },
        translation: Vector {
            x: s[a + 4],
            y: s[a + 5],
            z: s[a + 6],
        },
    }
}

// The inertia in six numbers likewise.
fn inertia_at(s: &[f32], o: usize, c: usize) -> SdpMatrix3
    requires { o + c + 6 ≤ length s.now }
    ensures { result ≡ inertia_of (num_from s.now o) c }
{
    let a = six_at(s, o, c);
    SdpMatrix3 {
        m11: a.n0,
        m12: a.n1,
        m13: a.n2,
        m22: a.n3,
        m23: a.n4,
        m33: a.n5,
    }
}

// What the rows read of body i; the world has the identity pose, and no inverse mass or inertia.
pub fn solver_pose_at(b: &[f32], i: u32) -> SolverPose
    requires { Present space b.now i }
    ensures { result ≡ solver_pose_at b.now i }
{
    if i == WORLD {
        let zeros = Vector {
            x: 0.0,
            y: 0.0,
            z: 0.0,
        };
        return SolverPose {
            pose: Pose {
                rotation: Rotation {
                    x: 0.0,
                    y: 0.0,
                    z: 0.0,
                    w: 1.0,
                },
                translation: zeros,
            },
            ii: SdpMatrix3 {
                m11: 0.0,
                m12: 0.0,
                m13: 0.0,
                m22: 0.0,
                m23: 0.0,
                m33: 0.0,
            },
            im: zeros,
        };
    }
    let o = (i as usize) * BODY_WIDTH;
    SolverPose {
        pose: pose_at(b, o, POSE),
        ii: inertia_at(b, o, INERTIA),
        im: Vector {
            x: b[o + MASS_X],
            y: b[o + MASS_Y],
            z: b[o + MASS_Z],
        },
    }
}

// The velocity of body i; the world's is zero.
pub fn vel_at(b: &[f32], i: u32) -> SolverVel
    requires { Present space b.now i }
    ensures { result ≡ vel_at b.now i }
{
    if i == WORLD {
        let zeros = Vector {
            x: 0.0,
            y: 0.0,
            z: 0.0,
        };
        return SolverVel {
            linear: zeros,
            angular: zeros,
        };
    }
    let a = six_at(b, (i as usize) * BODY_WIDTH, VELOCITY);
    SolverVel {
        linear: Vector {
            x: a.n0,
            y: a.n1,
            z: a.n2,
        },
        angular: Vector {
            x: a.n3,
            y: a.n4,
            z: a.n5,
        },
    }
}

// Body i's velocity replaced; what is written to the world's is dropped.
pub fn put_vel(b: &mut [f32], i: u32, v: SolverVel)
    requires { Present space b.old i }
    ensures { b.new ≡ put_vel b.old i v }
{
    if i == WORLD {
        return;
    }
    put6(
        b,
        (i as usize) * BODY_WIDTH + VELOCITY,
        v.linear.x,
        v.linear.y,
        v.linear.z,
        v.angular.x,
        v.angular.y,
        v.angular.z,
    );
}

// Body i's pose replaced.
pub fn put_pose(b: &mut [f32], i: u32, p: Pose)
    requires { i * body_width + body_width ≤ length b.old }
    ensures { b.new ≡ put_pose b.old i p }
{
    let o = (i as usize) * BODY_WIDTH;
    put6(
        b,
        o,
        p.rotation.x,
        p.rotation.y,
        p.rotation.z,
        p.rotation.w,
        p.translation.x,
        p.translation.y,
    );
    b[o + 6] = p.translation.z;
}

// ---- joints

// The limits of the three linear axes of joint j, and their motors.
fn all_limits_at(numbers: &[f32], j: usize) -> [JointLimits; 3]
    requires { j * numbers_width + numbers_width ≤ length numbers.now }
    ensures { result ≡ all_limits_of (num numbers_width numbers.now j) }
{
    let o = j * NUMBERS_WIDTH;
    let x = limits_at(numbers, o, LIMITS_X);
    let y = limits_at(numbers, o, LIMITS_Y);
    let z = limits_at(numbers, o, LIMITS_Z);
    [x, y, z]
}

fn all_motors_at(words: &[u32], numbers: &[f32], j: usize) -> [JointMotor; 3]
    requires words_width_in_bounds { j * words_width + words_width ≤ length words.now }
    requires numbers_width_in_bounds { j * numbers_width + numbers_width ≤ length numbers.now }
    ensures { result ≡ all_motors_of (num numbers_width numbers.now j) (word words_width words.now j) }
{
    let w = j * WORDS_WIDTH;
    let o = j * NUMBERS_WIDTH;
    let x = motor_at(numbers, o, MOTOR_X, words[w + MODEL_X]);
    let y = motor_at(numbers, o, MOTOR_Y, words[w + MODEL_Y]);
    let z = motor_at(numbers, o, MOTOR_Z, words[w + MODEL_Z]);
    [x, y, z]
}

// Joint j without its stored Dof impulses.
fn data_at(words: &[u32], numbers: &[f32], j: usize) -> GenericJoint
    requires words_width_in_bounds { j * words_width + words_width ≤ length words.now }
    requires numbers_width_in_bounds { j * numbers_width + numbers_width ≤ length numbers.now }
    ensures { result ≡ data_of (num numbers_width numbers.now j) (word words_width words.now j) }
{
    let o = j * NUMBERS_WIDTH;
    GenericJoint {
        local_frame1: pose_at(numbers, o, FRAME1),
        local_frame2: pose_at(numbers, o, FRAME2),
        masks: Space::masks_at(words, j),
        limits: all_limits_at(numbers, j),
        motors: all_motors_at(words, numbers, j),
        softness: SpringCoefficients {
            natural_frequency: numbers[o + NATURAL_FREQUENCY],
            damping_ratio: numbers[o + DAMPING_RATIO],
        },
        enabled: Space::enabled_at(words, j),
    }
}

// Its six Dof impulses.
fn dofs_at(numbers: &[f32], j: usize) -> [f32; 6]
    requires { j * numbers_width + numbers_width ≤ length numbers.now }
    ensures { result ≡ dofs_of (num numbers_width numbers.now j) }
{
    let a = six_at(numbers, j * NUMBERS_WIDTH, DOFS);
    [a.n0, a.n1, a.n2, a.n3, a.n4, a.n5]
}

// Joint j of the storage.
pub fn joint_at(words: &[u32], numbers: &[f32], j: usize) -> ImpulseJoint
    requires words_width_in_bounds { j * words_width + words_width ≤ length words.now }
    requires numbers_width_in_bounds { j * numbers_width + numbers_width ≤ length numbers.now }
    ensures { result ≡ joint_at words.now numbers.now j }
{
    let data = data_at(words, numbers, j);
    let impulses = dofs_at(numbers, j);
    ImpulseJoint { data, impulses }
}

// How many axes have a stored impulse of its kind.
fn seed_axes(id: WritebackId) -> usize
    ensures { result ≡ seed_axes id }
{
    match id {
        WritebackId::Dof(_) => 6,
        WritebackId::Limit(_) => 3,
        WritebackId::Motor(_) => 3,
    }
}

// Which of a joint's numbers is an id's stored impulse.
fn seed_index(id: WritebackId) -> usize
    requires { axis_of id < seed_axes id }
    ensures { result ≡ seed_index id }
{
    match id {
        WritebackId::Dof(i) => DOFS + i,
        WritebackId::Limit(i) => LIMIT_SEED + i * LIMITS_WIDTH,
        WritebackId::Motor(i) => MOTOR_SEED + i * MOTOR_WIDTH,
    }
}

// Joint j's stored impulse of an id replaced; an id past the last axis of its kind has none, and changes nothing.
pub fn put_seed(numbers: &mut [f32], j: usize, id: WritebackId, p: f32)
    requires { j * numbers_width + numbers_width ≤ length numbers.old }
    ensures { numbers.new ≡ put_seed numbers.old j id p }
{
    if axis(id) < seed_axes(id) {
        let a = j * NUMBERS_WIDTH + seed_index(id);
        numbers[a] = p;
    }
}
