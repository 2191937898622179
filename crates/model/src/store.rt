// Bodies, joints and rows in flat lent storage: a record is read into its struct by value, and stored from it.
ghost use Rattle.std.specs.Prelude.{◌≡◌, [], ◌∷◌, ◌+◌, ◌*◌, ◌≤◌, ◌<◌, length};
ghost use Rattle.model.specs.Layout.{row_width, body_width, words_width, numbers_width};
ghost use Rattle.model.specs.Records.{num_from, num, six_of, word, puts};
ghost use Rattle.model.specs.Store.{row_at, put_row, Present, pose_of, solver_pose_at, vel_at, put_vel, put_pose, body1_at, body2_at, masks_at, put_masks, limits_of, all_limits_of, motor_model_of, motor_of, all_motors_of, data_of, joint_at, axis_of, seed_index, put_seed, put_target, enabled_of, enabled_at, center_at, rotation_of};

use crate::layout::{
    BODY_WIDTH, BODY1, BODY2, CENTER_CHOICE, CENTER_IM, CENTER_RE, COUPLED_AXES, DAMPING_RATIO,
    DOF_ANGULAR, DOF_X, DOF_Y, ENABLED, FRAME1, FRAME2, INERTIA, LIMIT_AXES, LIMIT_SEED,
    LIMITS_ANGULAR, LIMITS_WIDTH, LIMITS_X, LIMITS_Y, LOCKED_AXES, MASS_X, MASS_Y, MODEL_ANGULAR,
    MODEL_X, MODEL_Y, MOTOR_ANGULAR, MOTOR_AXES, MOTOR_SEED, MOTOR_WIDTH, MOTOR_X, MOTOR_Y,
    NATURAL_FREQUENCY, NUMBERS_WIDTH, POSE, ROW_WIDTH, VELOCITY_ANGULAR, VELOCITY_X, VELOCITY_Y,
    WORDS_WIDTH, WORLD,
};
use crate::plane::Plane;
use floats::pose::Pose;
use floats::rotation_ops::Rotation;
use floats::sin_cos::rotation_from_angle;
use floats::vector::Vector;
use multibody::kind::Kind;
use multibody::records::{axis, limits_at, motor_at, put6, six_at};
use rows::generic_joint::{GenericJoint, JointEnabled, JointLimits, JointMotor, Masks};
use rows::integration_parameters::SpringCoefficients;
use rows::joint_constraint_builder::{ImpulseJoint, SolverPose};
use rows::joint_velocity_constraint::{JointConstraint, SolverVel, WritebackId};

// ---- rows

// Row k of the storage.
pub fn row_at(s: &[f32], k: usize) -> JointConstraint
    requires { k * row_width + row_width ≤ length s.now }
    ensures { result ≡ row_at s.now k }
{
    let o = k * ROW_WIDTH;
    let a = six_at(s, o, 0);
    let b = six_at(s, o, 6);
    let c = six_at(s, o, 12);
    JointConstraint {
        impulse: a.n0,
        impulse_min: a.n1,
        impulse_max: a.n2,
        lin_jac: Vector { x: a.n3, y: a.n4 },
        ang_jac1: a.n5,
        ang_jac2: b.n0,
        ii_ang_jac1: b.n1,
        ii_ang_jac2: b.n2,
        inv_lhs: b.n3,
        rhs: b.n4,
        rhs_wo_bias: b.n5,
        cfm_gain: c.n0,
        cfm_coeff: c.n1,
        im1: Vector { x: c.n2, y: c.n3 },
        im2: Vector { x: c.n4, y: c.n5 },
    }
}

// Row k replaced.
pub fn put_row(s: &mut [f32], k: usize, r: JointConstraint)
    requires { k * row_width + row_width ≤ length s.old }
    ensures { s.new ≡ put_row s.old k r }
{
    let o = k * ROW_WIDTH;
    put6(
        s,
        o,
        r.impulse,
        r.impulse_min,
        r.impulse_max,
        r.lin_jac.x,
        r.lin_jac.y,
        r.ang_jac1,
    );
    put6(
        s,
        o + 6,
        r.ang_jac2,
        r.ii_ang_jac1,
        r.ii_ang_jac2,
        r.inv_lhs,
        r.rhs,
        r.rhs_wo_bias,
    );
    put6(
        s,
        o + 12,
        r.cfm_gain,
        r.cfm_coeff,
        r.im1.x,
        r.im1.y,
        r.im2.x,
        r.im2.y,
    );
}

// ---- bodies

// The pose in four numbers from number c on of the record that starts at place o.
fn pose_at(s: &[f32], o: usize, c: usize) -> Pose
    requires { o + c + 4 ≤ length s.now }
    ensures { result ≡ pose_of (num_from s.now o) c }
{
    let a = o + c;
    Pose {
        rotation: Rotation {
            re: s[a],
            im: s[a + 1],
        },
        translation: Vector {
            x: s[a + 2],
            y: s[a + 3],
        },
    }
}

// What the rows read of body i; the world has the identity pose, and no inverse mass or inertia.
pub fn solver_pose_at(b: &[f32], i: u32) -> SolverPose
    requires { Present b.now i }
    ensures { result ≡ solver_pose_at b.now i }
{
    if i == WORLD {
        return SolverPose {
            pose: Pose {
                rotation: Rotation { re: 1.0, im: 0.0 },
                translation: Vector { x: 0.0, y: 0.0 },
            },
            ii: 0.0,
            im: Vector { x: 0.0, y: 0.0 },
        };
    }
    let o = (i as usize) * BODY_WIDTH;
    SolverPose {
        pose: pose_at(b, o, POSE),
        ii: b[o + INERTIA],
        im: Vector {
            x: b[o + MASS_X],
            y: b[o + MASS_Y],
        },
    }
}

// The velocity of body i; the world's is zero.
pub fn vel_at(b: &[f32], i: u32) -> SolverVel
    requires { Present b.now i }
    ensures { result ≡ vel_at b.now i }
{
    if i == WORLD {
        return SolverVel {
            linear: Vector { x: 0.0, y: 0.0 },
            angular: 0.0,
        };
    }
    let o = (i as usize) * BODY_WIDTH;
    SolverVel {
        linear: Vector {
            x: b[o + VELOCITY_X],
            y: b[o + VELOCITY_Y],
        },
        angular: b[o + VELOCITY_ANGULAR],
    }
}

// Body i's velocity replaced; what is written to the world's is dropped.
pub fn put_vel(b: &mut [f32], i: u32, v: SolverVel)
    requires { Present b.old i }
    ensures { b.new ≡ put_vel b.old i v }
{
    if i == WORLD {
        return;
    }
    let o = (i as usize) * BODY_WIDTH;
    b[o + VELOCITY_X] = v.linear.x;
    b[o + VELOCITY_Y] = v.linear.y;
    b[o + VELOCITY_ANGULAR] = v.angular;
}

// Body i's pose replaced.
pub fn put_pose(b: &mut [f32], i: u32, p: Pose)
    requires { i * body_width + body_width ≤ length b.old }
    ensures { b.new ≡ put_pose b.old i p }
{
    let o = (i as usize) * BODY_WIDTH;
    b[o] = p.rotation.re;
    b[o + 1] = p.rotation.im;
    b[o + 2] = p.translation.x;
    b[o + 3] = p.translation.y;
}

// ---- joints

// Joint j's masks replaced (request R-10).
pub fn put_masks(words: &mut [u32], j: usize, masks: Masks)
    requires { j * words_width + words_width ≤ length words.old }
    ensures { words.new ≡ put_masks words.old j masks }
{
    let o = j * WORDS_WIDTH;
    words[o + LOCKED_AXES] = masks.locked_axes;
    words[o + LIMIT_AXES] = masks.limit_axes;
    words[o + MOTOR_AXES] = masks.motor_axes;
    words[o + COUPLED_AXES] = masks.coupled_axes;
}

// The limits of the three axes of joint j, and their motors.
fn all_limits_at(numbers: &[f32], j: usize) -> [JointLimits; 3]
    requires { j * numbers_width + numbers_width ≤ length numbers.now }
    ensures { result ≡ all_limits_of (num numbers_width numbers.now j) }
{
    let o = j * NUMBERS_WIDTH;
    let x = limits_at(numbers, o, LIMITS_X);
    let y = limits_at(numbers, o, LIMITS_Y);
    let angular = limits_at(numbers, o, LIMITS_ANGULAR);
    [x, y, angular]
}

fn all_motors_at(words: &[u32], numbers: &[f32], j: usize) -> [JointMotor; 3]
    requires words_width_in_bounds { j * words_width + words_width ≤ length words.now }
    requires numbers_width_in_bounds { j * numbers_width + numbers_width ≤ length numbers.now }
    ensures { result ≡ all_motors_of (num numbers_width numbers.now j) (word words_width words.now j) }
{
    let w = j * WORDS_WIDTH;
    let o = j * NUMBERS_WIDTH;
    let x = motor_at(numbers, o, MOTOR_X, words[w + MODEL_X]);
    let y = motor_at(numbers, o, MOTOR_Y, words[w + MODEL_Y]);
    let angular = motor_at(numbers, o, MOTOR_ANGULAR, words[w + MODEL_ANGULAR]);
    [x, y, angular]
}

// Joint j without its stored Dof impulses and its centre.
fn data_at(words: &[u32], numbers: &[f32], j: usize) -> GenericJoint
    requires words_width_in_bounds { j * words_width + words_width ≤ length words.now }
    requires numbers_width_in_bounds { j * numbers_width + numbers_width ≤ length numbers.now }
    ensures { result ≡ data_of (num numbers_width numbers.now j) (word words_width words.now j) }
{
    let o = j * NUMBERS_WIDTH;
    GenericJoint {
        local_frame1: pose_at(numbers, o, FRAME1),
        local_frame2: pose_at(numbers, o, FRAME2),
        masks: Plane::masks_at(words, j),
        limits: all_limits_at(numbers, j),
        motors: all_motors_at(words, numbers, j),
        softness: SpringCoefficients {
            natural_frequency: numbers[o + NATURAL_FREQUENCY],
            damping_ratio: numbers[o + DAMPING_RATIO],
        },
        enabled: Plane::enabled_at(words, j),
    }
}

// The centre of the angular limits as it is typed: its cosine and sine, or its angle.
#[derive(Clone, Copy)]
pub enum LimitCenter {
    CosineSine(f32, f32),
    Angle(f32),
}

// Joint j's centre.
pub fn center_at(words: &[u32], numbers: &[f32], j: usize) -> LimitCenter
    requires words_width_in_bounds { j * words_width + words_width ≤ length words.now }
    requires numbers_width_in_bounds { j * numbers_width + numbers_width ≤ length numbers.now }
    ensures { result ≡ center_at words.now numbers.now j }
{
    let o = j * NUMBERS_WIDTH;
    if words[j * WORDS_WIDTH + CENTER_CHOICE] == 0 {
        return LimitCenter::CosineSine(numbers[o + CENTER_RE], numbers[o + CENTER_IM]);
    }
    LimitCenter::Angle(numbers[o + CENTER_RE])
}

// The cosine and sine that the rows read.
fn rotation_of(center: LimitCenter) -> Rotation
    ensures { result ≡ rotation_of center }
{
    match center {
        LimitCenter::CosineSine(re, im) => Rotation { re, im },
        LimitCenter::Angle(angle) => rotation_from_angle(angle),
    }
}

// Joint j of the storage.
pub fn joint_at(words: &[u32], numbers: &[f32], j: usize) -> ImpulseJoint
    requires words_width_in_bounds { j * words_width + words_width ≤ length words.now }
    requires numbers_width_in_bounds { j * numbers_width + numbers_width ≤ length numbers.now }
    ensures { result ≡ joint_at words.now numbers.now j }
{
    let o = j * NUMBERS_WIDTH;
    let data = data_at(words, numbers, j);
    let impulses = [
        numbers[o + DOF_X],
        numbers[o + DOF_Y],
        numbers[o + DOF_ANGULAR],
    ];
    ImpulseJoint {
        data,
        impulses,
        center: rotation_of(center_at(words, numbers, j)),
    }
}

// Which of a joint's numbers is an id's stored impulse.
fn seed_index(id: WritebackId) -> usize
    requires { axis_of id < 3 }
    ensures { result ≡ seed_index id }
{
    match id {
        WritebackId::Dof(i) => DOF_X + i,
        WritebackId::Limit(i) => LIMIT_SEED + i * LIMITS_WIDTH,
        WritebackId::Motor(i) => MOTOR_SEED + i * MOTOR_WIDTH,
    }
}

// Joint j's stored impulse of an id replaced; an id past the last axis has none, and changes nothing.
pub fn put_seed(numbers: &mut [f32], j: usize, id: WritebackId, p: f32)
    requires { j * numbers_width + numbers_width ≤ length numbers.old }
    ensures { numbers.new ≡ put_seed numbers.old j id p }
{
    if axis(id) < 3 {
        let a = j * NUMBERS_WIDTH + seed_index(id);
        numbers[a] = p;
    }
}

// The target velocity of joint j's motor on axis i replaced.
pub fn put_target(numbers: &mut [f32], j: usize, i: usize, v: f32)
    requires { (i < 3) × (j * numbers_width + numbers_width ≤ length numbers.old) }
    ensures { numbers.new ≡ put_target numbers.old j i v }
{
    let a = j * NUMBERS_WIDTH + (MOTOR_X + i * MOTOR_WIDTH);
    numbers[a] = v;
}
