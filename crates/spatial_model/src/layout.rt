// Bodies, joints and rows in flat storage: how many numbers or words a record has, and where each of its fields stands.

// The number of no body: document 01's world.
pub const WORLD: u32 = 4294967295;

// A row: the numbers of the Rust's fields, in their order.
pub const ROW_WIDTH: usize = 29;

// A body: pose (rotation x, y, z, w, translation), inverse inertia (m11, m12, m13, m22, m23, m33), inverse masses, velocity
// (linear, angular).
pub const BODY_WIDTH: usize = 22;

pub const POSE: usize = 0;

pub const INERTIA: usize = 7;

pub const MASS_X: usize = 13;

pub const MASS_Y: usize = 14;

pub const MASS_Z: usize = 15;

pub const VELOCITY: usize = 16;

// A joint's words: two bodies, four masks, three motor models, `JointEnabled`.
pub const WORDS_WIDTH: usize = 10;

pub const BODY1: usize = 0;

pub const BODY2: usize = 1;

pub const LOCKED_AXES: usize = 2;

pub const LIMIT_AXES: usize = 3;

pub const MOTOR_AXES: usize = 4;

pub const COUPLED_AXES: usize = 5;

pub const MODEL_X: usize = 6;

pub const MODEL_Y: usize = 7;

pub const MODEL_Z: usize = 8;

pub const ENABLED: usize = 9;

// A joint's numbers: two frames, three limits (min, max, impulse), three motors (target velocity and
// position, stiffness, damping, maximum force, impulse), softness, six Dof impulses.
pub const NUMBERS_WIDTH: usize = 49;

pub const FRAME1: usize = 0;

pub const FRAME2: usize = 7;

pub const LIMITS_X: usize = 14;

pub const LIMITS_Y: usize = 17;

pub const LIMITS_Z: usize = 20;

pub const LIMITS_WIDTH: usize = 3;

pub const MOTOR_X: usize = 23;

pub const MOTOR_Y: usize = 29;

pub const MOTOR_Z: usize = 35;

pub const MOTOR_WIDTH: usize = 6;

pub const NATURAL_FREQUENCY: usize = 41;

pub const DAMPING_RATIO: usize = 42;

pub const DOFS: usize = 43;

// The stored impulses of axis 0's limits and motor.
pub const LIMIT_SEED: usize = 16;

pub const MOTOR_SEED: usize = 28;
