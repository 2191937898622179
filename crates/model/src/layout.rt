// Bodies, joints and rows in flat storage: how many numbers or words a record has, and where each of its fields stands.

// The number of no body: document 01's world.
pub const WORLD: u32 = 4294967295;

// A row: the numbers of the Rust's fields, in their order.
pub const ROW_WIDTH: usize = 18;

// A body: pose (re, im, x, y), inverse inertia, inverse masses (x, y), velocity (x, y, angular).
pub const BODY_WIDTH: usize = 10;

pub const POSE: usize = 0;

pub const INERTIA: usize = 4;

pub const MASS_X: usize = 5;

pub const MASS_Y: usize = 6;

pub const VELOCITY_X: usize = 7;

pub const VELOCITY_Y: usize = 8;

pub const VELOCITY_ANGULAR: usize = 9;

// A joint's words: two bodies, four masks, three motor models, `JointEnabled`, how its centre is typed, its first row.
pub const WORDS_WIDTH: usize = 12;

pub const BODY1: usize = 0;

pub const BODY2: usize = 1;

pub const LOCKED_AXES: usize = 2;

pub const LIMIT_AXES: usize = 3;

pub const MOTOR_AXES: usize = 4;

pub const COUPLED_AXES: usize = 5;

pub const MODEL_X: usize = 6;

pub const MODEL_Y: usize = 7;

pub const MODEL_ANGULAR: usize = 8;

pub const ENABLED: usize = 9;

pub const CENTER_CHOICE: usize = 10;

pub const FIRST_ROW: usize = 11;

// A joint's numbers: two frames, three limits (min, max, impulse), three motors (target velocity and
// position, stiffness, damping, maximum force, impulse), softness, three Dof impulses, centre (cosine,
// sine; or an angle, in the cosine's place).
pub const NUMBERS_WIDTH: usize = 42;

pub const FRAME1: usize = 0;

pub const FRAME2: usize = 4;

pub const LIMITS_X: usize = 8;

pub const LIMITS_Y: usize = 11;

pub const LIMITS_ANGULAR: usize = 14;

pub const LIMITS_WIDTH: usize = 3;

pub const MOTOR_X: usize = 17;

pub const MOTOR_Y: usize = 23;

pub const MOTOR_ANGULAR: usize = 29;

pub const MOTOR_WIDTH: usize = 6;

pub const NATURAL_FREQUENCY: usize = 35;

pub const DAMPING_RATIO: usize = 36;

pub const DOF_X: usize = 37;

pub const DOF_Y: usize = 38;

pub const DOF_ANGULAR: usize = 39;

pub const CENTER_RE: usize = 40;

pub const CENTER_IM: usize = 41;

// The stored impulses of axis 0's limits and motor.
pub const LIMIT_SEED: usize = 10;

pub const MOTOR_SEED: usize = 22;
