// Where the numbers of a body and of a joint start in its record, and the words of a joint: places of a model's layout in 32 bits, as the lines of a study
// give them.
use model::layout::{
    BODY1, BODY2, CENTER_RE, ENABLED, FRAME1, FRAME2, INERTIA, LOCKED_AXES, MASS_X, MODEL_X, POSE,
};

pub const POSE_NUMBERS: u32 = POSE as u32;

pub const INERTIA_NUMBER: u32 = INERTIA as u32;

pub const MASS_NUMBERS: u32 = MASS_X as u32;

pub const FRAME1_NUMBERS: u32 = FRAME1 as u32;

pub const FRAME2_NUMBERS: u32 = FRAME2 as u32;

pub const CENTER_NUMBERS: u32 = CENTER_RE as u32;

pub const BODY1_WORD: u32 = BODY1 as u32;

pub const BODY2_WORD: u32 = BODY2 as u32;

pub const MASK_WORDS: u32 = LOCKED_AXES as u32;

pub const MODEL_WORDS: u32 = MODEL_X as u32;

pub const ENABLED_WORD: u32 = ENABLED as u32;
