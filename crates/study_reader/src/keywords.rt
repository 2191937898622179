// The words that start any other line: items, what is no plain number, calls; and the axes. They are numbers as the tables are texts, whose words mean numbers;
// the words of one kind follow each other, and their order is that of the masks and of `JointEnabled`.
ghost use Rattle.std.specs.Prelude.{◌≡◌};
ghost use Rattle.study_reader.specs.Keywords.{item_keyword, call_keyword, axis_of};

use crate::tables::number_in;
use crate::words::Word;

pub const NO_KEYWORD: u32 = 0;

pub const MASS: u32 = 1;

pub const INERTIA: u32 = 2;

pub const INVERSE_MASS: u32 = 3;

pub const ANGLE: u32 = 4;

pub const FRAME1_ANGLE: u32 = 5;

pub const FRAME2_ANGLE: u32 = 6;

pub const CENTER_ANGLE: u32 = 7;

pub const LOCK: u32 = 8;

pub const LIMIT: u32 = 9;

pub const MOTOR: u32 = 10;

pub const COUPLE: u32 = 11;

pub const MOTOR_MODEL: u32 = 12;

pub const ENABLED: u32 = 13;

pub const DISABLED_BY_ATTACHED_BODY: u32 = 14;

pub const DISABLED: u32 = 15;

pub const CENTER: u32 = 16;

pub const SETTINGS: u32 = 20;

pub const BODY: u32 = 21;

pub const JOINT: u32 = 22;

pub const LOAD: u32 = 31;

pub const PLACE: u32 = 32;

pub const BUILD: u32 = 33;

pub const WARM_START: u32 = 34;

pub const SWEEP: u32 = 35;

pub const REMOVE_BIAS: u32 = 36;

pub const WRITE_BACK: u32 = 37;

pub const READ_ROWS: u32 = 38;

pub const READ_VELOCITY: u32 = 39;

pub const SET_TARGETS: u32 = 40;

pub const REPEAT: u32 = 41;

pub const END: u32 = 42;

pub const TABLE: u32 = 43;

pub const SETTLE: u32 = 44;

pub const MASKS: u32 = 45;

pub const FRAME: u32 = 46;

// The word that starts an item or gives what is no plain number.
pub fn item_keyword(text: &[u8], w: Word) -> u32
    ensures { result ≡ item_keyword text.now w }
{
    number_in(
        b"\
        settings 20\n\
        body 21\n\
        joint 22\n\
        mass 1\n\
        inertia 2\n\
        inverse_mass 3\n\
        angle 4\n\
        lock 8\n\
        limit 9\n\
        motor 10\n\
        couple 11\n\
        frame1_angle 5\n\
        frame2_angle 6\n\
        center_angle 7\n\
        center 16\n\
        motor_model 12\n\
        enabled 13\n\
        disabled_by_attached_body 14\n\
        disabled 15\n\
        ",
        NO_KEYWORD,
        text,
        w,
    )
}

// The word that starts a call.
pub fn call_keyword(text: &[u8], w: Word) -> u32
    ensures { result ≡ call_keyword text.now w }
{
    number_in(
        b"\
        load 31\n\
        place 32\n\
        build 33\n\
        warm_start 34\n\
        sweep 35\n\
        remove_bias 36\n\
        write_back 37\n\
        read_rows 38\n\
        read_velocity 39\n\
        set_targets 40\n\
        repeat 41\n\
        end 42\n\
        table 43\n\
        settle 44\n\
        masks 45\n\
        frame 46\n\
        ",
        NO_KEYWORD,
        text,
        w,
    )
}

// An axis's number, and 3 for no axis.
pub fn axis_of(text: &[u8], w: Word) -> u32
    ensures { result ≡ axis_of text.now w }
{
    number_in(
        b"\
        x 0\n\
        y 1\n\
        angle 2\n\
        ",
        3,
        text,
        w,
    )
}
