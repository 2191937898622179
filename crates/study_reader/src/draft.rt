// How far the reading of a study has come, and the numbers that an item has where its lines give none.
ghost use Rattle.std.specs.Prelude.{◌≡◌, ◌≤◌};
ghost use Rattle.study_reader.specs.Storage.{body_base, joint_base, numbers_size};
ghost use Rattle.study_reader.specs.Draft.{start, faulty, reached, opened, first_call, repeat_after, called, item_base, puts, settings_defaults, body_defaults, limit_defaults, force_defaults, joint_defaults};

use crate::faults::{Fault, FaultAt};
use crate::fields::{BODY_ITEM, CALLS, JOINT_ITEM, NO_ITEM};
use crate::keywords::{END, REPEAT};
use crate::storage::{DT, LENGTH_UNIT, MAX_CORRECTIVE_VELOCITY, body_base, joint_base, set};
use floats::bits::from_bits;
use model::layout::{
    CENTER_RE, DAMPING_RATIO, FRAME2, LIMITS_ANGULAR, LIMITS_X, LIMITS_Y, MOTOR_ANGULAR, MOTOR_X,
    MOTOR_Y, NATURAL_FREQUENCY,
};

// The upper end of each axis's limits, and its motor's maximum force.
const MAX_X: usize = LIMITS_X + 1;

const MAX_Y: usize = LIMITS_Y + 1;

pub const MAX_ANGULAR: usize = LIMITS_ANGULAR + 1;

const MAX_FORCE_X: usize = MOTOR_X + 4;

const MAX_FORCE_Y: usize = MOTOR_Y + 4;

const MAX_FORCE_ANGULAR: usize = MOTOR_ANGULAR + 4;

// Where the next line starts; the item that is open and its number; how many bodies and joints there are; the first fault; where the calls
// start; where the `repeat` stands that is open.
#[derive(Clone, Copy)]
pub struct State {
    pub at: usize,
    pub kind: u32,
    pub item: u32,
    pub bodies: u32,
    pub joints: u32,
    pub fault: Option<FaultAt>,
    pub calls: usize,
    pub repeat: Option<usize>,
}

pub fn start() -> State
    ensures { result ≡ start }
{
    State {
        at: 0,
        kind: NO_ITEM,
        item: 0,
        bodies: 0,
        joints: 0,
        fault: None,
        calls: 4294967295,
        repeat: None,
    }
}

pub fn faulty(st: State, fault: Fault, at: usize) -> State
    ensures { result ≡ faulty st fault at }
{
    State {
        fault: Some(FaultAt { fault, at }),
        ..st
    }
}

pub fn reached(st: State, at: usize) -> State
    ensures { result ≡ reached st at }
{
    State { at, ..st }
}

// An item is opened: its kind and number, and how many bodies and joints there are with it.
pub fn opened(st: State, kind: u32, item: u32, bodies: u32, joints: u32) -> State
    ensures { result ≡ opened st kind item bodies joints }
{
    State {
        kind,
        item,
        bodies,
        joints,
        ..st
    }
}

// ---- calls

// Where the calls start.
fn first_call(st: State, at: usize) -> usize
    ensures { result ≡ first_call st at }
{
    if st.kind == CALLS {
        return st.calls;
    }
    at
}

// The `repeat` that is open after a call, by its offset.
fn repeat_after(repeat: Option<usize>, keyword: u32, at: usize) -> Option<usize>
    ensures { result ≡ repeat_after repeat keyword at }
{
    if keyword == REPEAT {
        return Some(at);
    }
    if keyword == END {
        return None;
    }
    repeat
}

// A call was read, whose line starts at an offset.
pub fn called(st: State, keyword: u32, at: usize) -> State
    ensures { result ≡ called st keyword at }
{
    State {
        kind: CALLS,
        calls: first_call(st, at),
        repeat: repeat_after(st.repeat, keyword, at),
        ..st
    }
}

// ---- defaults

// Where the numbers of the item that is open start.
pub fn item_base(st: State) -> usize
    ensures { (result ≡ item_base st) × (result ≤ numbers_size) }
{
    if st.kind == BODY_ITEM {
        return body_base(st.item);
    }
    if st.kind == JOINT_ITEM {
        return joint_base(st.item);
    }
    0
}

pub fn default_settings(numbers: &mut [f32])
    ensures { numbers.new ≡ puts 0 settings_defaults numbers.old }
{
    set(numbers, DT, from_bits(0x3c88_8889));
    set(numbers, LENGTH_UNIT, 1.0);
    set(numbers, MAX_CORRECTIVE_VELOCITY, 3.0);
}

pub fn default_body(numbers: &mut [f32], i: u32)
    ensures { numbers.new ≡ puts (body_base i) body_defaults numbers.old }
{
    set(numbers, body_base(i), 1.0);
}

fn default_limits(numbers: &mut [f32], o: usize)
    requires { o ≤ numbers_size }
    ensures { numbers.new ≡ puts o limit_defaults numbers.old }
{
    let most = from_bits(0x7f7f_ffff);
    let least = from_bits(0xff7f_ffff);
    set(numbers, o + LIMITS_X, least);
    set(numbers, o + MAX_X, most);
    set(numbers, o + LIMITS_Y, least);
    set(numbers, o + MAX_Y, most);
    set(numbers, o + LIMITS_ANGULAR, least);
    set(numbers, o + MAX_ANGULAR, most);
}

fn default_forces(numbers: &mut [f32], o: usize)
    requires { o ≤ numbers_size }
    ensures { numbers.new ≡ puts o force_defaults numbers.old }
{
    let most = from_bits(0x7f7f_ffff);
    set(numbers, o + MAX_FORCE_X, most);
    set(numbers, o + MAX_FORCE_Y, most);
    set(numbers, o + MAX_FORCE_ANGULAR, most);
}

pub fn default_joint(numbers: &mut [f32], j: u32)
    ensures { numbers.new ≡ puts (joint_base j) joint_defaults numbers.old }
{
    let o = joint_base(j);
    default_limits(numbers, o);
    default_forces(numbers, o);
    set(numbers, o, 1.0);
    set(numbers, o + FRAME2, 1.0);
    set(numbers, o + NATURAL_FREQUENCY, 1000000.0);
    set(numbers, o + DAMPING_RATIO, 1.0);
    set(numbers, o + CENTER_RE, 1.0);
}
