// What one line of a study says, before anything of it is written: a number or a word of the item that is open, an item, a call; or its first fault.
ghost use Rattle.std.specs.Prelude.{◌≡◌};
ghost use Rattle.study_reader.specs.Items.{whole, given1, given2, second_number, numbers_from, rotated, given_by, given_line, field_numbers, axes_from, named_mask, mask_line, model_line, word_line, name_fault, body_line, ends_line, joint_line, kind_fault, kind_of, field_line, open_line, item_line, call_line, line_of};

use crate::calls::{bit_of, read_call};
use crate::draft::State;
use crate::faults::Fault;
use crate::fields::{BODY_ITEM, CALLS, Field, JOINT_ITEM, NO_ITEM, field_of};
use crate::keywords::{
    ANGLE, BODY, CENTER, ENABLED, FRAME1_ANGLE, FRAME2_ANGLE, INERTIA, INVERSE_MASS, LOCK, MASS,
    MOTOR_MODEL, SETTINGS, axis_of, call_keyword, item_keyword,
};
use crate::layout::{
    CENTER_NUMBERS, ENABLED_WORD, FRAME1_NUMBERS, FRAME2_NUMBERS, INERTIA_NUMBER, MASK_WORDS,
    MASS_NUMBERS, MODEL_WORDS, POSE_NUMBERS,
};
use crate::names::{find_body, find_end, find_joint};
use crate::number::{number_fault, number_in, value_of};
use crate::storage::MOST;
use crate::words::{Word, holds, is, is_empty, next_word, whole_number};
use floats::sin_cos::rotation_from_angle;
use floats::utils::inv;

// One or two numbers of the item that is open, from a place on, and the offsets of the words that gave them. A centre's numbers say how it is
// given: 0 by its cosine and sine, 1 by its angle. Other numbers have 2 there.
#[derive(Clone, Copy)]
pub struct Numbers {
    pub place: u32,
    pub many: u32,
    pub x: f32,
    pub y: f32,
    pub x_at: usize,
    pub y_at: usize,
    pub center: u32,
}

// The two bodies of a joint, and the offsets of their names.
#[derive(Clone, Copy)]
pub struct Ends {
    pub body1: u32,
    pub body2: u32,
    pub at1: usize,
    pub at2: usize,
}

#[derive(Clone, Copy)]
pub enum Change {
    // no word stands on the line
    Nothing,
    // a fault and its offset
    Wrong(Fault, usize),
    Given(Numbers),
    // a word of the joint that is open: its place, its value and the offset of what gave it
    JointWord(u32, u32, usize),
    OpenSettings,
    // a name, and how many bodies there are with this one
    OpenBody(Word, u32),
    // a name, how many joints there are with this one, and its bodies
    OpenJoint(Word, u32, Ends),
    // a call's keyword, and the offset of its line
    Call(u32, usize),
}

// The line ends here, or the fault says that it should.
fn whole(text: &[u8], at: usize, change: Change) -> Change
    ensures { result ≡ whole text.now at change }
{
    let w = next_word(text, at);
    if is_empty(w) {
        return change;
    }
    Change::Wrong(Fault::LineEnd, w.start)
}

// ---- numbers

fn given1(place: u32, x: f32, at: usize, center: u32) -> Numbers
    ensures { result ≡ given1 place x at center }
{
    Numbers {
        place,
        many: 1,
        x,
        y: 0.0,
        x_at: at,
        y_at: 0,
        center,
    }
}

fn given2(place: u32, x: f32, y: f32, x_at: usize, y_at: usize, center: u32) -> Numbers
    ensures { result ≡ given2 place x y x_at y_at center }
{
    Numbers {
        place,
        many: 2,
        x,
        y,
        x_at,
        y_at,
        center,
    }
}

// The second of two numbers.
fn read_second(text: &[u8], v: Word, place: u32, x: f32, center: u32) -> Change
    ensures { result ≡ second_number text.now v place x center }
{
    let w = next_word(text, v.end);
    let r = number_in(text, w);
    if let Some(fault) = number_fault(r) {
        return Change::Wrong(fault, w.start);
    }
    let n = given2(place, x, value_of(r), v.start, w.start, center);
    whole(text, w.end, Change::Given(n))
}

// One number or two, as they stand.
fn read_numbers(text: &[u8], at: usize, place: u32, many: u32, center: u32) -> Change
    ensures { result ≡ numbers_from text.now at place many center }
{
    let v = next_word(text, at);
    let r = number_in(text, v);
    if let Some(fault) = number_fault(r) {
        return Change::Wrong(fault, v.start);
    }
    let x = value_of(r);
    if 1 < many {
        return read_second(text, v, place, x, center);
    }
    let n = given1(place, x, v.start, center);
    whole(text, v.end, Change::Given(n))
}

// A rotation by its angle.
fn rotated(place: u32, angle: f32, at: usize) -> Numbers
    ensures { result ≡ rotated place angle at }
{
    let rotation = rotation_from_angle(angle);
    given2(place, rotation.re, rotation.im, at, at, 2)
}

// What one number gives after a word of a body or of a joint.
fn given_by(keyword: u32, x: f32, at: usize) -> Numbers
    ensures { result ≡ given_by keyword x at }
{
    if keyword == MASS {
        return given2(MASS_NUMBERS, inv(x), inv(x), at, at, 2);
    }
    if keyword == INVERSE_MASS {
        return given2(MASS_NUMBERS, x, x, at, at, 2);
    }
    if keyword == INERTIA {
        return given1(INERTIA_NUMBER, inv(x), at, 2);
    }
    if keyword == ANGLE {
        return rotated(POSE_NUMBERS, x, at);
    }
    if keyword == FRAME1_ANGLE {
        return rotated(FRAME1_NUMBERS, x, at);
    }
    if keyword == FRAME2_ANGLE {
        return rotated(FRAME2_NUMBERS, x, at);
    }
    given1(CENTER_NUMBERS, x, at, 1)
}

fn read_given(text: &[u8], at: usize, keyword: u32) -> Change
    ensures { result ≡ given_line text.now at keyword }
{
    let w = next_word(text, at);
    let r = number_in(text, w);
    if let Some(fault) = number_fault(r) {
        return Change::Wrong(fault, w.start);
    }
    let n = given_by(keyword, value_of(r), w.start);
    whole(text, w.end, Change::Given(n))
}

// A line of plain numbers, after an axis where the field has one for each.
fn read_field(text: &[u8], w: Word) -> Change
    ensures { result ≡ field_numbers text.now w }
{
    let f = field_of(text, w);
    if f.stride == 0 {
        return read_numbers(text, w.end, f.place, f.many, 2);
    }
    let v = next_word(text, w.end);
    let axis = axis_of(text, v);
    if 2 < axis {
        return Change::Wrong(Fault::Axis, v.start);
    }
    read_numbers(text, v.end, f.place + axis * f.stride, f.many, 2)
}

// ---- words of a joint

// At most three axes by name.
fn read_axes(text: &[u8], from: usize, place: u32, origin: usize) -> Change
    ensures { result ≡ axes_from text.now place origin 3 0 from }
{
    let mut at = from;
    let mut mask: u32 = 0;
    for _ in 0..3u32 {
        let w = next_word(text, at);
        if is_empty(w) {
            return Change::JointWord(place, mask, origin);
        }
        let axis = axis_of(text, w);
        if 2 < axis {
            return Change::Wrong(Fault::Axis, w.start);
        }
        mask = mask | bit_of(axis);
        at = w.end;
    }
    whole(text, at, Change::JointWord(place, mask, origin))
}

// Axes by name, of which there is at least one.
fn read_named(text: &[u8], at: usize, place: u32, w: Word) -> Change
    ensures { result ≡ named_mask text.now at place w }
{
    if is_empty(w) {
        return Change::Wrong(Fault::Axis, w.start);
    }
    read_axes(text, at, place, w.start)
}

// A mask: a whole number, or axes by name.
fn read_mask(text: &[u8], at: usize, place: u32) -> Change
    ensures { result ≡ mask_line text.now at place }
{
    let w = next_word(text, at);
    match whole_number(text, w) {
        Some(mask) => whole(text, w.end, Change::JointWord(place, mask, w.start)),
        None => read_named(text, at, place, w),
    }
}

// An axis, and the model of its motor.
fn read_motor_model(text: &[u8], at: usize) -> Change
    ensures { result ≡ model_line text.now at }
{
    let v = next_word(text, at);
    let w = next_word(text, v.end);
    let axis = axis_of(text, v);
    if 2 < axis {
        return Change::Wrong(Fault::Axis, v.start);
    }
    if is(text, w, b"acceleration") {
        return whole(
            text,
            w.end,
            Change::JointWord(MODEL_WORDS + axis, 0, w.start),
        );
    }
    if is(text, w, b"force") {
        return whole(
            text,
            w.end,
            Change::JointWord(MODEL_WORDS + axis, 1, w.start),
        );
    }
    Change::Wrong(Fault::Model, w.start)
}

// What follows a word of a body or of a joint that gives no plain number.
fn read_word(text: &[u8], keyword: u32, w: Word) -> Change
    ensures { result ≡ word_line text.now keyword w }
{
    if keyword < LOCK {
        return read_given(text, w.end, keyword);
    }
    if keyword < MOTOR_MODEL {
        return read_mask(text, w.end, MASK_WORDS + (keyword - LOCK));
    }
    if keyword == MOTOR_MODEL {
        return read_motor_model(text, w.end);
    }
    if keyword == CENTER {
        return read_numbers(text, w.end, CENTER_NUMBERS, 2, 0);
    }
    whole(
        text,
        w.end,
        Change::JointWord(ENABLED_WORD, keyword - ENABLED, w.start),
    )
}

// ---- items

// What is wrong with a name; nothing where it is free.
fn name_fault(text: &[u8], names: &[u32], st: State, w: Word) -> Option<Fault>
    ensures { result ≡ name_fault text.now names.now st w }
{
    if is_empty(w) {
        return Some(Fault::Name);
    }
    if is(text, w, b"world") {
        return Some(Fault::WorldName);
    }
    if 64 < w.end - w.start {
        return Some(Fault::LongName);
    }
    if holds(text, w, b',') {
        return Some(Fault::PlainName);
    }
    if holds(text, w, b'"') {
        return Some(Fault::PlainName);
    }
    if find_body(text, names, st.bodies, w).is_some() {
        return Some(Fault::Taken);
    }
    if find_joint(text, names, st.joints, w).is_some() {
        return Some(Fault::Taken);
    }
    None
}

fn read_body(text: &[u8], names: &[u32], st: State, at: usize) -> Change
    ensures { result ≡ body_line text.now names.now st at }
{
    let w = next_word(text, at);
    if let Some(fault) = name_fault(text, names, st, w) {
        return Change::Wrong(fault, w.start);
    }
    if st.bodies < MOST {
        return whole(text, w.end, Change::OpenBody(w, st.bodies + 1));
    }
    Change::Wrong(Fault::BodiesFull, w.start)
}

// The two bodies of a joint with this name, of which there are so many with it.
fn read_ends(text: &[u8], names: &[u32], bodies: u32, u: Word, joints: u32) -> Change
    ensures { result ≡ ends_line text.now names.now bodies u joints }
{
    let v = next_word(text, u.end);
    let w = next_word(text, v.end);
    let Some(body1) = find_end(text, names, bodies, v) else {
        return Change::Wrong(Fault::NoBody, v.start);
    };
    let Some(body2) = find_end(text, names, bodies, w) else {
        return Change::Wrong(Fault::NoBody, w.start);
    };
    let ends = Ends {
        body1,
        body2,
        at1: v.start,
        at2: w.start,
    };
    whole(text, w.end, Change::OpenJoint(u, joints, ends))
}

fn read_joint(text: &[u8], names: &[u32], st: State, at: usize) -> Change
    ensures { result ≡ joint_line text.now names.now st at }
{
    let w = next_word(text, at);
    if let Some(fault) = name_fault(text, names, st, w) {
        return Change::Wrong(fault, w.start);
    }
    if st.joints < MOST {
        return read_ends(text, names, st.bodies, w, st.joints + 1);
    }
    Change::Wrong(Fault::JointsFull, w.start)
}

// ---- lines

// What is wrong with a line that belongs to a kind of item; nothing where such an item is open.
fn kind_fault(st: State, kind: u32) -> Option<Fault>
    ensures { result ≡ kind_fault st kind }
{
    if st.kind == CALLS {
        return Some(Fault::AfterCalls);
    }
    if st.kind == kind {
        return None;
    }
    Some(Fault::Elsewhere)
}

// The kind of item that a word belongs to.
fn kind_of(keyword: u32) -> u32
    ensures { result ≡ kind_of keyword }
{
    if keyword <= ANGLE {
        return BODY_ITEM;
    }
    JOINT_ITEM
}

fn read_field_line(text: &[u8], st: State, w: Word) -> Change
    ensures { result ≡ field_line text.now st w }
{
    let f = field_of(text, w);
    if f.kind == NO_ITEM {
        return Change::Wrong(Fault::Unknown, w.start);
    }
    if let Some(fault) = kind_fault(st, f.kind) {
        return Change::Wrong(fault, w.start);
    }
    read_field(text, w)
}

// An item is opened.
fn read_open(text: &[u8], names: &[u32], st: State, keyword: u32, w: Word) -> Change
    ensures { result ≡ open_line text.now names.now st keyword w }
{
    if st.kind == CALLS {
        return Change::Wrong(Fault::AfterCalls, w.start);
    }
    if keyword == SETTINGS {
        return whole(text, w.end, Change::OpenSettings);
    }
    if keyword == BODY {
        return read_body(text, names, st, w.end);
    }
    read_joint(text, names, st, w.end)
}

// A line whose first word is no call's.
fn read_item(text: &[u8], names: &[u32], st: State, w: Word) -> Change
    ensures { result ≡ item_line text.now names.now st w }
{
    let keyword = item_keyword(text, w);
    if keyword == 0 {
        return read_field_line(text, st, w);
    }
    if SETTINGS <= keyword {
        return read_open(text, names, st, keyword, w);
    }
    if let Some(fault) = kind_fault(st, kind_of(keyword)) {
        return Change::Wrong(fault, w.start);
    }
    read_word(text, keyword, w)
}

// A call is read again when it is run; here it is seen to be one that can be read.
fn read_call_line(text: &[u8], names: &[u32], st: State, w: Word) -> Change
    ensures { result ≡ call_line text.now names.now st w }
{
    let l = read_call(text, names, st.bodies, st.joints, st.repeat.is_some(), w);
    if let Some(f) = l.fault {
        return Change::Wrong(f.fault, f.at);
    }
    whole(text, l.at, Change::Call(l.keyword, w.start))
}

// The line that starts where the reading has come to.
pub fn read_line(text: &[u8], names: &[u32], st: State) -> Change
    ensures { result ≡ line_of text.now names.now st }
{
    let w = next_word(text, st.at);
    if is_empty(w) {
        return Change::Nothing;
    }
    if call_keyword(text, w) == 0 {
        return read_item(text, names, st, w);
    }
    read_call_line(text, names, st, w)
}
