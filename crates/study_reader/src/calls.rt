// The line of a call: what it asks for.
ghost use Rattle.std.specs.Prelude.{◌≡◌, ◌<◌, length};
ghost use Rattle.study_reader.specs.Calls.{bare_call, wrong, with_word, with_number, with_place, with_pose, with_rotation, with_warm, with_csv, with_sweeps, read_whole, read_body, read_joint, read_pose, read_rotation, read_build, read_substep, read_substeps, after_rounds, read_sweeps, read_frame, read_csv, read_most, read_settle, read_quoted, read_file, read_repeat, read_end, read_place, with_bits, masks_with, with_mask, with_axes, mask_named, bit_of, bits_of, mask_word, mask_step, read_masks, other_arguments, read_call};

use crate::faults::{Fault, FaultAt};
use crate::keywords::{
    BUILD, END, FRAME, LOCK, MASKS, MOTOR_MODEL, PLACE, READ_ROWS, READ_VELOCITY, REPEAT,
    SET_TARGETS, SETTLE, SWEEP, TABLE, axis_of, call_keyword, item_keyword,
};
use crate::names::{find_body, find_joint};
use crate::number::{number_fault, number_in, value_of};
use crate::words::{Word, is, is_empty, is_quote, next_word, quoted_word, whole_number};
use floats::sin_cos::rotation_from_angle;
use rows::generic_joint::Masks;

// A call, with its numbers: a body, a joint, a count, a substep or how many substeps; the rounds of a frame's sweeps; a pose; a warm coefficient, where there is one; a tolerance, as x. `start` and `end` are those of its
// first argument, `at` is where what was read of it ends. Of new masks, `mask` is the one that the axes that follow belong to: the locked, limited, driven and coupled axes are masks 0 to 3.
#[derive(Clone, Copy)]
pub struct Line {
    pub keyword: u32,
    pub number: u32,
    pub sweeps: u32,
    pub masks: Masks,
    pub mask: Option<u32>,
    pub warm: bool,
    pub csv: bool,
    pub x: f32,
    pub y: f32,
    pub re: f32,
    pub im: f32,
    pub start: usize,
    pub end: usize,
    pub at: usize,
    pub fault: Option<FaultAt>,
}

// ---- a line and what is added to it

fn bare_call(keyword: u32, at: usize) -> Line
    ensures { result ≡ bare_call keyword at }
{
    Line {
        keyword,
        number: 0,
        sweeps: 0,
        masks: Masks {
            locked_axes: 0,
            limit_axes: 0,
            motor_axes: 0,
            coupled_axes: 0,
        },
        mask: None,
        warm: false,
        csv: false,
        x: 0.0,
        y: 0.0,
        re: 1.0,
        im: 0.0,
        start: at,
        end: at,
        at,
        fault: None,
    }
}

fn wrong(l: Line, fault: Fault, at: usize) -> Line
    ensures { result ≡ wrong l fault at }
{
    Line {
        fault: Some(FaultAt { fault, at }),
        ..l
    }
}

// A line with its first argument.
fn with_word(l: Line, w: Word) -> Line
    ensures { result ≡ with_word l w }
{
    Line {
        start: w.start,
        end: w.end,
        at: w.end,
        ..l
    }
}

fn with_number(l: Line, n: u32) -> Line
    ensures { result ≡ with_number l n }
{
    Line { number: n, ..l }
}

fn with_place(l: Line, at: usize) -> Line
    ensures { result ≡ with_place l at }
{
    Line { at, ..l }
}

fn with_pose(l: Line, x: f32, y: f32, at: usize) -> Line
    ensures { result ≡ with_pose l x y at }
{
    Line { x, y, at, ..l }
}

fn with_rotation(l: Line, re: f32, im: f32, at: usize) -> Line
    ensures { result ≡ with_rotation l re im at }
{
    Line { re, im, at, ..l }
}

fn with_warm(l: Line, x: f32, at: usize) -> Line
    ensures { result ≡ with_warm l x at }
{
    Line {
        warm: true,
        x,
        at,
        ..l
    }
}

fn with_csv(l: Line) -> Line
    ensures { result ≡ with_csv l }
{
    Line { csv: true, ..l }
}

// The rounds of a frame's sweeps are the number that was read last.
fn with_sweeps(l: Line) -> Line
    ensures { result ≡ with_sweeps l }
{
    Line {
        sweeps: l.number,
        ..l
    }
}

// The axes that follow are of mask i.
fn with_mask(l: Line, i: u32, at: usize) -> Line
    ensures { result ≡ with_mask l i at }
{
    Line {
        mask: Some(i),
        at,
        ..l
    }
}

fn with_bits(mask: u32, i: u32, k: u32, bits: u32) -> u32
    ensures { result ≡ with_bits mask i k bits }
{
    if i == k {
        return mask | bits;
    }
    mask
}

fn masks_with(m: Masks, i: u32, bits: u32) -> Masks
    ensures { result ≡ masks_with m i bits }
{
    Masks {
        locked_axes: with_bits(m.locked_axes, i, 0, bits),
        limit_axes: with_bits(m.limit_axes, i, 1, bits),
        motor_axes: with_bits(m.motor_axes, i, 2, bits),
        coupled_axes: with_bits(m.coupled_axes, i, 3, bits),
    }
}

// Mask i, with bits.
fn with_axes(l: Line, i: u32, bits: u32, at: usize) -> Line
    ensures { result ≡ with_axes l i bits at }
{
    Line {
        masks: masks_with(l.masks, i, bits),
        at,
        ..l
    }
}

// ---- arguments

fn read_whole(text: &[u8], l: Line) -> Line
    ensures { result ≡ read_whole text.now l }
{
    let w = next_word(text, l.at);
    match whole_number(text, w) {
        Some(n) => with_number(with_word(l, w), n),
        None => wrong(l, Fault::WholeNumber, w.start),
    }
}

fn read_body(text: &[u8], names: &[u32], bodies: u32, l: Line) -> Line
    ensures { result ≡ read_body text.now names.now bodies l }
{
    let w = next_word(text, l.at);
    match find_body(text, names, bodies, w) {
        Some(i) => with_number(with_word(l, w), i),
        None => wrong(l, Fault::NoBody, w.start),
    }
}

fn read_joint(text: &[u8], names: &[u32], joints: u32, l: Line) -> Line
    ensures { result ≡ read_joint text.now names.now joints l }
{
    let w = next_word(text, l.at);
    match find_joint(text, names, joints, w) {
        Some(j) => with_number(with_word(l, w), j),
        None => wrong(l, Fault::NoJoint, w.start),
    }
}

// An angle, or a cosine and a sine.
fn read_rotation(text: &[u8], l: Line) -> Line
    ensures { result ≡ read_rotation text.now l }
{
    let v = next_word(text, l.at);
    let a = number_in(text, v);
    if let Some(fault) = number_fault(a) {
        return wrong(l, fault, v.start);
    }
    let w = next_word(text, v.end);
    if is_empty(w) {
        let rotation = rotation_from_angle(value_of(a));
        return with_rotation(l, rotation.re, rotation.im, v.end);
    }
    let b = number_in(text, w);
    if let Some(fault) = number_fault(b) {
        return wrong(l, fault, w.start);
    }
    with_rotation(l, value_of(a), value_of(b), w.end)
}

// A new pose: x, y, and then a rotation.
fn read_pose(text: &[u8], l: Line) -> Line
    ensures { result ≡ read_pose text.now l }
{
    let v = next_word(text, l.at);
    let x = number_in(text, v);
    if let Some(fault) = number_fault(x) {
        return wrong(l, fault, v.start);
    }
    let w = next_word(text, v.end);
    let y = number_in(text, w);
    if let Some(fault) = number_fault(y) {
        return wrong(l, fault, w.start);
    }
    read_rotation(text, with_pose(l, value_of(x), value_of(y), w.end))
}

fn read_substep(text: &[u8], l: Line) -> Line
    ensures { result ≡ read_substep text.now l }
{
    let v = next_word(text, l.at);
    if is_empty(v) {
        return l;
    }
    if is(text, v, b"substep") {
        return read_whole(text, with_place(l, v.end));
    }
    wrong(l, Fault::Warm, v.start)
}

// `warm C`, then `substep N`, either or none.
fn read_build(text: &[u8], l: Line) -> Line
    ensures { result ≡ read_build text.now l }
{
    let v = next_word(text, l.at);
    if is(text, v, b"warm") {
        let w = next_word(text, v.end);
        let c = number_in(text, w);
        if let Some(fault) = number_fault(c) {
            return wrong(l, fault, w.start);
        }
        return read_substep(text, with_warm(l, value_of(c), w.end));
    }
    read_substep(text, l)
}

fn read_substeps(text: &[u8], l: Line) -> Line
    ensures { result ≡ read_substeps text.now l }
{
    let v = next_word(text, l.at);
    if is(text, v, b"substeps") {
        return read_whole(text, with_place(l, v.end));
    }
    wrong(l, Fault::Substeps, v.start)
}

// What stands after rounds that were read.
fn after_rounds(text: &[u8], l: Line) -> Line
    ensures { result ≡ after_rounds text.now l }
{
    if l.fault.is_some() {
        return l;
    }
    read_substeps(text, with_sweeps(l))
}

// `sweeps N`, then `substeps N`.
fn read_sweeps(text: &[u8], l: Line) -> Line
    ensures { result ≡ read_sweeps text.now l }
{
    let v = next_word(text, l.at);
    if is(text, v, b"sweeps") {
        let r = read_whole(text, with_place(l, v.end));
        return after_rounds(text, r);
    }
    wrong(l, Fault::Substeps, v.start)
}

// `warm C` or nothing, then the rounds and the substeps.
fn read_frame(text: &[u8], l: Line) -> Line
    ensures { result ≡ read_frame text.now l }
{
    let v = next_word(text, l.at);
    if is(text, v, b"warm") {
        let w = next_word(text, v.end);
        let c = number_in(text, w);
        if let Some(fault) = number_fault(c) {
            return wrong(l, fault, w.start);
        }
        return read_sweeps(text, with_warm(l, value_of(c), w.end));
    }
    read_sweeps(text, l)
}

fn read_csv(text: &[u8], l: Line) -> Line
    ensures { result ≡ read_csv text.now l }
{
    let w = next_word(text, l.at);
    if is_empty(w) {
        return l;
    }
    if is(text, w, b"csv") {
        return with_csv(with_word(l, w));
    }
    wrong(l, Fault::Csv, w.start)
}

// The most rounds, which are 4096 where they are not given.
fn read_most(text: &[u8], l: Line) -> Line
    ensures { result ≡ read_most text.now l }
{
    let w = next_word(text, l.at);
    if is_empty(w) {
        return with_number(l, 4096);
    }
    read_whole(text, l)
}

// A tolerance, then the most rounds.
fn read_settle(text: &[u8], l: Line) -> Line
    ensures { result ≡ read_settle text.now l }
{
    let v = next_word(text, l.at);
    let x = number_in(text, v);
    if let Some(fault) = number_fault(x) {
        return wrong(l, fault, v.start);
    }
    read_most(text, with_pose(l, value_of(x), l.y, v.end))
}

// A name between the quote at a place and another.
fn read_quoted(text: &[u8], l: Line, at: usize) -> Line
    requires { at < length text.now }
    ensures { result ≡ read_quoted text.now l at }
{
    let w = quoted_word(text, at + 1);
    if is_empty(w) {
        return wrong(l, Fault::FileName, at);
    }
    if is_quote(text, w.end) {
        return with_place(with_word(l, w), w.end + 1);
    }
    wrong(l, Fault::FileName, at)
}

fn read_file(text: &[u8], l: Line) -> Line
    ensures { result ≡ read_file text.now l }
{
    let w = next_word(text, l.at);
    if is_empty(w) {
        return wrong(l, Fault::FileName, w.start);
    }
    if is_quote(text, w.start) {
        return read_quoted(text, l, w.start);
    }
    with_word(l, w)
}

fn read_repeat(text: &[u8], repeats: bool, l: Line, at: usize) -> Line
    ensures { result ≡ read_repeat text.now repeats l at }
{
    if repeats {
        return wrong(l, Fault::Nested, at);
    }
    read_whole(text, l)
}

fn read_end(repeats: bool, l: Line, at: usize) -> Line
    ensures { result ≡ read_end repeats l at }
{
    if repeats {
        return l;
    }
    wrong(l, Fault::NoRepeat, at)
}

fn read_place(text: &[u8], names: &[u32], bodies: u32, l: Line) -> Line
    ensures { result ≡ read_place text.now names.now bodies l }
{
    let r = read_body(text, names, bodies, l);
    if r.fault.is_some() {
        return r;
    }
    read_pose(text, r)
}

// The mask that a word names.
fn mask_named(text: &[u8], w: Word) -> Option<u32>
    ensures { result ≡ mask_named text.now w }
{
    let keyword = item_keyword(text, w);
    if keyword < LOCK {
        return None;
    }
    if keyword < MOTOR_MODEL {
        return Some(keyword - LOCK);
    }
    None
}

pub fn bit_of(axis: u32) -> u32
    ensures { result ≡ bit_of axis }
{
    if axis == 0 {
        return 1;
    }
    if axis == 1 {
        return 2;
    }
    4
}

// The bits that a word gives: an axis's, or those of a whole number.
fn bits_of(text: &[u8], w: Word) -> Option<u32>
    ensures { result ≡ bits_of text.now w }
{
    let axis = axis_of(text, w);
    if 2 < axis {
        return whole_number(text, w);
    }
    Some(bit_of(axis))
}

// A word that names a mask, or one that gives bits of the mask named last.
fn mask_word(text: &[u8], l: Line, w: Word) -> Line
    ensures { result ≡ mask_word text.now l w }
{
    if let Some(i) = mask_named(text, w) {
        return with_mask(l, i, w.end);
    }
    let Some(i) = l.mask else {
        return wrong(l, Fault::Mask, w.start);
    };
    match bits_of(text, w) {
        Some(bits) => with_axes(l, i, bits, w.end),
        None => wrong(l, Fault::Mask, w.start),
    }
}

// One word more, unless there is a fault or no word.
fn mask_step(text: &[u8], l: Line) -> Line
    ensures { result ≡ mask_step text.now l }
{
    if l.fault.is_some() {
        return l;
    }
    let w = next_word(text, l.at);
    if is_empty(w) {
        return l;
    }
    mask_word(text, l, w)
}

// A joint, and its new masks.
fn read_masks(text: &[u8], names: &[u32], joints: u32, l: Line) -> Line
    ensures { result ≡ read_masks text.now names.now joints l }
{
    let mut r = read_joint(text, names, joints, l);
    for _ in 0..16u32 {
        r = mask_step(text, r);
    }
    r
}

fn read_other_call(
    text: &[u8],
    names: &[u32],
    bodies: u32,
    joints: u32,
    repeats: bool,
    l: Line,
    at: usize,
) -> Line
    ensures { result ≡ other_arguments text.now names.now bodies joints repeats l at }
{
    let keyword = l.keyword;
    if keyword == READ_ROWS {
        return read_joint(text, names, joints, l);
    }
    if keyword == READ_VELOCITY {
        return read_body(text, names, bodies, l);
    }
    if keyword == SET_TARGETS {
        return read_file(text, l);
    }
    if keyword == REPEAT {
        return read_repeat(text, repeats, l, at);
    }
    if keyword == END {
        return read_end(repeats, l, at);
    }
    if keyword == TABLE {
        return read_csv(text, l);
    }
    if keyword == SETTLE {
        return read_settle(text, l);
    }
    if keyword == MASKS {
        return read_masks(text, names, joints, l);
    }
    if keyword == FRAME {
        return read_frame(text, l);
    }
    l
}

// The line of the call that starts with a word, where there are so many bodies and joints and a `repeat` is open or not.
pub fn read_call(
    text: &[u8],
    names: &[u32],
    bodies: u32,
    joints: u32,
    repeats: bool,
    w: Word,
) -> Line
    ensures { result ≡ read_call text.now names.now bodies joints repeats w }
{
    let keyword = call_keyword(text, w);
    let l = bare_call(keyword, w.end);
    if keyword == PLACE {
        return read_place(text, names, bodies, l);
    }
    if keyword == BUILD {
        return read_build(text, l);
    }
    if keyword == SWEEP {
        return read_whole(text, l);
    }
    read_other_call(text, names, bodies, joints, repeats, l, w.start)
}
