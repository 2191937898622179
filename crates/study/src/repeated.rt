// A second reading of the lines, for what the first does not keep: a line that replaces an earlier one, numbers that look mistyped, what is called.
use crate::place::Study;
use model::layout::{LIMITS_ANGULAR, MOTOR_ANGULAR, NUMBERS_WIDTH};
use study_reader::calls::read_call;
use study_reader::draft::{State, called, opened, reached, start};
use study_reader::fields::{BODY_ITEM, JOINT_ITEM, SETTINGS_ITEM};
use study_reader::items::{Change, Numbers, read_line};
use study_reader::keywords::{
    ANGLE, CENTER_ANGLE, FRAME1_ANGLE, FRAME2_ANGLE, INERTIA, MASKS, MASS, READ_ROWS,
    READ_VELOCITY, SETTLE, TABLE, item_keyword,
};
use study_reader::number::{number_in, value_of};
use study_reader::storage::{kept, set_word, word_at};
use study_reader::words::{Word, line_of, next_line, next_word};

// How far the second reading has come: where the open item starts, whether a warning was told, whether there is a call, and one that prints.
#[derive(Clone, Copy)]
pub struct Reading {
    pub st: State,
    pub item_at: usize,
    pub warned: bool,
    pub called: bool,
    pub prints: bool,
}

// ---- a line that replaces another

// Where the lines of the settings are kept, after those of the item that is open.
const SETTINGS_SEEN: u32 = 64;

// The place of a line by what it gives: a number of the settings, of the body or the joint that is open.
fn seen_place(kind: u32, place: u32) -> usize {
    if 63 < place {
        127
    } else if kind == SETTINGS_ITEM {
        (SETTINGS_SEEN + place) as usize
    } else {
        place as usize
    }
}

// The line that gave the same before, in the same item; settings are one item.
fn given_before(seen: &[u32], s: Reading, place: usize) -> Option<usize> {
    let before = word_at(seen, place) as usize;
    if before == 0 || before < s.item_at && place < SETTINGS_SEEN as usize {
        return None;
    }
    Some(before)
}

fn warn_replaced(study: Study, at: usize, before: usize) {
    study.begin_warning(at);
    study.con.err(b"this line replaces what line ");
    study.con.err_number(line_of(study.text, before));
    study.con.err(b" gives\n");
    study.show_line(at);
}

fn given_once(study: Study, seen: &mut [u32], s: Reading, w: Word, place: usize) -> bool {
    let before = given_before(seen, s, place);
    set_word(seen, place, kept(w.start));
    if let Some(at) = before {
        warn_replaced(study, w.start, at);
    }
    before.is_some()
}

// ---- numbers that look mistyped

// A turn or more, either way; a larger number than these is no angle that was meant in degrees.
fn is_turn(x: f32) -> bool {
    !(x > 1e30) && !(x < -1e30) && (x > 6.2831853 || x < -6.2831853)
}

fn is_typed_angle(keyword: u32) -> bool {
    matches!(keyword, ANGLE | FRAME1_ANGLE | FRAME2_ANGLE | CENTER_ANGLE)
}

// The number at an offset, as it is typed.
fn typed(text: &[u8], at: usize) -> f32 {
    value_of(number_in(text, next_word(text, at)))
}

fn warn_turn(study: Study, at: usize, x: f32) -> bool {
    let turns = is_turn(x);
    if turns {
        study.begin_warning(at);
        study
            .con
            .err(b"a turn or more; angles are in radians, not in degrees\n");
        study.show_line(at);
    }
    turns
}

// An angular limit, a target angle or an angle of a turn or more.
fn warn_angles(study: Study, kind: u32, keyword: u32, n: Numbers) -> bool {
    if is_typed_angle(keyword) {
        return warn_turn(study, n.x_at, typed(study.text, n.x_at));
    }
    if kind != JOINT_ITEM {
        return false;
    }
    if n.place == LIMITS_ANGULAR as u32 {
        return warn_turn(study, n.x_at, n.x) | warn_turn(study, n.y_at, n.y);
    }
    if n.place == MOTOR_ANGULAR as u32 + 1 {
        return warn_turn(study, n.x_at, n.x);
    }
    false
}

fn warn_inverse(study: Study, at: usize, x: f32, inverse: f32) -> bool {
    if inverse != 0.0 || x == 0.0 {
        return false;
    }
    study.begin_warning(at);
    study.con.err(
        b"so large or so small that its inverse is taken as 0, as if nothing could move the body\n",
    );
    study.show_line(at);
    true
}

// A mass or an inertia whose inverse is 0.
fn warn_mass(study: Study, keyword: u32, n: Numbers) -> bool {
    match keyword {
        MASS | INERTIA => warn_inverse(study, n.x_at, typed(study.text, n.x_at), n.x),
        _ => false,
    }
}

fn warn_numbers(study: Study, kind: u32, w: Word, n: Numbers) -> bool {
    let keyword = item_keyword(study.text, w);
    warn_angles(study, kind, keyword, n) | warn_mass(study, keyword, n)
}

// ---- calls

fn is_printing(keyword: u32) -> bool {
    matches!(keyword, TABLE | READ_ROWS | READ_VELOCITY | SETTLE)
}

// A joint whose masks a call changes is kept.
fn keep_call(text: &[u8], names: &[u32], st: State, keyword: u32, w: Word, changed: &mut [u32]) {
    if keyword == MASKS {
        let l = read_call(text, names, st.bodies, st.joints, false, w);
        set_word(changed, l.number as usize, 1);
    }
}

// ---- one line, and all

fn with_item(s: Reading, st: State, at: usize) -> Reading {
    Reading {
        st,
        item_at: at,
        ..s
    }
}

fn with_warning(s: Reading, warned: bool) -> Reading {
    Reading {
        warned: s.warned || warned,
        ..s
    }
}

fn with_call(s: Reading, st: State, keyword: u32) -> Reading {
    Reading {
        st,
        called: true,
        prints: s.prints || is_printing(keyword),
        ..s
    }
}

fn after_line(study: Study, seen: &mut [u32], changed: &mut [u32], s: Reading, w: Word) -> Reading {
    let st = s.st;
    match read_line(study.text, study.names, st) {
        Change::Given(n) => {
            let again = given_once(study, seen, s, w, seen_place(st.kind, n.place));
            let odd = warn_numbers(study, st.kind, w, n);
            with_warning(s, again || odd)
        }
        Change::JointWord(place, _, _) => {
            let from = seen_place(st.kind, joint_word(place));
            with_warning(s, given_once(study, seen, s, w, from))
        }
        Change::OpenSettings => with_item(
            s,
            opened(st, SETTINGS_ITEM, st.item, st.bodies, st.joints),
            w.start,
        ),
        Change::OpenBody(_, bodies) => with_item(
            s,
            opened(st, BODY_ITEM, st.bodies, bodies, st.joints),
            w.start,
        ),
        Change::OpenJoint(_, joints, _) => with_item(
            s,
            opened(st, JOINT_ITEM, st.joints, st.bodies, joints),
            w.start,
        ),
        Change::Call(keyword, at) => {
            keep_call(study.text, study.names, st, keyword, w, changed);
            with_call(s, called(st, keyword, at), keyword)
        }
        Change::Nothing | Change::Wrong(_, _) => s,
    }
}

// A joint's words are kept after its numbers.
fn joint_word(place: u32) -> u32 {
    if place < 20 {
        return NUMBERS_WIDTH as u32 + place;
    }
    63
}

fn scanned(text: &[u8], s: Reading) -> Reading {
    Reading {
        st: reached(s.st, next_line(text, s.st.at)),
        ..s
    }
}

fn scan_line(study: Study, seen: &mut [u32], changed: &mut [u32], s: Reading) -> Reading {
    let w = next_word(study.text, s.st.at);
    scanned(study.text, after_line(study, seen, changed, s, w))
}

fn scan_lines(study: Study, seen: &mut [u32], changed: &mut [u32]) -> Reading {
    let mut s = Reading {
        st: start(),
        item_at: 0,
        warned: false,
        called: false,
        prints: false,
    };
    for _ in 0..study.text.len() {
        if study.text.len() <= s.st.at {
            return s;
        }
        s = scan_line(study, &mut *seen, &mut *changed, s);
    }
    s
}

// Reads the lines of a text that can be read once more; which joints' masks are changed by a call is written to `changed`.
pub fn scan(study: Study, changed: &mut [u32]) -> Reading {
    let mut seen = [0u32; 128];
    scan_lines(study, &mut seen, changed)
}
