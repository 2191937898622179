// What document 01 lets through and a person wants to hear about. Warnings go to standard error and change nothing; each function answers whether it
// gave one.
ghost use Rattle.std.specs.Prelude.{◌≤◌};

use crate::place::Study;
use crate::records::{
    body_number, body_origin, frame1_at, frame1_rotation, frame2_at, joint_number, joint_origin,
    joint_word,
};
use crate::repeated::scan;
use rows::generic_joint::has_axis;
use study_reader::names::{body_name, joint_name};
use study_reader::storage::{number_at, word_at};
use study_reader::words::Word;

#[derive(Clone, Copy, PartialEq, Eq)]
enum Axis {
    X,
    Y,
    Angle,
}

impl Axis {
    fn name(self) -> &'static [u8] {
        match self {
            Axis::X => b"x",
            Axis::Y => b"y",
            Axis::Angle => b"angle",
        }
    }

    fn number(self) -> usize {
        match self {
            Axis::X => 0,
            Axis::Y => 1,
            Axis::Angle => 2,
        }
    }

    // Where a joint's record has the axis's lower limit; the upper one is next.
    fn limits(self) -> usize
        ensures { result ≤ 14 }
    {
        match self {
            Axis::X => 8,
            Axis::Y => 11,
            Axis::Angle => 14,
        }
    }

    // Where it has the first of the axis's motor.
    fn motor(self) -> usize
        ensures { result ≤ 29 }
    {
        match self {
            Axis::X => 17,
            Axis::Y => 23,
            Axis::Angle => 29,
        }
    }
}

// What is told of a body, or of a joint.
#[derive(Clone, Copy)]
enum Warning {
    Body(OfBody),
    Joint(OfJoint),
    Axis(OfAxis, Axis),
}

#[derive(Clone, Copy)]
enum OfBody {
    Rotation,
    NegativeMass,
    NotNamed,
    NoMass,
    NoInertia,
}

#[derive(Clone, Copy)]
enum OfJoint {
    Frame1,
    Frame2,
    Frame1Rotation,
    Frame2Rotation,
    Centre,
    FarApart,
    Couple,
}

#[derive(Clone, Copy)]
enum OfAxis {
    Reversed,
    NotLimited,
    NoLimits,
    NotDriven,
    NoMotor,
}

impl OfBody {
    fn text(self) -> &'static [u8] {
        match self {
            OfBody::Rotation => b": its rotation is far from unit length",
            OfBody::NegativeMass => b": a negative inverse mass",
            OfBody::NotNamed => b": no joint names it",
            OfBody::NoMass => b": no mass and no inertia is given, so that no joint moves it",
            OfBody::NoInertia => b": a mass and no inertia is given, so that no joint turns it",
        }
    }
}

impl OfJoint {
    fn text(self) -> &'static [u8] {
        match self {
            OfJoint::Frame1 => b": frame1 was never given",
            OfJoint::Frame2 => b": frame2 was never given",
            OfJoint::Frame1Rotation => b": frame1's rotation is far from unit length",
            OfJoint::Frame2Rotation => b": frame2's rotation is far from unit length",
            OfJoint::Centre => b": its centre is far from unit length",
            OfJoint::FarApart =>
                b": its frames are more than a tenth of length_unit apart along a locked axis",
            OfJoint::Couple =>
                b": the first of its coupled axes is not limited; a coupled limit reads that axis's upper end alone",
        }
    }
}

impl OfAxis {
    // What stands before the axis's name, between that and its name once more, and after that.
    fn parts(self) -> (&'static [u8], Option<&'static [u8]>, &'static [u8]) {
        match self {
            OfAxis::Reversed => (b": the limits of ", None, b" are reversed"),
            OfAxis::NotLimited => (
                b": limits of ",
                Some(b" are given, and "),
                b" is not limited",
            ),
            OfAxis::NoLimits => (
                b": ",
                Some(b" is limited, and no limits of "),
                b" are given",
            ),
            OfAxis::NotDriven => (
                b": numbers of a motor of ",
                Some(b" are given, and "),
                b" is not driven",
            ),
            OfAxis::NoMotor => (
                b": ",
                None,
                b" is driven, and its motor has no number: it acts as a lock",
            ),
        }
    }
}

// A study whose warnings are sought, and its joints' words. Each method answers whether it gave a warning.
#[derive(Clone, Copy)]
struct Sought<'a> {
    study: Study<'a>,
    words: &'a [u32],
}

// A rotation's length is more than a thousandth away from 1.
fn is_far(re: f32, im: f32) -> bool {
    let length = re * re + im * im;
    length > 1.002 || length < 0.998
}

fn is_above(x: f32, most: f32) -> bool {
    x > most || x < -most
}

fn first_coupled(coupled: u32) -> usize {
    if has_axis(coupled, 0) { 0 } else { 1 }
}

// An axis whose numbers nothing reads: coupled, and not the first of the coupled ones.
fn is_idle(coupled: u32, axis: Axis) -> bool {
    let a = axis.number();
    axis != Axis::Angle && has_axis(coupled, a) && a != first_coupled(coupled)
}

// A number's offset in the text, if it was given.
fn given(origin: u32) -> Option<usize> {
    (origin != 0).then_some(origin as usize)
}

impl Sought<'_> {
    fn say(self, warning: Warning, w: Word) {
        let con = self.study.con;
        let text = self.study.text;
        match warning {
            Warning::Body(told) => {
                con.err(b"body ");
                con.err_part(text, w.start, w.end);
                con.err(told.text());
            }
            Warning::Joint(told) => {
                con.err(b"joint ");
                con.err_part(text, w.start, w.end);
                con.err(told.text());
            }
            Warning::Axis(told, axis) => {
                let (before, between, after) = told.parts();
                con.err(b"joint ");
                con.err_part(text, w.start, w.end);
                con.err(before);
                con.err(axis.name());
                if let Some(between) = between {
                    con.err(between);
                    con.err(axis.name());
                }
                con.err(after);
            }
        }
    }

    // The warning, at the word of the line that gave it.
    fn warn_at(self, at: usize, w: Word, warning: Warning) -> bool {
        self.study.begin_warning(at);
        self.say(warning, w);
        self.study.con.err(b"\n");
        self.study.show_line(at);
        true
    }

    fn warn_if(self, w: Word, warning: Warning, wrong: bool) -> bool {
        wrong && self.warn_at(w.start, w, warning)
    }

    // ---- bodies

    fn is_named(self, i: u32) -> bool {
        (0..self.study.st.joints).any(|j| joint_word(self.words, j, 0) == i
            || joint_word(self.words, j, 1) == i)
    }

    fn is_negative(self, i: u32) -> bool {
        let draft = self.study.draft;
        body_number(draft, i, 5) < 0.0 || body_number(draft, i, 6) < 0.0
    }

    // What a body that a joint names lacks, or that no joint names it.
    fn lack(self, i: u32) -> Option<OfBody> {
        let origins = self.study.origins;
        if !self.is_named(i) {
            Some(OfBody::NotNamed)
        } else if given(body_origin(origins, i, 4)).is_some() {
            None
        } else if given(body_origin(origins, i, 5)).is_some() {
            Some(OfBody::NoInertia)
        } else {
            Some(OfBody::NoMass)
        }
    }

    fn warn_body(self, i: u32) -> bool {
        let draft = self.study.draft;
        let w = body_name(self.study.names, i);
        let far = is_far(body_number(draft, i, 0), body_number(draft, i, 1));
        let turned = self.warn_if(w, Warning::Body(OfBody::Rotation), far);
        let negative = self.warn_if(w, Warning::Body(OfBody::NegativeMass), self.is_negative(i));
        let lacks = match self.lack(i) {
            Some(told) => self.warn_at(w.start, w, Warning::Body(told)),
            None => false,
        };
        turned || negative || lacks
    }

    // ---- a joint's frames

    fn is_far_at(self, j: u32, re: usize, im: usize) -> bool {
        let draft = self.study.draft;
        is_far(joint_number(draft, j, re), joint_number(draft, j, im))
    }

    // A frame of which neither the position nor the rotation was given.
    fn is_missing(self, j: u32, position: usize, rotation: usize) -> bool {
        let origins = self.study.origins;
        joint_origin(origins, j, position) == 0 && joint_origin(origins, j, rotation) == 0
    }

    fn warn_joint_if(self, w: Word, told: OfJoint, wrong: bool) -> bool {
        self.warn_if(w, Warning::Joint(told), wrong)
    }

    fn warn_frames(self, j: u32, w: Word) -> bool {
        let one = self.warn_joint_if(w, OfJoint::Frame1, self.is_missing(j, 2, 0));
        let two = self.warn_joint_if(w, OfJoint::Frame2, self.is_missing(j, 6, 4));
        let three = self.warn_joint_if(w, OfJoint::Frame1Rotation, self.is_far_at(j, 0, 1));
        let four = self.warn_joint_if(w, OfJoint::Frame2Rotation, self.is_far_at(j, 4, 5));
        one || two || three || four
    }

    fn is_apart(self, j: u32) -> bool {
        let draft = self.study.draft;
        let one = frame1_at(draft, self.words, j);
        let two = frame2_at(draft, self.words, j);
        let turn = frame1_rotation(draft, self.words, j);
        let dx = two.x - one.x;
        let dy = two.y - one.y;
        let most = number_at(draft, 1) * 0.1;
        let locked = joint_word(self.words, j, 2);
        has_axis(locked, 0) && is_above(turn.re * dx + turn.im * dy, most)
            || has_axis(locked, 1) && is_above(turn.re * dy - turn.im * dx, most)
    }

    // ---- a joint's limits and motors

    fn warn_reversed(self, j: u32, w: Word, axis: Axis) -> bool {
        let draft = self.study.draft;
        let low = joint_number(draft, j, axis.limits());
        let high = joint_number(draft, j, axis.limits() + 1);
        self.warn_if(w, Warning::Axis(OfAxis::Reversed, axis), high < low)
    }

    fn warn_limits(self, j: u32, w: Word) -> bool {
        let x = self.warn_reversed(j, w, Axis::X);
        let y = self.warn_reversed(j, w, Axis::Y);
        let angle = self.warn_reversed(j, w, Axis::Angle);
        x || y || angle
    }

    // The offset at which a number of an axis's motor is given, of its first five.
    fn motor_origin(self, j: u32, axis: Axis) -> Option<usize> {
        let origins = self.study.origins;
        let first = axis.motor();
        for place in first..first + 5 {
            let at = given(joint_origin(origins, j, place));
            if at.is_some() {
                return at;
            }
        }
        None
    }

    // An axis that a mask names or not, by whether its numbers are given; `lacks` where they should be, and `idle` where nothing reads them.
    fn warn_given(
        self,
        w: Word,
        axis: Axis,
        named: bool,
        given: Option<usize>,
        lacks: OfAxis,
        idle: OfAxis,
    ) -> bool {
        match given {
            None => self.warn_if(w, Warning::Axis(lacks, axis), named),
            Some(at) => !named && self.warn_at(at, w, Warning::Axis(idle, axis)),
        }
    }

    fn warn_axis(self, j: u32, axis: Axis, w: Word) -> bool {
        let origins = self.study.origins;
        let a = axis.number();
        if is_idle(joint_word(self.words, j, 5), axis) {
            return false;
        }
        let limited = has_axis(joint_word(self.words, j, 3), a);
        let limits = given(joint_origin(origins, j, axis.limits()));
        let driven = has_axis(joint_word(self.words, j, 4), a);
        let motor = self.motor_origin(j, axis);
        let one = self.warn_given(
            w,
            axis,
            limited,
            limits,
            OfAxis::NoLimits,
            OfAxis::NotLimited,
        );
        let two = self.warn_given(w, axis, driven, motor, OfAxis::NoMotor, OfAxis::NotDriven);
        one || two
    }

    // Coupled axes whose first is not limited, though another of them is, or nothing drives them.
    fn is_loose(self, j: u32) -> bool {
        let coupled = joint_word(self.words, j, 5) & 3;
        let limited = joint_word(self.words, j, 3);
        coupled != 0
            && !has_axis(limited, first_coupled(coupled))
            && (limited & coupled != 0 || joint_word(self.words, j, 4) & coupled == 0)
    }

    fn warn_masks(self, j: u32, w: Word) -> bool {
        let loose = self.warn_joint_if(w, OfJoint::Couple, self.is_loose(j));
        let x = self.warn_axis(j, Axis::X, w);
        let y = self.warn_axis(j, Axis::Y, w);
        let angle = self.warn_axis(j, Axis::Angle, w);
        loose || x || y || angle
    }

    // A centre that is not typed as an angle.
    fn is_far_center(self, j: u32) -> bool {
        joint_word(self.words, j, 10) == 0 && self.is_far_at(j, 40, 41)
    }

    // Where a call changes the joint's masks, nothing is said of them.
    fn warn_joint(self, j: u32, changed: bool) -> bool {
        let w = joint_name(self.study.names, j);
        let frames = self.warn_frames(j, w);
        let limits = self.warn_limits(j, w);
        let center = self.warn_joint_if(w, OfJoint::Centre, self.is_far_center(j));
        let apart = self.warn_joint_if(w, OfJoint::FarApart, self.is_apart(j));
        let masks = !changed && self.warn_masks(j, w);
        frames || limits || center || apart || masks
    }

    // ---- all of them

    fn warn_dt(self) -> bool {
        let draft = self.study.draft;
        if number_at(draft, 0) != 0.0 {
            return false;
        }
        let origins = self.study.origins;
        let at = word_at(origins, 0) as usize;
        self.study.begin_warning(at);
        self.study.con.err(b"dt is 0: a bias divides by it\n");
        self.study.show_line(at);
        true
    }
}

// Of the whole text, at its start: of a study without items and calls, or of one that is run, that nothing is called or printed.
fn whole_warning(study: Study, called: bool, prints: bool, runs: bool) -> Option<&'static [u8]> {
    let st = study.st;
    if called && runs && !prints {
        Some(b"no `table`, `read_rows`, `read_velocity` or `settle`, so that nothing is printed\n")
    } else if called {
        None
    } else if st.bodies == 0 && st.joints == 0 {
        Some(b"the study is empty\n")
    } else if runs {
        Some(b"no call, so that nothing is run\n")
    } else {
        None
    }
}

fn warn_whole(study: Study, warning: Option<&[u8]>) -> bool {
    match warning {
        Some(text) => {
            study.begin_warning(0);
            study.con.err(text);
            true
        }
        None => false,
    }
}

// Whether there was a warning.
pub fn warnings(study: Study, words: &[u32], runs: bool) -> bool {
    let mut changed = [0u32; 129];
    let s = scan(study, &mut changed);
    let sought = Sought { study, words };
    let mut told = s.warned | sought.warn_dt();
    for i in 0..study.st.bodies {
        told |= sought.warn_body(i);
    }
    for j in 0..study.st.joints {
        told |= sought.warn_joint(j, word_at(&changed, j as usize) != 0);
    }
    told | warn_whole(study, whole_warning(study, s.called, s.prints, runs))
}
