// A picture of a study as it was read, in SVG: bodies as discs, a joint's first frame as a square and its second as a ring, tied to their bodies and to
// each other, the world as ground, stops as arcs and bars, velocities as arrows, a bar for the scale. The labels stand in a column, each at the end of
// a line from what it names. The larger side of what is drawn is 8000 units; numbers are written as millionths, so that a unit is a millionth.
use crate::csv::out_spelled;
use crate::out::Console;
use crate::place::Study;
use crate::records::{
    body_at, body_number, frame1_at, frame1_rotation, frame2_at, frame2_rotation, joint_number,
    joint_word,
};
use crate::residual::size;
use crate::scale::out_scale;
use crate::table::out_id;
use crate::xml::out_escaped;
use floats::rotation_ops::Rotation;
use floats::scalar::is_finite;
use floats::sin_cos::rotation_from_angle;
use floats::vector::Vector;
use model::layout::WORLD;
use rows::generic_joint::Masks;
use rows::row_ids::{RowIds, row_ids};

// ---- the part of the plane that is drawn

fn least(a: f32, b: f32) -> f32 {
    if b < a { b } else { a }
}

fn most(a: f32, b: f32) -> f32 {
    if a < b { b } else { a }
}

// A rectangle, of one point at least.
#[derive(Clone, Copy)]
struct Frame {
    left: f32,
    right: f32,
    low: f32,
    high: f32,
}

impl Frame {
    fn of(p: Vector) -> Frame {
        Frame {
            left: p.x,
            right: p.x,
            low: p.y,
            high: p.y,
        }
    }

    fn with(self, p: Vector) -> Frame {
        Frame {
            left: least(self.left, p.x),
            right: most(self.right, p.x),
            low: least(self.low, p.y),
            high: most(self.high, p.y),
        }
    }

    // A single point is drawn as if its picture were a metre wide.
    fn span(self) -> f32 {
        let s = most(self.right - self.left, self.high - self.low);
        if s > 0.0 && is_finite(s) { s } else { 1.0 }
    }
}

// A point that is not finite is not drawn in its place, and widens nothing.
fn widened(frame: Option<Frame>, p: Vector) -> Option<Frame> {
    if !is_finite(p.x) || !is_finite(p.y) {
        return frame;
    }
    match frame {
        Some(f) => Some(f.with(p)),
        None => Some(Frame::of(p)),
    }
}

// What all bodies and joints span; the origin, where they have no point.
fn frame_of(study: Study, words: &[u32]) -> Frame {
    let draft = study.draft;
    let mut frame = None;
    for i in 0..study.st.bodies {
        frame = widened(frame, body_at(draft, i));
    }
    for j in 0..study.st.joints {
        frame = widened(frame, frame1_at(draft, words, j));
        frame = widened(frame, frame2_at(draft, words, j));
    }
    frame.unwrap_or(Frame::of(Vector { x: 0.0, y: 0.0 }))
}

// ---- the picture

// So many units.
fn units(n: f32) -> f32 {
    n * 0.000001
}

// A number of the picture, not far outside; 0 for what is none.
fn inside(x: f32) -> f32 {
    if x != x {
        return 0.0;
    }
    least(most(x, -0.1), 0.1)
}

fn beside(p: Vector, x: f32, y: f32) -> Vector {
    Vector {
        x: p.x + units(x),
        y: p.y + units(y),
    }
}

fn small(n: u32) -> f32 {
    std::num::nearest_u32_to_f32(n)
}

// Where the plane's points stand in the picture; how many labels there are, and how far one is below the other; the largest component of a body's
// velocity, and the length of an arrow for 1 m/s.
#[derive(Clone, Copy)]
struct Picture {
    left: f32,
    high: f32,
    scale: f32,
    width: f32,
    height: f32,
    labels: u32,
    pitch: f32,
    fastest: f32,
    arrow: f32,
}

fn count_of(bodies: u32, joints: u32) -> u32 {
    if 129 < bodies || 129 < joints {
        return 0;
    }
    bodies + joints
}

// Labels fill the picture's height, and are at least 270 units apart.
fn pitch_of(height: f32, labels: u32) -> f32 {
    if labels < 2 {
        return units(270.0);
    }
    most(units(270.0), height / small(labels - 1))
}

// The longest arrow is 1200 units.
fn arrow_of(fastest: f32) -> f32 {
    if fastest > 0.0 {
        inside(units(1200.0) / fastest)
    } else {
        0.0
    }
}

impl Picture {
    fn of(f: Frame, labels: u32, fastest: f32) -> Picture {
        let scale = 0.008 / f.span();
        let height = inside((f.high - f.low) * scale);
        Picture {
            left: f.left,
            high: f.high,
            scale,
            width: inside((f.right - f.left) * scale),
            height,
            labels,
            pitch: pitch_of(height, labels),
            fastest,
            arrow: arrow_of(fastest),
        }
    }

    fn at(self, p: Vector) -> Vector {
        Vector {
            x: inside((p.x - self.left) * self.scale),
            y: inside((self.high - p.y) * self.scale),
        }
    }

    // The height with all labels.
    fn full_height(self) -> f32 {
        most(self.height, self.pitch * small(self.labels))
    }
}

// ---- elements

#[derive(Clone, Copy)]
enum Class {
    Ground,
    Needle,
    Stop,
    Tie,
    Between,
    Ring,
    Joint,
    Body,
    Velocity,
    Leader,
    Scale,
}

impl Class {
    fn name(self) -> &'static [u8] {
        match self {
            Class::Ground => b"ground",
            Class::Needle => b"needle",
            Class::Stop => b"stop",
            Class::Tie => b"tie",
            Class::Between => b"between",
            Class::Ring => b"ring",
            Class::Joint => b"joint",
            Class::Body => b"body",
            Class::Velocity => b"velocity",
            Class::Leader => b"leader",
            Class::Scale => b"scale",
        }
    }
}

// What stands before a number, and the number.
fn put(con: &Console, before: &[u8], x: f32) {
    con.out(before);
    con.out_millionths(inside(x));
}

fn end_element(con: &Console, class: Class) {
    con.out(b"\" class=\"");
    con.out(class.name());
    con.out(b"\"/>\n");
}

fn line(con: &Console, from: Vector, to: Vector, class: Class) {
    put(con, b"<line x1=\"", from.x);
    put(con, b"\" y1=\"", from.y);
    put(con, b"\" x2=\"", to.x);
    put(con, b"\" y2=\"", to.y);
    end_element(con, class);
}

fn circle(con: &Console, p: Vector, r: f32, class: Class) {
    put(con, b"<circle cx=\"", p.x);
    put(con, b"\" cy=\"", p.y);
    put(con, b"\" r=\"", r);
    end_element(con, class);
}

fn square(con: &Console, p: Vector) {
    put(con, b"<rect x=\"", p.x - units(70.0));
    put(con, b"\" y=\"", p.y - units(70.0));
    put(con, b"\" width=\"", units(140.0));
    put(con, b"\" height=\"", units(140.0));
    end_element(con, Class::Joint);
}

// Which of the arcs between two ends is meant: counterclockwise, clockwise, and counterclockwise by more than half a circle.
#[derive(Clone, Copy)]
enum Turn {
    Counter,
    Clockwise,
    Large,
}

impl Turn {
    fn flags(self) -> &'static [u8] {
        match self {
            Turn::Counter => b" 0 0 0 ",
            Turn::Clockwise => b" 0 0 1 ",
            Turn::Large => b" 0 1 0 ",
        }
    }
}

// A part of a circle: its ends and its radius.
fn arc(con: &Console, from: Vector, to: Vector, r: f32, turn: Turn, class: Class) {
    put(con, b"<path d=\"M ", from.x);
    put(con, b" ", from.y);
    put(con, b" A ", r);
    put(con, b" ", r);
    put(con, turn.flags(), to.x);
    put(con, b" ", to.y);
    con.out(b" ");
    end_element(con, class);
}

// A line with strokes below it.
fn ground(con: &Console, p: Vector) {
    let stroke = |from: Vector, to: Vector| line(con, from, to, Class::Ground);
    stroke(beside(p, -220.0, 70.0), beside(p, 220.0, 70.0));
    stroke(beside(p, -220.0, 190.0), beside(p, -130.0, 70.0));
    stroke(beside(p, -90.0, 190.0), beside(p, 0.0, 70.0));
    stroke(beside(p, 40.0, 190.0), beside(p, 130.0, 70.0));
}

// ---- a joint's stops

// The point so far from another in the direction of a rotation.
fn away(p: Vector, turn: Rotation, r: f32) -> Vector {
    Vector {
        x: p.x + turn.re * r,
        y: p.y - turn.im * r,
    }
}

// A stroke along a rotation, from one distance of a point to another.
fn stroke(con: &Console, p: Vector, turn: Rotation, from: f32, to: f32) {
    line(con, away(p, turn, from), away(p, turn, to), Class::Stop);
}

// The angular stop: an arc from its lower to its upper end about frame 1, and a needle along frame 2.
fn angular_stop(con: &Console, p: Vector, turn1: Rotation, turn2: Rotation, low: f32, high: f32) {
    let r = units(420.0);
    line(con, p, away(p, turn2, r), Class::Needle);
    if high - low < 6.2831 {
        let from = turn1.mul(rotation_from_angle(low));
        let to = turn1.mul(rotation_from_angle(high));
        let turn = if high - low > 3.1415927 {
            Turn::Large
        } else {
            Turn::Counter
        };
        arc(con, away(p, from, r), away(p, to, r), r, turn, Class::Stop);
        stroke(con, p, from, units(340.0), units(500.0));
        stroke(con, p, to, units(340.0), units(500.0));
    } else {
        circle(con, p, r, Class::Stop);
    }
}

// A linear stop: a bar along an axis of frame 1, with a stroke at each end.
fn linear_stop(con: &Console, p: Vector, along: Rotation, across: Rotation, low: f32, high: f32) {
    let from = inside(low);
    let to = inside(high);
    stroke(con, p, along, from, to);
    stroke(con, away(p, along, from), across, units(-90.0), units(90.0));
    stroke(con, away(p, along, to), across, units(-90.0), units(90.0));
}

fn quarter(turn: Rotation) -> Rotation {
    Rotation {
        re: -turn.im,
        im: turn.re,
    }
}

fn is_drawn(m: Masks, axis: usize) -> bool {
    !m.is_coupled(axis) && m.is_limit(axis)
}

// The place of the upper end of the first coupled axis, if that is limited.
fn coupled_end(m: Masks) -> Option<usize> {
    if m.is_coupled(0) {
        return m.is_limit(0).then_some(9);
    }
    (m.is_coupled(1) && m.is_limit(1)).then_some(12)
}

// ---- joints and bodies

// The larger component's size, where it is a number that can be drawn.
fn speed(v: Vector) -> f32 {
    let s = most(size(v.x), size(v.y));
    if is_finite(s) { s } else { 0.0 }
}

// A label stands above another where its point is higher, or where it is no lower and comes earlier.
fn is_before(a: f32, b: f32, earlier: bool) -> bool {
    a > b || !(a < b) && earlier
}

// A study that is drawn, its joints' words, and where its points stand.
#[derive(Clone, Copy)]
struct Drawing<'a> {
    study: Study<'a>,
    words: &'a [u32],
    pic: Picture,
}

fn velocity_at(study: Study, i: u32) -> Vector {
    let draft = study.draft;
    Vector {
        x: body_number(draft, i, 7),
        y: body_number(draft, i, 8),
    }
}

fn fastest(study: Study) -> f32 {
    let mut s: f32 = 0.0;
    for i in 0..study.st.bodies {
        s = most(s, speed(velocity_at(study, i)));
    }
    s
}

impl Drawing<'_> {
    fn joint_number(self, j: u32, place: usize) -> f32 {
        let draft = self.study.draft;
        joint_number(draft, j, place)
    }

    fn masks(self, j: u32) -> Masks {
        Masks {
            locked_axes: joint_word(self.words, j, 2),
            limit_axes: joint_word(self.words, j, 3),
            motor_axes: joint_word(self.words, j, 4),
            coupled_axes: joint_word(self.words, j, 5),
        }
    }

    fn frame1(self, j: u32) -> Vector {
        let draft = self.study.draft;
        frame1_at(draft, self.words, j)
    }

    fn linear_stops(self, j: u32, m: Masks, p: Vector, turn: Rotation) {
        let con = self.study.con;
        let scale = self.pic.scale;
        let side = quarter(turn);
        if is_drawn(m, 0) {
            let low = self.joint_number(j, 8) * scale;
            let high = self.joint_number(j, 9) * scale;
            linear_stop(con, p, turn, side, low, high);
        }
        if is_drawn(m, 1) {
            let low = self.joint_number(j, 11) * scale;
            let high = self.joint_number(j, 12) * scale;
            linear_stop(con, p, side, turn, low, high);
        }
        // A coupled limit keeps the distance of the frames below the upper end of the first coupled axis.
        if let Some(place) = coupled_end(m) {
            let r = inside(self.joint_number(j, place) * scale);
            circle(con, p, r, Class::Stop);
        }
    }

    fn stops(self, j: u32, p: Vector) {
        let draft = self.study.draft;
        let m = self.masks(j);
        let turn1 = frame1_rotation(draft, self.words, j);
        let turn2 = frame2_rotation(draft, self.words, j);
        self.linear_stops(j, m, p, turn1);
        if m.is_limit(2) {
            let low = self.joint_number(j, 14);
            let high = self.joint_number(j, 15);
            angular_stop(self.study.con, p, turn1, turn2, low, high);
        }
    }

    // Where body i stands in the picture.
    fn body(self, i: u32) -> Vector {
        let draft = self.study.draft;
        self.pic.at(body_at(draft, i))
    }

    // A frame is tied to its body, or stands on the ground.
    fn tie(self, i: u32, p: Vector) {
        if i == WORLD {
            ground(self.study.con, p);
        } else {
            let body = self.body(i);
            line(self.study.con, body, p, Class::Tie);
        }
    }

    fn draw_joint(self, j: u32) {
        let con = self.study.con;
        let one = self.pic.at(self.frame1(j));
        let draft = self.study.draft;
        let two = self.pic.at(frame2_at(draft, self.words, j));
        self.tie(joint_word(self.words, j, 0), one);
        self.tie(joint_word(self.words, j, 1), two);
        line(con, one, two, Class::Between);
        self.stops(j, one);
        square(con, one);
        circle(con, two, units(110.0), Class::Ring);
    }

    fn draw_velocity(self, i: u32, p: Vector) {
        let v = velocity_at(self.study, i);
        if speed(v) > 0.0 {
            let to = Vector {
                x: p.x + v.x * self.pic.arrow,
                y: p.y - v.y * self.pic.arrow,
            };
            line(self.study.con, p, to, Class::Velocity);
        }
    }

    fn draw_turning(self, i: u32, p: Vector) {
        let con = self.study.con;
        let draft = self.study.draft;
        let w = body_number(draft, i, 9);
        let right = beside(p, 250.0, 0.0);
        let left = beside(p, -250.0, 0.0);
        let r = units(250.0);
        if w > 0.0 {
            arc(con, right, left, r, Turn::Counter, Class::Velocity);
        }
        if w < 0.0 {
            arc(con, left, right, r, Turn::Clockwise, Class::Velocity);
        }
    }

    fn draw_body(self, i: u32) {
        let p = self.body(i);
        circle(self.study.con, p, units(130.0), Class::Body);
        self.draw_velocity(i, p);
        self.draw_turning(i, p);
    }

    // ---- labels

    // Label k names body k, and after the bodies the joints.
    fn labelled(self, k: u32) -> Vector {
        let bodies = self.study.st.bodies;
        if k < bodies {
            let draft = self.study.draft;
            body_at(draft, k)
        } else {
            self.frame1(k - bodies)
        }
    }

    // How many labels stand above label k: those of higher points.
    fn rank_of(self, k: u32) -> u32 {
        let own = self.labelled(k);
        let mut above: u32 = 0;
        for i in 0..self.pic.labels {
            if is_before(self.labelled(i).y, own.y, i < k) {
                above += 1;
            }
        }
        above
    }

    // A leader from the point, and the text, which is open.
    fn begin_label(self, p: Vector, rank: u32) {
        let con = self.study.con;
        let y = small(rank) * self.pic.pitch;
        let x = self.pic.width + units(1600.0);
        line(con, p, Vector { x, y }, Class::Leader);
        put(con, b"<text x=\"", self.pic.width + units(1660.0));
        put(con, b"\" y=\"", y + units(70.0));
        con.out(b"\" >");
    }

    fn joint_ids(self, j: u32) {
        let con = self.study.con;
        if joint_word(self.words, j, 9) != 0 {
            con.out(b" (disabled)");
        } else {
            out_ids(con, row_ids(self.masks(j)));
        }
    }

    fn draw_label(self, k: u32) {
        let con = self.study.con;
        let bodies = self.study.st.bodies;
        self.begin_label(self.pic.at(self.labelled(k)), self.rank_of(k));
        if k < bodies {
            out_escaped(con, self.study.body_name(k));
        } else {
            out_escaped(con, self.study.joint_name(k - bodies));
            self.joint_ids(k - bodies);
        }
        con.out(b"</text>\n");
    }
}

fn out_ids(con: &Console, made: RowIds) {
    for one in made.ids.iter().take(made.len) {
        con.out(b" ");
        out_id(con, one.id);
    }
}

// ---- the whole

// Stops are drawn as far as the labels.
fn begin(con: &Console, pic: Picture) {
    con.out(b"<svg xmlns=\"http://www.w3.org/2000/svg\" viewBox=\"-1500 -1500 ");
    con.out_millionths(pic.width + units(9200.0));
    con.out(b" ");
    con.out_millionths(pic.full_height() + units(3700.0));
    con.out(
        b"\" font-family=\"sans-serif\" font-size=\"200\">
<style>
line, path, circle { fill: none; stroke-width: 24 }
.tie { stroke: #888; stroke-width: 50 }
.between { stroke: #c33; stroke-dasharray: 60 40 }
.leader { stroke: #ccc; stroke-width: 10 }
.ground, .scale { stroke: #333 }
.needle { stroke: #c33 }
.stop { stroke: #e80; clip-path: url(#drawn) }
.velocity { stroke: #283; marker-end: url(#head) }
.ring { stroke: #c33 }
.joint { fill: #c33 }
.body { fill: #369; stroke: none }
</style>
<marker id=\"head\" viewBox=\"0 0 10 10\" refX=\"8\" refY=\"5\" markerWidth=\"6\" markerHeight=\"6\" orient=\"auto\"><path d=\"M 0 0 L 10 5 L 0 10 z\" style=\"fill: #283\"/></marker>
<rect x=\"-1500\" y=\"-1500\" width=\"100%\" height=\"100%\" fill=\"white\"/>
<clipPath id=\"drawn\"><rect x=\"-1500\" y=\"-1500",
    );
    put(con, b"\" width=\"", pic.width + units(3000.0));
    put(con, b"\" height=\"", pic.full_height() + units(2500.0));
    con.out(b"\" /></clipPath>\n");
}

// The bar is a number of metres that a picture of this scale shows as 1000 to 2500 units; under it stands what the longest arrow is.
fn out_foot(con: &Console, pic: Picture) {
    let y = pic.full_height() + units(1200.0);
    let length = inside(out_scale(con, pic.scale, y));
    let low = y - units(80.0);
    let high = y + units(80.0);
    let stroke = |x1: f32, y1: f32, x2: f32, y2: f32| {
        line(
            con,
            Vector { x: x1, y: y1 },
            Vector { x: x2, y: y2 },
            Class::Scale,
        )
    };
    stroke(0.0, y, length, y);
    stroke(0.0, low, 0.0, high);
    stroke(length, low, length, high);
    if pic.fastest > 0.0 {
        put(con, b"<text x=\"", 0.0);
        put(con, b"\" y=\"", y + units(600.0));
        con.out(b"\" >longest arrow: ");
        out_spelled(con, pic.fastest);
        con.out(b" m/s along x or y</text>\n");
    }
}

// The whole picture.
pub fn draw(study: Study, words: &[u32]) {
    let con = study.con;
    let bodies = study.st.bodies;
    let joints = study.st.joints;
    let labels = count_of(bodies, joints);
    let pic = Picture::of(frame_of(study, words), labels, fastest(study));
    let drawing = Drawing { study, words, pic };
    begin(con, pic);
    for k in 0..labels {
        drawing.draw_label(k);
    }
    for j in 0..joints {
        drawing.draw_joint(j);
    }
    for i in 0..bodies {
        drawing.draw_body(i);
    }
    out_foot(con, pic);
    con.out(b"</svg>\n");
}
