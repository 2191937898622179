// Document 01's cases about models, and the edges of its rules.
use crate::line::{Call, Given, Line, float_at, whole_at};
use crate::show::{ended, refused, show, show_number, show_truth, show_vector};
use floats::bits::to_bits;
use floats::pose::Pose;
use floats::rotation_ops::Rotation;
use floats::vector::Vector;
use model::calls::{
    build, load, place, read_rows, read_velocity, remove_bias, set_masks, set_targets, sweep,
    warm_start, write_back,
};
use multibody::header::Header;
use multibody::refusal::Refusal;
use rows::generic_joint::Masks;
use rows::integration_parameters::IntegrationParameters;
use rows::joint_velocity_constraint::blank_row;
use study_reader::words::{Word, bytes_of, next_line};

// Where the next line is; the header of the next calls; how much of the bodies, of the words and of the rows they are given; the count that the last
// one left (the rows that were read, or the motors of joint 0 at a bound); whether a sweep changed nothing.
#[derive(Clone, Copy)]
pub struct State {
    pub at: usize,
    header: Header,
    bodies: usize,
    words: usize,
    rows: usize,
    count: usize,
    unchanged: bool,
}

fn header(dt: f32, built: bool) -> Header {
    Header {
        params: IntegrationParameters {
            dt,
            length_unit: 1.0,
            normalized_max_corrective_velocity: 10.0,
        },
        built,
    }
}

// A model's storage, or as much of it as calls are given.
#[derive(Drop)]
pub struct Storage<'a> {
    pub bodies: &'a mut [f32],
    pub words: &'a mut [u32],
    pub numbers: &'a mut [f32],
    pub rows: &'a mut [f32],
}

impl Storage<'_> {
    // Every joint is between bodies 0 and 1.
    pub fn draw_words(&mut self) {
        for (i, word) in self.words.iter_mut().enumerate() {
            if i % 12 == 1 {
                *word = 1;
            }
        }
    }

    // As much of it as calls are given, if there is as much.
    pub fn given(&mut self, s: &State) -> Option<Storage<'_>> {
        let Storage {
            bodies,
            words,
            numbers,
            rows,
        } = self;
        if bodies.len() < s.bodies || words.len() < s.words || rows.len() < s.rows {
            return None;
        }
        Some(Storage {
            bodies: &mut bodies[..s.bodies],
            words: &mut words[..s.words],
            numbers,
            rows: &mut rows[..s.rows],
        })
    }
}

// ---- what a model is given

fn set<T: Drop>(s: &mut [T], at: usize, x: T) {
    if let Some(place) = s.get_mut(at) {
        *place = x;
    }
}

// ---- calls

// A pose without a turn, at a place of the x axis.
fn pose(x: f32) -> Pose {
    Pose {
        rotation: Rotation { re: 1.0, im: 0.0 },
        translation: Vector { x, y: 0.0 },
    }
}

// A joint that locks y and the angle, with other limits and motors (request R-10).
fn masks(limit_axes: u32, motor_axes: u32) -> Masks {
    Masks {
        locked_axes: 6,
        limit_axes,
        motor_axes,
        coupled_axes: 0,
    }
}

fn checksum(h: u32, s: &[f32]) -> u32 {
    s.iter()
        .fold(h, |sum, x| sum.wrapping_mul(31).wrapping_add(to_bits(*x)))
}

// The number of a build's rows.
fn show_built(rt: HostRuntime, answer: Result<(Header, usize), Refusal>) {
    match answer {
        Ok((_, n)) => show_number(rt, n),
        Err(k) => refused(rt, k),
    }
}

impl State {
    pub fn start() -> State {
        State {
            at: 0,
            header: header(0.5, false),
            bodies: 0,
            words: 0,
            rows: 0,
            count: 0,
            unchanged: false,
        }
    }

    pub fn give(&mut self, text: &[u8], given: Given, l: &Line, storage: &mut Storage) {
        let at = whole_at(text, l.a) as usize;
        match given {
            Given::Header => self.header = header(float_at(text, l.a), whole_at(text, l.b) == 1),
            Given::Sizes => {
                self.bodies = at;
                self.words = whole_at(text, l.b) as usize;
                self.rows = whole_at(text, l.c) as usize;
            }
            Given::Body => set(storage.bodies, at, float_at(text, l.b)),
            Given::Word => set(storage.words, at, whole_at(text, l.b)),
            Given::Number => set(storage.numbers, at, float_at(text, l.b)),
        }
    }

    // A line whose answer is printed after its name. The bytes of a motor table stand after its line; its argument says how many.
    pub fn call(&mut self, rt: HostRuntime, text: &[u8], call: Call, l: &Line, storage: Storage) {
        let Storage {
            bodies,
            words,
            numbers,
            rows,
        } = storage;
        let h = self.header;
        let n = whole_at(text, l.a);
        match call {
            Call::Load => ended(rt, load(h, bodies, words, numbers, rows)),
            Call::Place => {
                let pose = pose(float_at(text, l.b));
                ended(rt, place(h, bodies, words, numbers, n, pose))
            }
            Call::Build => {
                let answer = build(h, bodies, words, numbers, rows, None, n);
                show_built(rt, answer)
            }
            // A warm build has its coefficient after its substep.
            Call::WarmBuild => {
                let warmstart = Some(float_at(text, l.b));
                let answer = build(h, bodies, words, numbers, rows, warmstart, n);
                show_built(rt, answer)
            }
            Call::WarmStart => ended(rt, warm_start(h, bodies, words, numbers, rows)),
            Call::Sweep => {
                let before = checksum(checksum(0, bodies), rows);
                let swept = sweep(h, bodies, words, numbers, rows, n);
                self.count = swept.map_or(0, |counts| counts[0] as usize);
                ended(rt, swept);
                self.unchanged = before == checksum(checksum(0, bodies), rows);
            }
            Call::RemoveBias => ended(rt, remove_bias(h, bodies, words, numbers, rows)),
            Call::WriteBack => ended(rt, write_back(h, bodies, words, numbers, rows)),
            Call::ReadRows => {
                let read = read_rows(h, bodies, words, numbers, rows, n);
                self.count = read.map_or(0, |(_, made)| made.len);
                ended(rt, read);
            }
            Call::ReadVelocity => { ended(rt, read_velocity(h, bodies, words, numbers, n)) }
            Call::SetTargets => {
                let start = self.at;
                let end = start.saturating_add(n as usize);
                let table = bytes_of(text, Word { start, end });
                ended(rt, set_targets(h, bodies, words, numbers, table));
                self.at = next_line(text, end);
            }
            // The bounds of the third row of a joint, or of a blank row.
            Call::Bounds => {
                let read = read_rows(h, bodies, words, numbers, rows, n);
                let row = read.map_or(blank_row(), |(_, made)| made.rows[2]);
                let bounds = Vector {
                    x: row.impulse_min,
                    y: row.impulse_max,
                };
                show_vector(rt, bounds)
            }
            // The number at a place of the joints' numbers.
            Call::Target => {
                if let Some(x) = numbers.get(n as usize) {
                    show(rt, *x)
                }
            }
            Call::Count => show_number(rt, self.count),
            Call::Unchanged => show_truth(rt, self.unchanged),
            // Whether the model is still built.
            Call::Masks => {
                let masks = masks(whole_at(text, l.b), whole_at(text, l.c));
                match set_masks(h, bodies, words, numbers, rows, n, masks) {
                    Ok(after) => show_truth(rt, after.built),
                    Err(k) => refused(rt, k),
                }
            }
            Call::StoredWord => {
                if let Some(word) = words.get(n as usize) {
                    show_number(rt, *word as usize)
                }
            }
        }
    }
}
