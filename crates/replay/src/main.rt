// Replays the stored answers of the unchanged Rust, from standard input: studies with lists of calls,
// each with the oracle's answer and a checksum of all storage after it. Every token is eight digits of
// hexadecimal and one byte more; oracle/README.md has the format. It prints how many lines there were, and how
// many came out otherwise than stored.
#![tactic(auto)]

ghost use Rattle.std.specs.Prelude.{◌≤◌};

use floats::bits::{from_bits, to_bits};
use floats::pose::Pose;
use floats::rotation_ops::Rotation;
use floats::vector::Vector;
use frames::frame::frame;
use model::calls::{
    build, load, place, read_rows, read_velocity, remove_bias, set_masks, set_targets, sweep,
    warm_start, write_back,
};
use multibody::header::Header;
use multibody::refusal::Refusal;
use rows::generic_joint::Masks;
use rows::integration_parameters::IntegrationParameters;
use rows::joint_velocity_constraint::{JointConstraint, Rows, SolverVel, WritebackId};
use rows::row_ids::RowIds;
use std::io;
use std::io::Read;

// ---- tokens

// What a token says, and what a checksum takes of a number, a word or a byte.
#[derive(Clone, Copy)]
struct Bits(u32);

impl From<Bits> for f32 {
    fn from(t: Bits) -> f32 {
        from_bits(t.0)
    }
}

impl From<Bits> for u32 {
    fn from(t: Bits) -> u32 {
        t.0
    }
}

impl From<Bits> for u8 {
    fn from(t: Bits) -> u8 {
        (t.0 % 256) as u8
    }
}

impl From<f32> for Bits {
    fn from(x: f32) -> Bits {
        Bits(to_bits(x))
    }
}

impl From<u32> for Bits {
    fn from(x: u32) -> Bits {
        Bits(x)
    }
}

impl From<u8> for Bits {
    fn from(x: u8) -> Bits {
        Bits(u32::from(x))
    }
}

fn digit(b: u8) -> u32 {
    match b {
        b'0'..=b'9' => (b - b'0') as u32,
        b'A'..=b'F' => (b - b'A') as u32 + 10,
        _ => 0,
    }
}

// The next token; 0 past the end.
fn token(rt: HostRuntime) -> u32 {
    let mut text = [0u8; 9];
    if rt.stdin().read_exact(&mut text).is_err() {
        return 0;
    }
    text[..8].iter().fold(0, |word, b| word << 4 | digit(*b))
}

// A slice filled with tokens.
fn read<T: From<Bits> + Drop>(rt: HostRuntime, s: &mut [T]) {
    for x in s {
        *x = T::from(Bits(token(rt)));
    }
}

// A number of a study's settings.
fn number(rt: HostRuntime) -> f32 {
    from_bits(token(rt))
}

// More studies, or more lines of a study, than this are not read, so that a damaged list ends soon.
const MOST: u32 = 1000;

// A token that counts studies or lines.
fn how_many(rt: HostRuntime) -> u32
    ensures { result ≤ 1000 }
{
    token(rt).min(MOST)
}

// ---- checksums, h·31 + x modulo 2^32 from number to number

#[derive(Clone, Copy)]
struct Checksum(u32);

impl Checksum {
    fn with<T: Into<Bits>>(self, x: T) -> Checksum {
        let t: Bits = x.into();
        Checksum(self.0.wrapping_mul(31).wrapping_add(t.0))
    }

    fn with_all<T: Copy + Into<Bits>>(self, s: &[T]) -> Checksum {
        s.iter().fold(self, |sum, x| sum.with(*x))
    }

    fn with_vector(self, v: Vector) -> Checksum {
        self.with(v.x).with(v.y)
    }

    fn with_row(self, r: &JointConstraint) -> Checksum {
        self.with(r.impulse)
            .with(r.impulse_min)
            .with(r.impulse_max)
            .with_vector(r.lin_jac)
            .with(r.ang_jac1)
            .with(r.ang_jac2)
            .with(r.ii_ang_jac1)
            .with(r.ii_ang_jac2)
            .with(r.inv_lhs)
            .with(r.rhs)
            .with(r.rhs_wo_bias)
            .with(r.cfm_gain)
            .with(r.cfm_coeff)
            .with_vector(r.im1)
            .with_vector(r.im2)
    }

    // An id is 4 times its kind (Dof, Limit, Motor) plus its axis.
    fn with_id(self, id: WritebackId) -> Checksum {
        match id {
            WritebackId::Dof(i) => self.with((i % 4) as u32),
            WritebackId::Limit(i) => self.with(4 + (i % 4) as u32),
            WritebackId::Motor(i) => self.with(8 + (i % 4) as u32),
        }
    }
}

// The numbers of an answer, which a checksum takes after those of the storage.
#[derive(Clone, Copy)]
enum Numbers {
    None,
    Counts([u8; 128]),
    Rows(Rows, RowIds),
    Velocity(SolverVel),
}

impl Numbers {
    fn after(self, sum: Checksum) -> Checksum {
        match self {
            Numbers::None => sum,
            Numbers::Counts(counts) => sum.with_all(&counts),
            Numbers::Rows(made, named) => {
                let rows = made.rows.iter().take(made.len);
                let ids = named.ids.iter().take(named.len);
                let sum = rows.fold(sum, |sum, row| sum.with_row(row));
                ids.fold(sum, |sum, one| sum.with_id(one.id))
            }
            Numbers::Velocity(v) => sum.with_vector(v.linear).with(v.angular),
        }
    }
}

// ---- one line

// How much of each storage is handed over.
#[derive(Clone, Copy)]
struct Lengths {
    bodies: usize,
    words: usize,
    numbers: usize,
    rows: usize,
}

// What the caller writes: a number of the storage, a setting, or the mark.
#[derive(Clone, Copy)]
enum Field {
    Bodies(usize),
    Words(usize),
    Numbers(usize),
    Rows(usize),
    Dt,
    LengthUnit,
    NormalizedMaxCorrectiveVelocity,
    Built,
}

impl Field {
    fn of(kind: u32, index: u32) -> Field {
        let i = index as usize;
        match (kind, index) {
            (0, _) => Field::Bodies(i),
            (1, _) => Field::Words(i),
            (2, _) => Field::Numbers(i),
            (3, _) => Field::Rows(i),
            (4, 0) => Field::Dt,
            (4, 1) => Field::LengthUnit,
            (4, _) => Field::NormalizedMaxCorrectiveVelocity,
            _ => Field::Built,
        }
    }
}

#[derive(Clone, Copy)]
enum Call {
    Load,
    Place(u32, Pose),
    Build(Option<f32>, u32),
    WarmStart,
    Sweep(u32),
    RemoveBias,
    WriteBack,
    ReadRows(u32),
    ReadVelocity(u32),
    SetTargets(usize),
    SetMasks(u32, Masks),
    Frame(Option<f32>, u32, u32),
}

// A call, or what the caller does in between: it writes, or hands over less.
#[derive(Clone, Copy)]
enum Line {
    Call(Call),
    Write(Field, u32),
    HandOver(Lengths),
}

fn pose(re: u32, im: u32, x: u32, y: u32) -> Pose {
    Pose {
        rotation: Rotation {
            re: from_bits(re),
            im: from_bits(im),
        },
        translation: Vector {
            x: from_bits(x),
            y: from_bits(y),
        },
    }
}

fn warm(given: u32, coefficient: u32) -> Option<f32> {
    if given == 0 {
        None
    } else {
        Some(from_bits(coefficient))
    }
}

impl Call {
    fn of(op: u32, [a, b, c, d, e]: [u32; 5]) -> Call {
        match op {
            0 => Call::Load,
            1 => Call::Place(a, pose(b, c, d, e)),
            2 => Call::Build(warm(a, b), c),
            3 => Call::WarmStart,
            4 => Call::Sweep(a),
            5 => Call::RemoveBias,
            6 => Call::WriteBack,
            7 => Call::ReadRows(a),
            11 => Call::SetTargets(a as usize),
            12 => {
                let masks = Masks {
                    locked_axes: b,
                    limit_axes: c,
                    motor_axes: d,
                    coupled_axes: e,
                };
                Call::SetMasks(a, masks)
            }
            13 => Call::Frame(warm(a, b), c, d),
            _ => Call::ReadVelocity(a),
        }
    }
}

impl Line {
    // The opcode and the five arguments of a line.
    fn next(rt: HostRuntime) -> Line {
        let op = token(rt);
        let mut arguments = [0u32; 5];
        read(rt, &mut arguments);
        let [a, b, c, d, _] = arguments;
        match op {
            9 => Line::Write(Field::of(a, b), c),
            10 => Line::HandOver(Lengths {
                bodies: a as usize,
                words: b as usize,
                numbers: c as usize,
                rows: d as usize,
            }),
            _ => Line::Call(Call::of(op, arguments)),
        }
    }
}

// A granted call's answer: its two words, and its numbers.
#[derive(Clone, Copy)]
struct Reply {
    high: u32,
    low: u32,
    numbers: Numbers,
}

impl Reply {
    const PLAIN: Reply = Reply {
        high: 0,
        low: 0,
        numbers: Numbers::None,
    };

    fn with(numbers: Numbers) -> Reply {
        Reply {
            high: 0,
            low: 0,
            numbers,
        }
    }

    fn counted(n: usize, numbers: Numbers) -> Reply {
        Reply {
            high: 1,
            low: (n % 4294967296) as u32,
            numbers,
        }
    }
}

// A call's answer, or why it is refused.
type Answer = Result<Reply, Refusal>;

fn write<T: From<Bits> + Drop>(s: &mut [T], i: usize, value: u32) {
    if let Some(x) = s.get_mut(i) {
        *x = T::from(Bits(value));
    }
}

// A study's storage, or as much of it as is handed over.
#[derive(Drop)]
struct Storage<'a> {
    bodies: &'a mut [f32],
    words: &'a mut [u32],
    numbers: &'a mut [f32],
    rows: &'a mut [f32],
}

impl Storage<'_> {
    // As much of it as the lengths say.
    fn first(&mut self, lengths: Lengths) -> Storage<'_> {
        let Storage {
            bodies,
            words,
            numbers,
            rows,
        } = self;
        let b = lengths.bodies.min(bodies.len());
        let w = lengths.words.min(words.len());
        let n = lengths.numbers.min(numbers.len());
        let r = lengths.rows.min(rows.len());
        Storage {
            bodies: &mut bodies[..b],
            words: &mut words[..w],
            numbers: &mut numbers[..n],
            rows: &mut rows[..r],
        }
    }

    fn read(&mut self, rt: HostRuntime) {
        read(rt, self.bodies);
        read(rt, self.words);
        read(rt, self.numbers);
        read(rt, self.rows);
    }

    fn checksum(&self) -> Checksum {
        Checksum(0)
            .with_all(self.bodies)
            .with_all(self.words)
            .with_all(self.numbers)
            .with_all(self.rows)
    }

    // The caller's write to the storage, or to the header.
    fn write(&mut self, header: &mut Header, field: Field, value: u32) {
        match field {
            Field::Bodies(i) => write(self.bodies, i, value),
            Field::Words(i) => write(self.words, i, value),
            Field::Numbers(i) => write(self.numbers, i, value),
            Field::Rows(i) => write(self.rows, i, value),
            Field::Dt => header.params.dt = from_bits(value),
            Field::LengthUnit => header.params.length_unit = from_bits(value),
            Field::NormalizedMaxCorrectiveVelocity => {
                header.params.normalized_max_corrective_velocity = from_bits(value)
            }
            Field::Built => header.built = value != 0,
        }
    }

    // A call on the storage. The bytes of a motor table stand after its line, a token each.
    fn run(self, rt: HostRuntime, header: &mut Header, call: Call) -> Answer {
        let Storage {
            bodies,
            words,
            numbers,
            rows,
        } = self;
        let h = *header;
        match call {
            Call::Load => {
                *header = load(h, bodies, words, numbers, rows)?;
                Ok(Reply::PLAIN)
            }
            Call::Place(body, pose) => {
                place(h, bodies, words, numbers, body, pose)?;
                Ok(Reply::PLAIN)
            }
            Call::Build(warmstart, substep_id) => {
                let (after, n) = build(h, bodies, words, numbers, rows, warmstart, substep_id)?;
                *header = after;
                Ok(Reply::counted(n, Numbers::None))
            }
            Call::WarmStart => {
                warm_start(h, bodies, words, numbers, rows)?;
                Ok(Reply::PLAIN)
            }
            Call::Sweep(n) => {
                let counts = sweep(h, bodies, words, numbers, rows, n)?;
                Ok(Reply::with(Numbers::Counts(counts)))
            }
            Call::RemoveBias => {
                remove_bias(h, bodies, words, numbers, rows)?;
                Ok(Reply::PLAIN)
            }
            Call::WriteBack => {
                write_back(h, bodies, words, numbers, rows)?;
                Ok(Reply::PLAIN)
            }
            Call::ReadRows(joint) => {
                let (ids, made) = read_rows(h, bodies, words, numbers, rows, joint)?;
                Ok(Reply::counted(made.len, Numbers::Rows(made, ids)))
            }
            Call::ReadVelocity(body) => {
                let v = read_velocity(h, bodies, words, numbers, body)?;
                Ok(Reply::with(Numbers::Velocity(v)))
            }
            Call::SetTargets(n) => {
                let mut space = [0u8; 400];
                let table = &mut space[..n.min(400)];
                read(rt, table);
                set_targets(h, bodies, words, numbers, table)?;
                Ok(Reply::PLAIN)
            }
            Call::SetMasks(joint, masks) => {
                *header = set_masks(h, bodies, words, numbers, rows, joint, masks)?;
                Ok(Reply::PLAIN)
            }
            Call::Frame(warmstart, sweeps, substeps) => {
                let answer = frame(h, bodies, words, numbers, rows, warmstart, sweeps, substeps);
                let (after, counts) = answer?;
                *header = after;
                Ok(Reply::with(Numbers::Counts(counts)))
            }
        }
    }
}

// A study as its lines leave it: its storage, its header, and how much of the storage calls get.
#[derive(Drop)]
struct Study<'a> {
    storage: Storage<'a>,
    header: Header,
    lengths: Lengths,
}

impl Study<'_> {
    fn run(&mut self, rt: HostRuntime, line: Line) -> Answer {
        match line {
            Line::Call(call) => {
                let lengths = self.lengths;
                self.storage.first(lengths).run(rt, &mut self.header, call)
            }
            Line::Write(field, value) => {
                self.storage.write(&mut self.header, field, value);
                Ok(Reply::PLAIN)
            }
            Line::HandOver(lengths) => {
                self.lengths = lengths;
                Ok(Reply::PLAIN)
            }
        }
    }

    // One line, done: whether its answer and the checksum are the stored ones.
    fn turn(&mut self, rt: HostRuntime) -> bool {
        let line = Line::next(rt);
        let mut stored = [0u32; 3];
        read(rt, &mut stored);
        let answer = self.run(rt, line);
        let sum = self.storage.checksum();
        match answer {
            Ok(a) => stored == [a.high, a.low, a.numbers.after(sum).0],
            Err(refusal) => stored == [0, refusal.number(), sum.0],
        }
    }
}

// How many lines were run, and how many came out otherwise.
#[derive(Clone, Copy)]
struct Count {
    lines: u32,
    wrong: u32,
}

// The next study: its lines, over storage of just its size.
fn next_study(rt: HostRuntime, storage: &mut Storage) -> Count
    ensures lines { result.lines ≤ 1000 }
    ensures wrong { result.wrong ≤ 1000 }
{
    let lengths = Lengths {
        bodies: token(rt) as usize,
        words: token(rt) as usize,
        numbers: token(rt) as usize,
        rows: token(rt) as usize,
    };
    let lines = how_many(rt);
    let params = IntegrationParameters {
        dt: number(rt),
        length_unit: number(rt),
        normalized_max_corrective_velocity: number(rt),
    };
    let mut storage = storage.first(lengths);
    storage.read(rt);
    let mut study = Study {
        storage,
        header: Header {
            params,
            built: false,
        },
        lengths,
    };
    let mut wrong = 0;
    for i in 0..lines {
        if !study.turn(rt) {
            wrong += 1;
        }
    }
    Count { lines, wrong }
}

fn main(rt: HostRuntime) -> io::Result<()> {
    let mut bodies = [0.0f32; 1300];
    let mut words = [0u32; 1600];
    let mut numbers = [0.0f32; 5500];
    let mut rows = [0.0f32; 1000];
    let mut storage = Storage {
        bodies: &mut bodies,
        words: &mut words,
        numbers: &mut numbers,
        rows: &mut rows,
    };
    let mut run = 0;
    let mut wrong = 0;
    for i in 0..how_many(rt) {
        let count = next_study(rt, &mut storage);
        run += count.lines;
        wrong += count.wrong;
    }
    println!(rt; "{run} lines, {wrong} wrong")
}
