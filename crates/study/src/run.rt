// The calls of a study, in order: study_run runs each line, and what its call says is printed. The first refused call ends it.
use crate::csv::{Records, Table, record_table};
use crate::out::Console;
use crate::place::Study;
use crate::refusals::{say_rule, say_where};
use crate::residual::{largest, out_residual, say_rounds, warn_residual};
use crate::table::{Model, print_rows, print_table};
use crate::targets::set_named_targets;
use multibody::header::Header;
use multibody::refusal::Refusal;
use rows::joint_velocity_constraint::SolverVel;
use study_reader::names::body_name;
use study_reader::words::{Word, bytes_of, next_word};
use study_run::motors::Motors;
use study_run::places::Place;
use study_run::runs::{Done, Reply, run_load};
use study_run::turns::{Told, Turned, turn};
use study_text::velocity::write_velocity;

// Why a study ends early: a call is refused, or something cannot be read or written.
#[derive(Clone, Copy, PartialEq, Eq)]
pub enum Stop {
    Refused(Refusal),
    Unread,
}

// How far a study is: the line that comes next, and what is by value of what the calls work on; whether there was a warning; of which records a table prints
// nothing else (none: it prints all); and how many tables were printed.
#[derive(Clone, Copy)]
struct Run {
    place: Place,
    header: Header,
    motors: Motors,
    warned: bool,
    kind: Option<Records>,
    tables: u32,
}

// How a run ended: at which line, whether there was a warning before it, and what ended it early.
#[derive(Clone, Copy)]
pub struct Ended {
    at: usize,
    pub warned: bool,
    pub done: Result<(), Stop>,
}

// What the calls work on.
#[derive(Drop)]
pub struct Storage<'a> {
    pub bodies: &'a mut [f32],
    pub words: &'a mut [u32],
    pub numbers: &'a mut [f32],
    pub rows: &'a mut [f32],
}

impl Storage<'_> {
    fn model(&self, header: Header) -> Model<'_> {
        Model {
            header,
            bodies: self.bodies,
            words: self.words,
            numbers: self.numbers,
            rows: self.rows,
        }
    }
}

pub fn granted(done: Done) -> Result<(), Stop> {
    match done.reply {
        Ok(_) => Ok(()),
        Err(refusal) => Err(Stop::Refused(refusal)),
    }
}

// ---- what is told of a refusal

// Where a call was refused, with which number, and what broke the rule.
fn say_refused(
    study: Study,
    bodies: &[f32],
    words: &[u32],
    numbers: &[f32],
    call: usize,
    refusal: Refusal,
) {
    let con = study.con;
    study.say_place(call);
    con.err(b"refused with ");
    say_rule(con, refusal);
    con.err(b"; here: ");
    say_where(study, bodies, words, numbers, call, refusal);
}

// What stopped a study at a call, told where that is a refusal.
fn say_stop(
    study: Study,
    bodies: &[f32],
    words: &[u32],
    numbers: &[f32],
    call: usize,
    done: Result<(), Stop>,
) {
    if let Err(Stop::Refused(refusal)) = done {
        say_refused(study, bodies, words, numbers, call, refusal);
    }
}

// Loads and runs nothing.
pub fn check_study(
    study: Study,
    bodies: &[f32],
    words: &mut [u32],
    numbers: &[f32],
    rows: &[f32],
) -> Result<(), Stop> {
    let done = granted(run_load(study.header(), bodies, words, numbers, rows, None));
    say_stop(study, bodies, words, numbers, study.st.calls, done);
    done
}

// How far a long study is, where somebody watches.
fn say_progress(con: &Console, calls: u64) {
    if calls % 100000 == 0 && con.is_watched() {
        con.err(b"study: ");
        con.err_number(calls);
        con.err(b" calls\n");
    }
}

// ---- what is printed

// A body's velocity, by its name.
fn velocity_line(study: Study, i: u32, v: SolverVel) {
    let name = bytes_of(study.text, body_name(study.names, i));
    let mut line = [0u8; 4096];
    let n = write_velocity(&mut line, name, v.linear.x, v.linear.y, v.angular);
    study.con.out_part(&line, 0, n);
}

// What a call asks to be printed of the model: a joint's rows, a body's velocity, or after how many rounds the rows are settled or not, with the row of the largest residual.
fn print_reply(study: Study, on: &Storage, t: Turned, reply: Reply) {
    let con = study.con;
    match reply {
        Reply::Rows(j) => print_rows(study, on.model(t.header), t.motors, j),
        Reply::Velocity(i, v) => velocity_line(study, i, v),
        Reply::Settled(settled, n) => {
            say_rounds(con, settled, n);
            out_residual(study, largest(on.model(t.header), study.st.joints));
        }
        _ => (),
    }
}

// ---- the run after a turn

// The next line.
fn went(r: Run, t: Turned) -> Run {
    Run {
        place: t.place,
        header: t.header,
        motors: t.motors,
        ..r
    }
}

// Standard output that cannot be written ends a study too.
fn printed(con: &Console, r: Run, t: Turned) -> Result<Run, Stop> {
    if con.is_out_lost() {
        return Err(Stop::Unread);
    }
    Ok(went(r, t))
}

// A table, or its records, and what its numbers say of themselves.
fn table_turn(study: Study, on: &Storage, r: Run, t: Turned, csv: bool) -> Result<Run, Stop> {
    let con = study.con;
    let at = next_word(study.text, r.place.at).start;
    let number = r.tables.saturating_add(1);
    let model = on.model(t.header);
    let most = largest(model, study.st.joints);
    match r.kind {
        None => print_table(study, model, t.motors, csv, most),
        Some(kind) => record_table(study, model, t.motors, Table { at, number }, kind),
    }
    let next = printed(con, r, t)?;
    let warned = warn_residual(study, at, most);
    Ok(Run {
        warned: r.warned || warned,
        tables: number,
        ..next
    })
}

// The motor table that a call names. (Three of the four are only read; a `&` of one field of a `Storage` beside a `&mut` of another gets no proof yet.)
fn targets_turn(
    study: Study,
    bodies: &mut [f32],
    words: &mut [u32],
    numbers: &mut [f32],
    rows: &mut [f32],
    r: Run,
    t: Turned,
    w: Word,
) -> Result<Run, Stop> {
    set_named_targets(study, w, t.header, bodies, words, numbers, rows, t.motors)?;
    printed(study.con, r, t)
}

// What a call said: printed, fetched, or the end.
fn replied(study: Study, on: &mut Storage, r: Run, t: Turned, reply: Reply) -> Result<Run, Stop> {
    match reply {
        Reply::Granted => Ok(went(r, t)),
        Reply::Table(csv) => table_turn(study, on, r, t, csv),
        Reply::Targets(start, end) => targets_turn(
            study,
            on.bodies,
            on.words,
            on.numbers,
            on.rows,
            r,
            t,
            Word { start, end },
        ),
        Reply::Rows(_) | Reply::Velocity(_, _) | Reply::Settled(_, _) => {
            if r.kind.is_none() {
                print_reply(study, on, t, reply);
            }
            printed(study.con, r, t)
        }
    }
}

// ---- all calls

// One line; none is left at the text's end.
fn run_turn(study: Study, on: &mut Storage, r: Run) -> Result<Option<Run>, Stop> {
    let st = study.st;
    let t = turn(
        study.text,
        study.names,
        st.bodies,
        st.joints,
        r.place,
        r.header,
        on.bodies,
        on.words,
        on.numbers,
        on.rows,
        r.motors,
    );
    match t.told {
        Told::Over => Ok(None),
        Told::Passed => Ok(Some(went(r, t))),
        Told::Called(Ok(reply)) => Ok(Some(replied(study, on, r, t, reply)?)),
        Told::Called(Err(refusal)) => Err(Stop::Refused(refusal)),
    }
}

fn ended_at(r: Run, done: Result<(), Stop>) -> Ended {
    Ended {
        at: r.place.at,
        warned: r.warned,
        done,
    }
}

// All calls, as far as the first that is refused.
fn run_calls(study: Study, on: &mut Storage, start: Run) -> Ended {
    let mut r = start;
    for calls in 0..1000000000000000u64 {
        let next = run_turn(study, on, r);
        say_progress(study.con, calls + 1);
        match next {
            Ok(Some(s)) => r = s,
            Ok(None) => return ended_at(r, Ok(())),
            Err(stop) => return ended_at(r, Err(stop)),
        }
    }
    ended_at(r, Ok(()))
}

// Tells where the call was refused that ended a run.
fn say_ended(study: Study, on: &Storage, end: Ended) {
    let call = next_word(study.text, end.at).start;
    say_stop(study, on.bodies, on.words, on.numbers, call, end.done);
}

pub fn run_study(study: Study, on: &mut Storage, kind: Option<Records>) -> Ended {
    let start = Run {
        place: Place {
            at: study.st.calls,
            first: 0,
            left: 0,
        },
        header: study.header(),
        motors: None,
        warned: false,
        kind,
        tables: 0,
    };
    let end = run_calls(study, on, start);
    say_ended(study, on, end);
    end
}
