// Runs studies that are written as text. docs/STUDY.md describes them.
#![tactic(auto)]

mod csv;
mod draw;
mod faults;
mod help;
mod input;
mod model_text;
mod near;
mod out;
mod place;
mod plan;
mod records;
mod refusals;
mod repeated;
mod residual;
mod run;
mod scale;
mod seeds;
mod table;
mod targets;
mod warnings;
mod xml;

use csv::{Records, out_csv_heading};
use draw::draw;
use faults::say_fault;
use help::{help, version};
use input::{arg_count, open, read_all, say_argument};
use model::layout::{BODY_WIDTH, NUMBERS_WIDTH, ROW_WIDTH, WORDS_WIDTH};
use model_text::print_model;
use near::suggest;
use out::Console;
use place::Study;
use plan::check_calls;
use run::{Stop, Storage, check_study, run_study};
use seeds::seeded_after;
use std::fs::{File, OpenOptions};
use std::io;
use std::io::{Read, Write};
use std::rt::Env;
use study_reader::read::read_study;
use study_reader::storage::{BODIES, JOINTS, MOST, NAMES, NUMBERS, ORIGINS, WORDS};
use study_reader::words::Word;
use warnings::warnings;

// The numbers of all bodies that are read, of all joints, and of six rows a joint.
const BODY_NUMBERS: usize = MOST as usize * BODY_WIDTH;

const JOINT_NUMBERS: usize = MOST as usize * NUMBERS_WIDTH;

const ROW_NUMBERS: usize = MOST as usize * 6 * ROW_WIDTH;

// What is done with a study: it is run and prints all, or the records of one kind alone.
#[derive(Clone, Copy, PartialEq, Eq)]
enum Command {
    Run,
    Csv(Records),
    Check,
    Draw,
    Print,
}

// What is asked of a study: a command, whether a warning counts, and whether the file's name goes before it all.
#[derive(Clone, Copy)]
struct Mode {
    command: Command,
    strict: bool,
    titled: bool,
}

impl Mode {
    fn new(command: Command, strict: bool) -> Mode {
        Mode {
            command,
            strict,
            titled: false,
        }
    }

    // No command stands before the files.
    fn is_bare(self) -> bool {
        self.command == Command::Run
    }

    fn records(self) -> Option<Records> {
        match self.command {
            Command::Csv(kind) => Some(kind),
            _ => None,
        }
    }

    // With --strict a warning is as bad as a text that cannot be read.
    fn with_warning(self, warned: bool, done: Result<(), Stop>) -> Result<(), Stop> {
        if self.strict && warned {
            return Err(Stop::Unread);
        }
        done
    }
}

// How the program ends: all calls are granted, one is refused, or something cannot be read or written. Of several files the worst counts; the exit status is the place in
// this list.
#[derive(Clone, Copy, PartialEq, Eq, PartialOrd, Ord)]
enum Status {
    Granted,
    Refused,
    Unread,
}

fn status_of(done: Result<(), Stop>) -> Status {
    match done {
        Ok(()) => Status::Granted,
        Err(Stop::Refused(_)) => Status::Refused,
        Err(Stop::Unread) => Status::Unread,
    }
}

// ---- what is asked of a study that was read

// The model as it was read, printed.
fn print_read(study: Study, words: &[u32; WORDS]) -> Result<(), Stop> {
    let draft = study.draft;
    let i = study.st.bodies;
    let j = study.st.joints;
    if MOST < i || MOST < j {
        return Err(Stop::Unread);
    }
    print_model(
        study.con,
        study.header(),
        &draft[BODIES..BODIES + BODY_WIDTH * i as usize],
        &words[..WORDS_WIDTH * j as usize],
        &draft[JOINTS..JOINTS + NUMBERS_WIDTH * j as usize],
    )
}

// The model as it was read, loaded; and what can be said of the calls.
fn check_read(study: Study, words: &mut [u32; WORDS]) -> Result<(), Stop> {
    let draft = study.draft;
    let i = study.st.bodies;
    let j = study.st.joints;
    if MOST < i || MOST < j {
        return Err(Stop::Unread);
    }
    let rows = [0.0f32; ROW_NUMBERS];
    check_study(
        study,
        &draft[BODIES..BODIES + BODY_WIDTH * i as usize],
        &mut words[..WORDS_WIDTH * j as usize],
        &draft[JOINTS..JOINTS + NUMBERS_WIDTH * j as usize],
        &rows,
    )?;
    check_calls(study)
}

// Of a study that was checked, that nothing was found.
fn say_checked(con: &Console, name: &[u8], warned: bool) {
    con.out(name);
    if warned {
        con.out(b": fine, with warnings\n");
    } else {
        con.out(b": fine\n");
    }
}

// The model as it was read, run; as many bodies and joints as there are.
fn run_read(study: Study, words: &mut [u32; WORDS], mode: Mode) -> Result<(), Stop> {
    let draft = study.draft;
    let i = study.st.bodies;
    let j = study.st.joints;
    if MOST < i || MOST < j {
        return Err(Stop::Unread);
    }
    let mut bodies = [0.0f32; BODY_NUMBERS];
    let mut numbers = [0.0f32; JOINT_NUMBERS];
    let mut rows = [0.0f32; ROW_NUMBERS];
    bodies.copy_from_slice(&draft[BODIES..JOINTS]);
    numbers.copy_from_slice(&draft[JOINTS..]);
    let mut on = Storage {
        bodies: &mut bodies[..BODY_WIDTH * i as usize],
        words: &mut words[..WORDS_WIDTH * j as usize],
        numbers: &mut numbers[..NUMBERS_WIDTH * j as usize],
        rows: &mut rows,
    };
    let end = run_study(study, &mut on, mode.records());
    mode.with_warning(end.warned, end.done)
}

fn commanded(study: Study, words: &mut [u32; WORDS], mode: Mode) -> Result<(), Stop> {
    match mode.command {
        Command::Draw => {
            let draft = study.draft;
            draw(study, words);
            Ok(())
        }
        Command::Print => print_read(study, words),
        Command::Check => check_read(study, words),
        Command::Run | Command::Csv(_) => run_read(study, words, mode),
    }
}

// A study's text: read, warned of, and what is asked of it; its end told.
fn study_in(con: &Console, name: &[u8], text: &[u8], mode: Mode) -> Result<(), Stop> {
    let mut draft = [0.0f32; NUMBERS];
    let mut origins = [0u32; ORIGINS];
    let mut words = [0u32; WORDS];
    let mut names = [0u32; NAMES];
    let st = read_study(text, &mut draft, &mut origins, &mut words, &mut names);
    let study = Study {
        con,
        name,
        text,
        draft: &draft,
        origins: &origins,
        names: &names,
        st,
    };
    if let Some(fault) = st.fault {
        say_fault(study, fault);
        return Err(Stop::Unread);
    }
    let runs = matches!(mode.command, Command::Run | Command::Csv(_));
    let warned = warnings(study, &words, runs);
    let done = commanded(study, &mut words, mode);
    if mode.command == Command::Check && done.is_ok() {
        say_checked(con, name, warned);
    }
    mode.with_warning(warned, done)
}

// ---- files and arguments

// A file that is no study's text: too long, or in UTF-16.
fn say_no_text(con: &Console, name: &[u8], why: &[u8]) -> Stop {
    con.err(name);
    con.err(why);
    Stop::Unread
}

// A text without its byte order mark.
fn study_of(con: &Console, name: &[u8], text: &[u8], mode: Mode) -> Result<(), Stop> {
    match text {
        [0xFF, 0xFE, ..] | [0xFE, 0xFF, ..] => Err(say_no_text(
            con,
            name,
            b":1:1: a text in UTF-16; a study is read in UTF-8 (or ASCII): save it so\n",
        )),
        [0xEF, 0xBB, 0xBF, rest @ ..] => study_in(con, name, rest, mode),
        _ => study_in(con, name, text, mode),
    }
}

// A study from standard input or a file.
fn study_from<R: Read>(con: &Console, name: &[u8], from: &mut R, mode: Mode) -> Status {
    if mode.titled {
        say_title(con, name);
    }
    let mut text = [0u8; 262144];
    match read_all(from, &mut text) {
        Ok(262144) => status_of(Err(say_no_text(
            con,
            name,
            b":1:1: a study has at most 262143 bytes\n",
        ))),
        Ok(n) => status_of(study_of(con, name, &text[..n], mode)),
        Err(error) => {
            con.fail(name, error);
            Status::Unread
        }
    }
}

fn study_input(con: &Console, mode: Mode) -> Status {
    let mut stdin = con.rt.stdin();
    study_from(con, b"standard input", &mut stdin, mode)
}

fn study_file(con: &Console, name: &[u8], mode: Mode, first: bool) -> Status {
    match open(con, name) {
        Ok(mut file) => study_from(con, name, &mut file, mode),
        Err(error) => say_missing(con, name, first, error),
    }
}

// What an argument asks for; a word that is not known is a file's name, and an option where it starts with a hyphen.
#[derive(Clone, Copy, PartialEq, Eq)]
enum Argument {
    File,
    Input,
    Asks(Command),
    Csv,
    Seeded,
    Help,
    Version,
    Tells,
    Strict,
    Reactions,
    Velocities,
    Unknown,
}

fn argument_of(arg: &[u8]) -> Argument {
    match arg {
        b"check" => Argument::Asks(Command::Check),
        b"draw" => Argument::Asks(Command::Draw),
        b"print" => Argument::Asks(Command::Print),
        b"csv" => Argument::Csv,
        b"seeded" => Argument::Seeded,
        b"help" | b"-h" | b"--help" => Argument::Help,
        b"--version" => Argument::Version,
        b"--status" => Argument::Tells,
        b"--strict" => Argument::Strict,
        b"--reactions" => Argument::Reactions,
        b"--velocities" => Argument::Velocities,
        b"-" => Argument::Input,
        [b'-', ..] => Argument::Unknown,
        _ => Argument::File,
    }
}

fn word_of(arg: &[u8]) -> Word {
    Word {
        start: 0,
        end: arg.len(),
    }
}

// A file that cannot be opened. The first word of all may have been meant as a command.
fn say_missing(con: &Console, name: &[u8], first: bool, error: io::Error) -> Status {
    if first && error.kind() == io::ErrorKind::NotFound {
        con.err(name);
        con.err(b": no such file, and no command");
        suggest(
            con,
            b"check\ncsv\ndraw\nprint\nseeded\nexample\nhelp\n",
            0,
            name,
            word_of(name),
        );
        con.err(
            b"\nstudy: the commands are check, csv, draw, report, print, seeded, example and help; `study help` says what each does\n",
        );
    } else {
        con.fail(name, error);
    }
    Status::Unread
}

// Argument i; none where there is none, or one that is longer than a name may be.
fn argument_at(con: &Console, i: usize) -> Option<Argument> {
    let mut arg = [0u8; 4096];
    let n = con.rt.arg(i, &mut arg).ok()?;
    Some(argument_of(&arg[..n]))
}

// The name between a hash and a line's end, on both outputs.
fn say_title(con: &Console, name: &[u8]) {
    con.out(b"# ");
    con.out(name);
    con.out(b"\n");
    con.err(b"# ");
    con.err(name);
    con.err(b"\n");
}

fn say_option(con: &Console, name: &[u8]) -> Status {
    con.err(b"study: ");
    con.err(name);
    con.err(b": no such option");
    suggest(
        con,
        b"--help\n--strict\n--version\n--reactions\n--velocities\n",
        0,
        name,
        word_of(name),
    );
    con.err(b"\n");
    Status::Unread
}

// The file that an argument names; a hyphen is standard input.
fn named_file(con: &Console, name: &[u8], mode: Mode, first: bool) -> Status {
    match argument_of(name) {
        Argument::Input => study_input(con, mode),
        Argument::Unknown => say_option(con, name),
        _ => study_file(con, name, mode, first),
    }
}

fn argument_file(con: &Console, i: usize, mode: Mode, first: bool) -> Status {
    let mut arg = [0u8; 4096];
    match con.rt.arg(i, &mut arg) {
        Ok(n) => named_file(con, &arg[..n], mode, first),
        Err(error) => status_of(Err(say_argument(con, error))),
    }
}

// ---- what cannot be opened is found before anything runs

fn find_file(con: &Console, name: &[u8], first: bool) -> Status {
    match argument_of(name) {
        Argument::Input => Status::Granted,
        Argument::Unknown => say_option(con, name),
        _ => match open(con, name) {
            Ok(_) => Status::Granted,
            Err(error) => say_missing(con, name, first, error),
        },
    }
}

fn find_argument(con: &Console, i: usize, first: bool) -> Status {
    let mut arg = [0u8; 4096];
    match con.rt.arg(i, &mut arg) {
        Ok(n) => find_file(con, &arg[..n], first),
        Err(error) => status_of(Err(say_argument(con, error))),
    }
}

fn find_files(con: &Console, from: usize, mode: Mode) -> Status {
    let mut status = Status::Granted;
    for i in from..arg_count(con) {
        status = status.max(find_argument(con, i, mode.is_bare() && i == from));
    }
    status
}

fn each_file(con: &Console, from: usize, mode: Mode) -> Status {
    let mut status = Status::Granted;
    for i in from..arg_count(con) {
        status = status.max(argument_file(con, i, mode, mode.is_bare() && i == from));
        if con.is_out_lost() {
            return Status::Unread;
        }
    }
    status
}

// Each file from argument i on.
fn files(con: &Console, from: usize, mode: Mode) -> Status {
    let several = from.saturating_add(1) < arg_count(con);
    if several {
        if mode.command == Command::Draw {
            con.err(
                b"study: a picture is of one file; `study draw FILE... --to DIR` writes several\n",
            );
            return Status::Unread;
        }
        let missing = find_files(con, from, mode);
        if missing != Status::Granted {
            return missing;
        }
    }
    let records = mode.records();
    if let Some(kind) = records {
        out_csv_heading(con, kind);
    }
    each_file(
        con,
        from,
        Mode {
            titled: several && records.is_none(),
            ..mode
        },
    )
}

// The files after a word that asks for some.
fn files_after(con: &Console, i: usize, mode: Mode) -> Status {
    let from = i.saturating_add(1);
    if arg_count(con) <= from {
        con.err(
            b"study: expected the name of a file after `check`, `csv`, `draw` or `print`; - is standard input\n",
        );
        return Status::Unread;
    }
    files(con, from, mode)
}

// After a command, `--strict` may stand before the files.
fn files_of(con: &Console, i: usize, command: Command, strict: bool) -> Status {
    let next = i.saturating_add(1);
    match argument_at(con, next) {
        Some(Argument::Strict) => files_after(con, next, Mode::new(command, true)),
        _ => files_after(con, i, Mode::new(command, strict)),
    }
}

// The records of one kind: rows, unless an option after the word says otherwise.
fn records_of(con: &Console, i: usize, strict: bool) -> Status {
    let next = i.saturating_add(1);
    let (at, kind) = match argument_at(con, next) {
        Some(Argument::Reactions) => (next, Records::Reactions),
        Some(Argument::Velocities) => (next, Records::Velocities),
        _ => (i, Records::Rows),
    };
    files_after(con, at, Mode::new(Command::Csv(kind), strict))
}

// The arguments from i on.
fn asked(con: &Console, i: usize, strict: bool) -> Status {
    let mode = Mode::new(Command::Run, strict);
    match argument_at(con, i) {
        None => study_input(con, mode),
        Some(Argument::Help) => {
            help(con);
            Status::Granted
        }
        Some(Argument::Version) => {
            version(con);
            Status::Granted
        }
        Some(Argument::Seeded) => status_of(seeded_after(con, i)),
        Some(Argument::Asks(command)) => files_of(con, i, command, strict),
        Some(Argument::Csv) => records_of(con, i, strict),
        Some(Argument::File | Argument::Input) => files(con, i, mode),
        Some(
            Argument::Tells
            | Argument::Strict
            | Argument::Reactions
            | Argument::Velocities
            | Argument::Unknown,
        ) => option_at(con, i),
    }
}

fn option_at(con: &Console, i: usize) -> Status {
    let mut arg = [0u8; 4096];
    match con.rt.arg(i, &mut arg) {
        Ok(n) => say_option(con, &arg[..n]),
        Err(_) => say_option(con, b""),
    }
}

// `--strict` stands before the command or after it.
fn asked_from(con: &Console, i: usize) -> Status {
    match argument_at(con, i) {
        Some(Argument::Strict) => asked(con, i.saturating_add(1), true),
        _ => asked(con, i, false),
    }
}

// With --status as its first argument the program writes its status, one digit, to descriptor 3.
fn tell(con: &Console, status: Status) {
    if let Ok(mut file) = OpenOptions::new().append(true).open(&con.rt, "/dev/fd/3") {
        tell_to(&mut file, status as u8);
    }
}

fn tell_to(file: &mut File, status: u8) {
    let _ = write!(file, "{status}");
}

// What was to be written and was not makes the status 2.
fn ended(con: &Console, status: Status) -> Status {
    if con.is_out_lost() {
        con.err(b"study: standard output is closed or was not written to its end\n");
        return Status::Unread;
    }
    if con.is_err_lost() {
        return Status::Unread;
    }
    status
}

fn main(rt: HostRuntime) {
    let con = Console::new(rt);
    if argument_at(&con, 1) == Some(Argument::Tells) {
        let status = ended(&con, asked_from(&con, 2));
        tell(&con, status);
    } else {
        ended(&con, asked_from(&con, 1));
    }
}
