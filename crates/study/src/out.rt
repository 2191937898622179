// Standard output and standard error.
use std::cell::Cell;
use std::io;
use std::io::IsTerminal;
use std::os::fd::{AsFd, OwnedFd};
use study_text::number::put_millionths;

// The errors of the system that are told apart, by their numbers: a descriptor that is closed; what cannot be taken as it is; a name that is too long.
const EBADF: i32 = 9;

pub const EINVAL: i32 = 22;

pub const ENAMETOOLONG: i32 = 36;

// What the program reads and writes by, and whether a write to standard output or to standard error failed, so that no more goes there.
#[derive(Drop)]
pub struct Console {
    pub rt: HostRuntime,
    out_failed: Cell<bool>,
    err_failed: Cell<bool>,
}

impl Console {
    pub fn new(rt: HostRuntime) -> Console {
        Console {
            rt,
            out_failed: Cell::new(false),
            err_failed: Cell::new(false),
        }
    }

    // Standard output takes no more: a write to it failed, or it is closed or never was open.
    pub fn is_out_lost(&self) -> bool {
        self.out_failed.get() || is_lost(self.rt.stdout().as_fd().try_clone_to_owned())
    }

    pub fn is_err_lost(&self) -> bool {
        self.err_failed.get() || is_lost(self.rt.stderr().as_fd().try_clone_to_owned())
    }

    // Whether somebody watches standard error.
    pub fn is_watched(&self) -> bool {
        self.rt.stderr().is_terminal()
    }

    // To standard error, where it takes anything.
    fn try_err(&self, s: &[u8]) {
        if !self.err_failed.get() {
            let _ = self.rt.stderr().write_all(s);
        }
    }

    // An error's text is the system's words and then its number, which is left out.
    fn try_words(&self, text: &str) {
        match text.split_once(" (os error ") {
            Some((words, _)) => self.try_err(words.as_bytes()),
            None => self.try_err(text.as_bytes()),
        }
    }

    fn try_error(&self, error: io::Error) {
        match error.to_string(self.rt.alloc()) {
            Ok(text) => self.try_words(text.as_str()),
            Err(_) => self.try_err(b"out of memory"),
        }
    }

    // A line on standard error: what failed, a colon and why.
    pub fn fail(&self, what: &[u8], error: io::Error) {
        self.try_err(what);
        self.try_err(b": ");
        self.try_error(error);
        self.try_err(b"\n");
    }

    // Of a write that failed, says why; no more goes there, so that nothing later is taken for what was lost. A descriptor that is closed says nothing more:
    // `is_out_lost` and `is_err_lost` find it so.
    fn written(&self, failed: &Cell<bool>, what: &[u8], done: io::Result<()>) {
        if let Err(error) = done {
            if !is_closed(error) {
                self.fail(what, error);
                failed.set(true);
            }
        }
    }

    fn out_written(&self, done: io::Result<()>) {
        self.written(&self.out_failed, b"study: standard output", done);
    }

    fn err_written(&self, done: io::Result<()>) {
        self.written(&self.err_failed, b"study: standard error", done);
    }

    pub fn out(&self, s: &[u8]) {
        if !self.out_failed.get() {
            self.out_written(self.rt.stdout().write_all(s));
        }
    }

    pub fn err(&self, s: &[u8]) {
        if !self.err_failed.get() {
            self.err_written(self.rt.stderr().write_all(s));
        }
    }

    pub fn err_number(&self, n: u64) {
        if !self.err_failed.get() {
            self.err_written(self.rt.stderr().print(n));
        }
    }

    pub fn out_number(&self, n: u64) {
        if !self.out_failed.get() {
            self.out_written(self.rt.stdout().print(n));
        }
    }

    // A part of the text, to standard output.
    pub fn out_part(&self, text: &[u8], start: usize, end: usize) {
        if let Some(part) = text.get(start..end) {
            self.out(part);
        }
    }

    pub fn err_part(&self, text: &[u8], start: usize, end: usize) {
        if let Some(part) = text.get(start..end) {
            self.err(part);
        }
    }

    // Entry i of a list of names, to standard error; nothing where there is none.
    pub fn err_entry(&self, names: &[&[u8]], i: usize) {
        if let Some(name) = names.get(i) {
            self.err(name);
        }
    }

    // A number's micro report.
    pub fn out_millionths(&self, x: f32) {
        let mut bytes = [0u8; 11];
        let end = put_millionths(&mut bytes, 0, x);
        self.out_part(&bytes, 0, end);
    }
}

fn is_closed(error: io::Error) -> bool {
    error.raw_os_error() == Some(EBADF)
}

fn is_lost(descriptor: io::Result<OwnedFd>) -> bool {
    match descriptor {
        Ok(_) => false,
        Err(error) => is_closed(error),
    }
}

// A part of a text; nothing where the text has no such part.
pub fn part_of(text: &[u8], start: usize, end: usize) -> &[u8] {
    match text.get(start..end) {
        Some(part) => part,
        None => b"",
    }
}

// The first line feed from a place on, or the text's end.
pub fn line_end(lines: &[u8], start: usize) -> usize {
    for i in start..lines.len() {
        if lines[i] == b'\n' {
            return i;
        }
    }
    lines.len().max(start)
}
