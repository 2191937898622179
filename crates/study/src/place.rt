// Where something stands in a study's file, and the line itself with a mark under the word.
use crate::out::{Console, line_end, part_of};
use multibody::header::Header;
use rows::integration_parameters::IntegrationParameters;
use study_reader::draft::State;
use study_reader::storage::{DT, LENGTH_UNIT, MAX_CORRECTIVE_VELOCITY, NUMBERS};
use study_reader::words::{column_of, line_of, next_word};

// A study as it was read, with what it is told by: its file's name and its text; its numbers and where each was given; where its bodies and joints are named; and
// what else was found in it.
#[derive(Clone, Copy)]
pub struct Study<'a> {
    pub con: &'a Console,
    pub name: &'a [u8],
    pub text: &'a [u8],
    pub draft: &'a [f32; NUMBERS],
    pub origins: &'a [u32],
    pub names: &'a [u32],
    pub st: State,
}

impl<'a> Study<'a> {
    // FILE:LINE:COLUMN and a colon.
    pub fn say_place(self, at: usize) {
        let con = self.con;
        con.err(self.name);
        con.err(b":");
        con.err_number(line_of(self.text, at));
        con.err(b":");
        con.err_number(column_of(self.text, at));
        con.err(b": ");
    }

    // The line that holds an offset, and a mark under the word that starts there.
    pub fn show_line(self, at: usize) {
        let text = self.text;
        let from = shown_from(line_begin(text, at), at);
        let to = shown_to(from, line_end(text, from));
        say_shown(self.con, part_of(text, from, to));
        let end = next_word(text, at).end.min(to);
        say_underlined(self.con, part_of(text, from, end), at.saturating_sub(from));
    }

    pub fn begin_warning(self, at: usize) {
        self.say_place(at);
        self.con.err(b"warning: ");
    }

    // The header before a build.
    pub fn header(self) -> Header {
        Header {
            params: IntegrationParameters {
                dt: self.draft[DT],
                length_unit: self.draft[LENGTH_UNIT],
                normalized_max_corrective_velocity: self.draft[MAX_CORRECTIVE_VELOCITY],
            },
            built: false,
        }
    }
}

// ---- the line itself

// The most bytes of a line that are shown, and how many of them stand before the word of a longer one.
const MOST_SHOWN: usize = 160;

const SHOWN_BEFORE: usize = 60;

// The start of the line that holds an offset.
fn line_begin(text: &[u8], at: usize) -> usize {
    let column = column_of(text, at);
    if column == 0 {
        return at;
    }
    at.checked_sub((column - 1) as usize).unwrap_or(at)
}

// Where what is shown of the line starts: a long line is shown from before the word on.
fn shown_from(begin: usize, at: usize) -> usize {
    if begin < at && MOST_SHOWN < at - begin {
        return at - SHOWN_BEFORE;
    }
    begin
}

fn shown_to(from: usize, end: usize) -> usize {
    end.min(from.saturating_add(MOST_SHOWN))
}

// A control byte is shown as a question mark, a tab as it is.
fn shown(b: u8) -> u8 {
    match b {
        b'\t' => b,
        0..=31 | 127 => b'?',
        _ => b,
    }
}

// A byte that goes on with a character of UTF-8.
fn goes_on(b: u8) -> bool {
    matches!(b, 128..=191)
}

// What stands under a byte: a mark from an offset on.
fn mark(b: u8, i: usize, at: usize) -> u8 {
    if at <= i {
        return b'^';
    }
    if b == b'\t' {
        return b;
    }
    b' '
}

// The bytes of a line as they are shown.
fn say_shown(con: &Console, part: &[u8]) {
    let mut line = [0u8; MOST_SHOWN];
    for (to, b) in line.iter_mut().zip(part) {
        *to = shown(*b);
    }
    con.err_part(&line, 0, part.len());
    con.err(b"\n");
}

// The marks under them, one a character, as far as an offset of the part; answers how many.
fn underline(line: &mut [u8], part: &[u8], at: usize) -> usize {
    let mut n: usize = 0;
    for (i, b) in part.iter().enumerate() {
        if !goes_on(*b) && n < line.len() {
            line[n] = mark(*b, i, at);
            n += 1;
        }
    }
    n
}

// From the word on as far as the word goes; one that is empty has a mark all the same.
fn say_underlined(con: &Console, part: &[u8], at: usize) {
    let mut line = [0u8; MOST_SHOWN];
    let n = underline(&mut line, part, at);
    con.err_part(&line, 0, n);
    if part.len() <= at {
        con.err(b"^");
    }
    con.err(b"\n");
}
