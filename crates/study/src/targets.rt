// The table of motor targets that a study names: a file beside the study's own, unless its name starts at the root.
use crate::input::{open, read_all};
use crate::out::part_of;
use crate::place::Study;
use crate::run::{Stop, granted};
use multibody::header::Header;
use std::fs::File;
use std::io;
use study_reader::words::{Word, bytes_of};
use study_run::motors::Motors;
use study_run::runs::run_targets;

// ---- the file's name

// The longest path that is opened.
const MOST_PATH: usize = 4096;

// The part of a name up to its last slash.
fn folder_of(name: &[u8]) -> usize {
    match name.iter().rposition(|b| *b == b'/') {
        Some(i) => i + 1,
        None => 0,
    }
}

fn folder_for<'a>(name: &'a [u8], file: &[u8]) -> &'a [u8] {
    if file.starts_with(b"/") {
        return b"";
    }
    part_of(name, 0, folder_of(name))
}

// The file's path; answers its length, and 0 where it is longer than a path can be.
fn put_path(path: &mut [u8; MOST_PATH], name: &[u8], file: &[u8]) -> usize {
    let folder = folder_for(name, file);
    let n = folder.len();
    if MOST_PATH <= n || MOST_PATH <= file.len() || MOST_PATH < n + file.len() {
        return 0;
    }
    path[..n].copy_from_slice(folder);
    path[n..n + file.len()].copy_from_slice(file);
    n + file.len()
}

// ---- the file

fn say_no_table(study: Study, w: Word, path: &[u8], error: io::Error) -> Stop {
    study.say_place(w.start);
    study.con.fail(path, error);
    study.show_line(w.start);
    Stop::Unread
}

fn too_long(study: Study, w: Word) -> Stop {
    study.say_place(w.start);
    study.con.err(b"a motor table has at most 262143 bytes\n");
    study.show_line(w.start);
    Stop::Unread
}

// Whether the table that a word names can be opened; otherwise what `set_named_targets` answers.
pub fn find_targets(study: Study, w: Word) -> Result<(), Stop> {
    let mut path = [0u8; MOST_PATH];
    let n = put_path(&mut path, study.name, bytes_of(study.text, w));
    let path = part_of(&path, 0, n);
    match open(study.con, path) {
        Ok(_) => Ok(()),
        Err(error) => Err(say_no_table(study, w, path, error)),
    }
}

// A table's bytes from a file.
fn targets_from(
    study: Study,
    w: Word,
    path: &[u8],
    file: &mut File,
    header: Header,
    bodies: &[f32],
    words: &[u32],
    numbers: &mut [f32],
    rows: &[f32],
    motors: Motors,
) -> Result<(), Stop> {
    let mut table = [0u8; 262144];
    match read_all(file, &mut table) {
        Ok(262144) => Err(too_long(study, w)),
        Ok(n) => granted(run_targets(header, bodies, words, numbers, rows, motors, &table[..n])),
        Err(error) => Err(say_no_table(study, w, path, error)),
    }
}

pub fn set_named_targets(
    study: Study,
    w: Word,
    header: Header,
    bodies: &[f32],
    words: &[u32],
    numbers: &mut [f32],
    rows: &[f32],
    motors: Motors,
) -> Result<(), Stop> {
    let mut path = [0u8; MOST_PATH];
    let n = put_path(&mut path, study.name, bytes_of(study.text, w));
    let path = part_of(&path, 0, n);
    match open(study.con, path) {
        Ok(mut file) => targets_from(
            study, w, path, &mut file, header, bodies, words, numbers, rows, motors,
        ),
        Err(error) => Err(say_no_table(study, w, path, error)),
    }
}
