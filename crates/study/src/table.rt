// The table of a built model: a line a row, and the rules that its rows came from.
use crate::help::made_by;
use crate::out::Console;
use crate::place::Study;
use crate::records::joint_word;
use crate::residual::{Residual, out_residual};
use catalogue::text::put_id;
use model::calls::{read_rows, read_velocity};
use model::layout::WORLD;
use model::reactions::{reaction_at, residual_at};
use multibody::header::Header;
use multibody::refusal::Refusal;
use rows::joint_velocity_constraint::{JointConstraint, Rows, SolverVel, WritebackId};
use rows::reaction::Reaction;
use rows::row_ids::RowIds;
use study_reader::names::{body_name, joint_name};
use study_reader::words::bytes_of;
use study_run::motors::Motors;
use study_text::citations::write_rules;
use study_text::csv::write_csv_row;
use study_text::csv_reaction::{write_csv_reaction, write_csv_reaction_heading};
use study_text::heading::{write_csv_heading, write_heading};
use study_text::reaction::{write_reaction, write_reaction_heading, write_reaction_notes};
use study_text::row::write_row;
use study_text::rules::{rule_index, rule_of};

// What a function of the library writes into a slice, of which it answers the length. The rules are longest, with fewer bytes than these.
pub fn out_written<F: FnOnce(&mut [u8]) -> usize>(con: &Console, write: F)
    requires { F.IsAlwaysCallable write }
{
    let mut text = [0u8; 4608];
    let n = write(&mut text);
    con.out_part(&text, 0, n);
}

// An id as document 01's cases write it.
pub fn out_id(con: &Console, id: WritebackId) {
    out_written(con, |text| put_id(text, 0, id));
}

// ---- a built model

// What calls that read a model are given of it.
#[derive(Clone, Copy)]
pub struct Model<'a> {
    pub header: Header,
    pub bodies: &'a [f32],
    pub words: &'a [u32],
    pub numbers: &'a [f32],
    pub rows: &'a [f32],
}

impl Model<'_> {
    pub fn read_rows(self, joint: u32) -> Result<(RowIds, Rows), Refusal> {
        read_rows(
            self.header,
            self.bodies,
            self.words,
            self.numbers,
            self.rows,
            joint,
        )
    }

    pub fn velocity(self, body: u32) -> Option<SolverVel> {
        read_velocity(self.header, self.bodies, self.words, self.numbers, body).ok()
    }

    pub fn residual_at(self, row: JointConstraint, joint: u32) -> f32 {
        residual_at(self.bodies, self.words, row, joint as usize)
    }

    // What a joint's rows together gave its bodies.
    fn reaction_at(self, joint: u32) -> Option<Reaction> {
        let (_, made) = self.read_rows(joint).ok()?;
        Some(reaction_at(self.bodies, self.words, self.numbers, made, joint as usize))
    }
}

// ---- one line, as text or as comma-separated values

impl<'a> Study<'a> {
    pub fn body_name(self, i: u32) -> &'a [u8] {
        bytes_of(self.text, body_name(self.names, i))
    }

    pub fn joint_name(self, j: u32) -> &'a [u8] {
        bytes_of(self.text, joint_name(self.names, j))
    }
}

// One joint: its number and its name, the names of its bodies, and its coupled axes; how many of its motors the last round found low or high, if there was one. A name
// has at most 64 bytes, so that each line fits.
#[derive(Clone, Copy)]
pub struct Joint<'a> {
    number: u32,
    name: &'a [u8],
    body1: &'a [u8],
    body2: &'a [u8],
    coupled: u32,
    pub motors: Option<u8>,
}

// The name of a joint's body.
fn body_of<'a>(study: Study<'a>, body: u32) -> &'a [u8] {
    if body == WORLD {
        b"world"
    } else {
        study.body_name(body)
    }
}

impl<'a> Joint<'a> {
    pub fn of(study: Study<'a>, words: &[u32], motors: Motors, number: u32) -> Joint<'a> {
        Joint {
            number,
            name: study.joint_name(number),
            body1: body_of(study, joint_word(words, number, 0)),
            body2: body_of(study, joint_word(words, number, 1)),
            coupled: joint_word(words, number, 5),
            motors: motors.map(|counts| counts.get(number as usize).copied().unwrap_or(0)),
        }
    }

    // The line of a row, with its residual.
    pub fn out_row(
        self,
        con: &Console,
        id: WritebackId,
        row: JointConstraint,
        residual: f32,
        csv: bool,
    ) {
        let Joint {
            name,
            body1,
            body2,
            coupled,
            ..
        } = self;
        let impulse = row.impulse;
        let low = row.impulse_min;
        let high = row.impulse_max;
        if csv {
            out_written(con, |line| {
                write_csv_row(
                    line, name, body1, body2, id, coupled, impulse, low, high, residual,
                )
            });
        } else {
            out_written(con, |line| {
                write_row(
                    line, name, body1, body2, id, coupled, impulse, low, high, residual,
                )
            });
        }
    }

    // The line of what its rows together gave its bodies.
    pub fn out_reaction(self, con: &Console, model: Model, csv: bool) {
        let Joint {
            name,
            body1,
            body2,
            motors,
            ..
        } = self;
        let Some(reaction) = model.reaction_at(self.number) else {
            return;
        };
        if csv {
            out_written(con, |line| {
                write_csv_reaction(line, name, body1, body2, reaction, motors)
            });
        } else {
            out_written(con, |line| {
                write_reaction(line, name, body1, body2, reaction, motors)
            });
        }
    }

    // The lines of its rows, as text or as comma-separated values; answers the rules that they came from, a bit each, with those that were used before.
    fn out_rows(self, con: &Console, model: Model, csv: bool, used: u32) -> u32 {
        let Ok((ids, made)) = model.read_rows(self.number) else {
            return used;
        };
        let mut all = used;
        for (one, row) in ids.ids.iter().zip(made.rows.iter()).take(made.len) {
            let residual = model.residual_at(*row, self.number);
            self.out_row(con, one.id, *row, residual, csv);
            all |= bit(rule_index(rule_of(one.id, self.coupled)));
        }
        all
    }
}

fn bit(rule: u32) -> u32 {
    if rule < 12 { 1 << rule } else { 0 }
}

// ---- headings and notes

pub fn out_reaction_heading(con: &Console, csv: bool) {
    if csv {
        out_written(con, |line| write_csv_reaction_heading(line));
    } else {
        out_written(con, |line| write_reaction_heading(line));
    }
}

pub fn out_heading(con: &Console, csv: bool) {
    if csv {
        out_written(con, |line| write_csv_heading(line));
    } else {
        out_written(con, |line| write_heading(line));
    }
}

// The rules that were used, each once, in words, and the version that made the table.
fn out_rules(con: &Console, used: u32) {
    out_written(con, |lines| write_rules(lines, used));
    made_by(con);
}

// ---- what a call prints

// A joint's rows, without a heading.
pub fn print_rows(study: Study, model: Model, motors: Motors, joint: u32) {
    let joint = Joint::of(study, model.words, motors, joint);
    joint.out_rows(study.con, model, false, 0);
}

// A table, with the row of the largest residual; under the rows the joints' reactions, a line each.
pub fn print_table(study: Study, model: Model, motors: Motors, csv: bool, most: Option<Residual>) {
    let con = study.con;
    let joints = study.st.joints;
    let mut used = 0;
    out_heading(con, csv);
    for j in 0..joints {
        let joint = Joint::of(study, model.words, motors, j);
        used = joint.out_rows(con, model, csv, used);
    }
    if !csv {
        out_residual(study, most);
    }
    out_reaction_heading(con, csv);
    for j in 0..joints {
        Joint::of(study, model.words, motors, j).out_reaction(con, model, csv);
    }
    if !csv {
        out_written(con, |lines| write_reaction_notes(lines));
        out_rules(con, used);
    }
}
