// The tables of several studies as one: comma-separated values (RFC 4180) under one heading, with the study's file, the line of the call and the number of
// the table in front of what `table csv` prints.
use crate::out::Console;
use crate::place::Study;
use crate::table::{Joint, Model, out_heading, out_written};
use decimals::spelled::spelled;
use floats::bits::to_bits;
use rows::joint_velocity_constraint::SolverVel;
use study_reader::words::line_of;
use study_run::motors::Motors;
use study_text::csv_reaction::write_csv_reaction_heading;
use texts::hex::hex_word;

// The records of a table that are printed alone.
#[derive(Clone, Copy, PartialEq, Eq)]
pub enum Records {
    Rows,
    Reactions,
    Velocities,
}

// ---- fields

// A field, in quotes where RFC 4180 wants them.
fn out_field(con: &Console, field: &[u8]) {
    let is_reserved = |b: &u8| matches!(*b, b',' | b'"' | b'\n' | b'\r');
    if !field.iter().any(is_reserved) {
        return con.out(field);
    }
    con.out(b"\"");
    for (i, part) in field.split(|b| *b == b'"').enumerate() {
        if i != 0 {
            con.out(b"\"\"");
        }
        con.out(part);
    }
    con.out(b"\"");
}

// Which table this is: the place of its call, and its number in the study.
#[derive(Clone, Copy)]
pub struct Table {
    pub at: usize,
    pub number: u32,
}

impl Table {
    fn out_front(self, study: Study) {
        let con = study.con;
        out_field(con, study.name);
        con.out(b",");
        con.out_number(line_of(study.text, self.at));
        con.out(b",");
        con.out_number(self.number as u64);
        con.out(b",");
    }
}

// ---- headings

// The heading of reactions without the empty line before it.
fn out_reaction_fields(con: &Console) {
    let mut line = [0u8; 4096];
    let n = write_csv_reaction_heading(&mut line);
    con.out_part(&line, 2, n);
}

pub fn out_csv_heading(con: &Console, kind: Records) {
    con.out(b"file,line,table,");
    match kind {
        Records::Rows => {
            con.out(b"motors of the joint low or high in the last round,");
            out_heading(con, true);
        }
        Records::Reactions => out_reaction_fields(con),
        Records::Velocities => con.out(
            b"body,velocity x [1e-6 m/s],velocity x [m/s],velocity x [f32 bits],velocity y [1e-6 m/s],velocity y [m/s],velocity y [f32 bits],angular velocity [1e-6 rad/s],angular velocity [rad/s],angular velocity [f32 bits]\r\n",
        ),
    }
}

// ---- records

fn out_motors(con: &Console, motors: Option<u8>) {
    match motors {
        Some(n) => con.out_number(n as u64),
        None => con.out(b"-"),
    }
    con.out(b",");
}

fn row_records(study: Study, model: Model, t: Table, joint: Joint, number: u32) {
    let Ok((ids, made)) = model.read_rows(number) else {
        return;
    };
    for (one, row) in ids.ids.iter().zip(made.rows.iter()).take(made.len) {
        t.out_front(study);
        out_motors(study.con, joint.motors);
        let residual = model.residual_at(*row, number);
        joint.out_row(study.con, one.id, *row, residual, true);
    }
}

fn out_three(con: &Console, x: f32) {
    con.out(b",");
    con.out_millionths(x);
    con.out(b",");
    out_spelled(con, x);
    con.out(b",");
    con.out(&hex_word(false, to_bits(x)));
}

pub fn out_spelled(con: &Console, x: f32) {
    let word = spelled(x);
    let bytes = word.bytes;
    con.out_part(&bytes, 0, word.len);
}

fn out_velocity(con: &Console, name: &[u8], v: SolverVel) {
    con.out(name);
    out_three(con, v.linear.x);
    out_three(con, v.linear.y);
    out_three(con, v.angular);
    con.out(b"\r\n");
}

// The records of one kind: of the joints, or of the bodies.
pub fn record_table(study: Study, model: Model, motors: Motors, t: Table, kind: Records) {
    match kind {
        Records::Rows => {
            for j in 0..study.st.joints {
                let joint = Joint::of(study, model.words, motors, j);
                row_records(study, model, t, joint, j);
            }
        }
        Records::Reactions => {
            for j in 0..study.st.joints {
                t.out_front(study);
                Joint::of(study, model.words, motors, j).out_reaction(study.con, model, true);
            }
        }
        Records::Velocities => {
            for i in 0..study.st.bodies {
                if let Some(v) = model.velocity(i) {
                    t.out_front(study);
                    out_velocity(study.con, study.body_name(i), v);
                }
            }
        }
    }
}
