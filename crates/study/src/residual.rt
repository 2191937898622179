// How far from settled the rows of a built model are: a row's residual is what one more step would change of its impulse.
use crate::out::Console;
use crate::place::Study;
use crate::table::{Model, out_written};
use rows::joint_velocity_constraint::WritebackId;
use study_text::residual::write_residual;

// The row of the largest residual: its joint and id, and the residual's size; and the size of the largest impulse of all rows.
#[derive(Clone, Copy)]
pub struct Residual {
    joint: u32,
    id: WritebackId,
    residual: f32,
    impulse: f32,
}

pub fn size(x: f32) -> f32 {
    if x < 0.0 { -x } else { x }
}

fn is_nan(x: f32) -> bool {
    x != x
}

// A NaN is larger than any number.
fn is_larger(x: f32, than: f32) -> bool {
    !is_nan(than) && !(x <= than)
}

impl Residual {
    fn or(self, next: Residual) -> Residual {
        let impulse = if is_larger(next.impulse, self.impulse) {
            next.impulse
        } else {
            self.impulse
        };
        let most = if is_larger(next.residual, self.residual) {
            next
        } else {
            self
        };
        Residual { impulse, ..most }
    }
}

// Of the first so many joints; none where they have no row.
pub fn largest(model: Model, joints: u32) -> Option<Residual> {
    let mut most = None;
    for joint in 0..joints {
        let Ok((ids, made)) = model.read_rows(joint) else {
            continue;
        };
        for (one, row) in ids.ids.iter().zip(made.rows.iter()).take(made.len) {
            let next = Residual {
                joint,
                id: one.id,
                residual: size(model.residual_at(*row, joint)),
                impulse: size(row.impulse),
            };
            most = match most {
                None => Some(next),
                Some(most) => Some(most.or(next)),
            };
        }
    }
    most
}

// ---- what is said of it

// The line of the row, by its joint's name; nothing where there is no row.
pub fn out_residual(study: Study, most: Option<Residual>) {
    if let Some(l) = most {
        let joint = study.joint_name(l.joint);
        out_written(study.con, |line| {
            write_residual(line, joint, l.id, l.residual)
        });
    }
}

// A NaN among a table's impulses and residuals, or a residual above a thousandth of the largest impulse. Whether there was one.
pub fn warn_residual(study: Study, at: usize, most: Option<Residual>) -> bool {
    let Some(l) = most else {
        return false;
    };
    if is_nan(l.residual) || is_nan(l.impulse) {
        study.begin_warning(at);
        study.con.err(b"an impulse or a residual of this table is not a number\n");
        study.show_line(at);
        return true;
    }
    if is_larger(l.residual, l.impulse * 0.001) {
        study.begin_warning(at);
        study.con.err(
            b"the rows are not settled: the largest residual is above a thousandth of the largest impulse\n",
        );
        study.show_line(at);
        return true;
    }
    false
}

// After sweeps until no residual is above a tolerance.
pub fn say_rounds(con: &Console, settled: bool, n: u32) {
    if !settled {
        con.out(b"not ");
    }
    con.out(b"settled after ");
    con.out_number(n as u64);
    con.out(b" rounds\n");
}
