// One record of a table, read in one pass over its bytes.
ghost use Rattle.std.specs.Prelude.{◌≡◌};
ghost use Rattle.motor_table.specs.Records.{is_present, read_at};
ghost use Rattle.motor_table.specs.Scan.{start_fields, close_of, finish_of, start_scan, step_of};

use crate::refusal::TableRefusal;
use crate::rfc4180::{Move, Place, may_end, move_at};
use crate::whole_number::{Field, Number, is_number, number_in, push};

// The axes of a planar joint.
pub const AXES: u32 = 3;

// The three numbers of a record.
#[derive(Clone, Copy)]
pub struct Entry {
    pub joint: Number,
    pub axis: Number,
    pub thousandths: Number,
}

// The numbers of a record, and where the next record starts.
#[derive(Clone, Copy)]
pub struct RecordRead {
    pub entry: Entry,
    pub next: usize,
}

// The fields that have ended: how many, counted up to 4, and the first three.
#[derive(Clone, Copy)]
pub struct Fields {
    pub count: u32,
    pub joint: Field,
    pub axis: Field,
    pub thousandths: Field,
}

#[derive(Clone, Copy)]
pub struct Scan {
    pub place: Place,
    pub field: Field,
    pub ended: Fields,
}

#[derive(Clone, Copy)]
pub enum Step {
    Going(Scan),
    Ended(Fields),
    Fault,
}

impl Fields {
    fn none() -> Self
        ensures { result ≡ start_fields }
    {
        Fields {
            count: 0,
            joint: Field::empty(),
            axis: Field::empty(),
            thousandths: Field::empty(),
        }
    }
}

fn close(ended: Fields, field: Field) -> Fields
    ensures { result ≡ close_of ended field }
{
    match ended.count {
        0 => Fields {
            count: 1,
            joint: field,
            ..ended
        },
        1 => Fields {
            count: 2,
            axis: field,
            ..ended
        },
        2 => Fields {
            count: 3,
            thousandths: field,
            ..ended
        },
        _ => Fields { count: 4, ..ended },
    }
}

fn finish(ended: Fields, next: usize) -> Result<RecordRead, TableRefusal>
    ensures { result ≡ finish_of ended next }
{
    if ended.count == 3 {
        if is_number(ended.joint) {
            if is_number(ended.axis) {
                if is_number(ended.thousandths) {
                    let entry = Entry {
                        joint: number_in(ended.joint),
                        axis: number_in(ended.axis),
                        thousandths: number_in(ended.thousandths),
                    };
                    return Ok(RecordRead { entry, next });
                }
            }
        }
    }
    Err(TableRefusal::NotThreeNumbers)
}

fn advance(scan: Scan, b: u8) -> Step
    ensures { result ≡ step_of scan b }
{
    match move_at(scan.place, b) {
        Move::Take(place) => Step::Going(Scan {
            place,
            field: push(scan.field, b),
            ended: scan.ended,
        }),
        Move::Skip(place) => Step::Going(Scan {
            place,
            field: scan.field,
            ended: scan.ended,
        }),
        Move::NextField => Step::Going(Scan {
            place: Place::FieldStart,
            field: Field::empty(),
            ended: close(scan.ended, scan.field),
        }),
        Move::End => Step::Ended(close(scan.ended, scan.field)),
        Move::Fault => Step::Fault,
    }
}

fn start() -> Scan
    ensures { result ≡ start_scan }
{
    Scan {
        place: Place::FieldStart,
        field: Field::empty(),
        ended: Fields::none(),
    }
}

// The record that starts at a position.
pub fn record_at(s: &[u8], at: usize) -> Result<RecordRead, TableRefusal>
    ensures { result ≡ read_at s.now at }
{
    let mut scan = start();
    for i in at..s.len() {
        match advance(scan, s[i]) {
            Step::Going(next) => {
                scan = next;
            }
            Step::Ended(ended) => {
                return finish(ended, i + 1);
            }
            Step::Fault => {
                return Err(TableRefusal::Broken);
            }
        }
    }
    if may_end(scan.place) {
        return finish(close(scan.ended, scan.field), s.len());
    }
    Err(TableRefusal::Broken)
}

// Whether a model of so many joints has the record's joint, and a joint its axis.
pub fn is_present(joints: u32, e: Entry) -> bool
    ensures { result ≡ is_present joints e }
{
    !e.joint.negative && e.joint.size < joints && !e.axis.negative && e.axis.size < AXES
}
