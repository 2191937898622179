// The words of a line, each put in from `at` on. Each function that puts a word in answers where it ends.
ghost use Rattle.std.specs.Prelude.{◌≡◌, [], ◌∷◌, ◌++◌};
ghost use Rattle.texts.specs.Sink.{Appended};
ghost use Rattle.catalogue.specs.Text.{id_text};
ghost use Rattle.study_text.specs.Words.{number_of, definition_text, bound_of, bound_text, motors_text};
ghost use Rattle.study_text.specs.Row.{column};

use crate::rules::Rule;
use catalogue::text::put_id;
use rows::joint_velocity_constraint::WritebackId;
use texts::sink::put_text;

// A bound that an impulse stands at.
#[derive(Clone, Copy, PartialEq, Eq)]
pub enum Bound {
    Low,
    High,
}

// The blanks that fill an id's column up, and one more.
#[tactic(auto, unfolding(crate::specs::Row::column))]
fn blanks_after_id(id: WritebackId) -> &'static [u8]
    ensures { id_text id ++ result.now ≡ column 6 (id_text id) }
{
    match id {
        WritebackId::Dof(_) => b"   ",
        WritebackId::Limit(_) | WritebackId::Motor(_) => b" ",
    }
}

// An id in its column.
pub(crate) fn put_id_column(out: &mut [u8], at: usize, id: WritebackId) -> usize
    ensures { Appended out.old at (column 6 (id_text id)) out.new result }
{
    let a = put_id(out, at, id);
    put_text(out, a, blanks_after_id(id))
}

// ---- a bound

pub fn bound_of(impulse: f32, low: f32, high: f32) -> Option<Bound>
    ensures { result ≡ bound_of impulse low high }
{
    if low == high {
        None
    } else if impulse == low {
        Some(Bound::Low)
    } else if impulse == high {
        Some(Bound::High)
    } else {
        None
    }
}

#[tactic(auto, unfolding(crate::specs::Row::column))]
fn bound_column(bound: Option<Bound>) -> &'static [u8]
    ensures { result.now ≡ column 4 (bound_text bound) }
{
    match bound {
        Some(Bound::Low) => b"low  ",
        Some(Bound::High) => b"high ",
        None => b"-    ",
    }
}

pub(crate) fn put_bound(out: &mut [u8], at: usize, bound: Option<Bound>) -> usize
    ensures { Appended out.old at (column 4 (bound_text bound)) out.new result }
{
    put_text(out, at, bound_column(bound))
}

// ---- motors

// How many of a joint's motors the last round found low or high, if a round was swept.
pub fn motors_digit(motors: Option<u8>) -> u8
    ensures { result ∷ [] ≡ motors_text motors }
{
    match motors {
        None => b'-',
        Some(0) => b'0',
        Some(1) => b'1',
        Some(2) => b'2',
        Some(_) => b'3',
    }
}

// ---- a rule

// The rule's number in the table.
fn number_of(rule: Rule) -> &'static [u8]
    ensures { result.now ≡ number_of rule }
{
    match rule {
        Rule::Motor2 => b"1.1",
        Rule::Motor0 => b"1.2",
        Rule::Motor1 => b"1.3",
        Rule::MotorF => b"1.4",
        Rule::Dof2 => b"2.1",
        Rule::Dof0 => b"2.2",
        Rule::Dof1 => b"2.3",
        Rule::Limit2 => b"2.4",
        Rule::Limit0 => b"2.5",
        Rule::Limit1 => b"2.6",
        Rule::LimitF => b"2.7",
    }
}

pub fn put_rule_number(out: &mut [u8], at: usize, rule: Rule) -> usize
    ensures { Appended out.old at (number_of rule) out.new result }
{
    put_text(out, at, number_of(rule))
}

// The definition that makes the row.
fn definition_text(rule: Rule) -> &'static [u8]
    ensures { result.now ≡ definition_text rule }
{
    match rule {
        Rule::Motor2 => b"motorAngularOf",
        Rule::Motor0 => b"motorLinearOf",
        Rule::Motor1 => b"motorLinearOf",
        Rule::MotorF => b"motorLinearCoupledOf",
        Rule::Dof2 => b"lockAngularOf",
        Rule::Dof0 => b"lockLinearOf",
        Rule::Dof1 => b"lockLinearOf",
        Rule::Limit2 => b"limitAngularOf",
        Rule::Limit0 => b"limitLinearOf",
        Rule::Limit1 => b"limitLinearOf",
        Rule::LimitF => b"limitLinearCoupledOf",
    }
}

pub fn put_definition(out: &mut [u8], at: usize, rule: Rule) -> usize
    ensures { Appended out.old at (definition_text rule) out.new result }
{
    put_text(out, at, definition_text(rule))
}
