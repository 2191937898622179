// The rules that a row comes from, in document 01's order: group one Motor(2), Motor(0), Motor(1), Motor(F), group two Dof(2), Dof(0), Dof(1),
// Limit(2), Limit(0), Limit(1), Limit(F).
ghost use Rattle.std.specs.Prelude.{◌≡◌};
ghost use Rattle.study_text.specs.Rules.{motor_rule, dof_rule, limit_rule, rule_of, index_of};

use rows::generic_joint::has_axis;
use rows::joint_velocity_constraint::WritebackId;

#[derive(Clone, Copy, PartialEq, Eq)]
pub enum Rule {
    Motor2,
    Motor0,
    Motor1,
    MotorF,
    Dof2,
    Dof0,
    Dof1,
    Limit2,
    Limit0,
    Limit1,
    LimitF,
}

fn motor_rule(axis: usize, coupled: u32) -> Rule
    ensures { result ≡ motor_rule axis coupled }
{
    match axis {
        2 => Rule::Motor2,
        _ if has_axis(coupled, axis) => Rule::MotorF,
        0 => Rule::Motor0,
        _ => Rule::Motor1,
    }
}

fn dof_rule(axis: usize) -> Rule
    ensures { result ≡ dof_rule axis }
{
    match axis {
        2 => Rule::Dof2,
        0 => Rule::Dof0,
        _ => Rule::Dof1,
    }
}

fn limit_rule(axis: usize, coupled: u32) -> Rule
    ensures { result ≡ limit_rule axis coupled }
{
    match axis {
        2 => Rule::Limit2,
        _ if has_axis(coupled, axis) => Rule::LimitF,
        0 => Rule::Limit0,
        _ => Rule::Limit1,
    }
}

// The rule of a row, by its id and its joint's coupled axes.
pub fn rule_of(id: WritebackId, coupled: u32) -> Rule
    ensures { result ≡ rule_of id coupled }
{
    match id {
        WritebackId::Dof(axis) => dof_rule(axis),
        WritebackId::Limit(axis) => limit_rule(axis, coupled),
        WritebackId::Motor(axis) => motor_rule(axis, coupled),
    }
}

// Its place in the order, from 0.
pub fn rule_index(rule: Rule) -> u32
    ensures { result ≡ index_of rule }
{
    match rule {
        Rule::Motor2 => 0,
        Rule::Motor0 => 1,
        Rule::Motor1 => 2,
        Rule::MotorF => 3,
        Rule::Dof2 => 4,
        Rule::Dof0 => 5,
        Rule::Dof1 => 6,
        Rule::Limit2 => 7,
        Rule::Limit0 => 8,
        Rule::Limit1 => 9,
        Rule::LimitF => 10,
    }
}
