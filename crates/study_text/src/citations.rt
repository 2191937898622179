// The rules that a table cites, in words below it.
ghost use Rattle.std.specs.Prelude.{◌≡◌};
ghost use mathlib.Core.List.{flat_map};
ghost use Rattle.texts.specs.Sink.{Appended, Wrote};
ghost use Rattle.study_text.specs.Citations.{words_text, rust_text, cited_words, cited_source, citation, rules, cited_in, rules_text};

use crate::rules::{Rule, rule_index};
use crate::words::{put_definition, put_rule_number};
use rows::generic_joint::has_axis;
use texts::sink::{has_room, length_to, put_text};

// ---- one rule

#[tactic(auto, unfolding(crate::specs::Citations::words_text))]
fn words_text(rule: Rule) -> &'static [u8]
    ensures { result.now ≡ words_text rule }
{
    match rule {
        Rule::Motor2 =>
            b"Motor(2), angular motor: driven, not locked, not coupled. It drives the relative turning to its targets; bounds plus and minus maximum force times dt.",
        Rule::Motor0 =>
            b"Motor(0), motor along x: driven, not locked, not coupled. It drives the relative motion to its targets; bounds plus and minus maximum force times dt.",
        Rule::Motor1 =>
            b"Motor(1), motor along y: driven, not locked, not coupled. It drives the relative motion to its targets; bounds plus and minus maximum force times dt.",
        Rule::MotorF =>
            b"Motor(F), coupled motor: a driven axis that is not locked is coupled; the lowest coupled axis gives its numbers. Bounds plus and minus maximum force times dt.",
        Rule::Dof2 =>
            b"Dof(2), angular lock: locked. It takes the relative turning away, and the angle's error at the joint's softness; bounds are the largest number, either way.",
        Rule::Dof0 =>
            b"Dof(0), lock along x: locked. It takes the relative motion away, and the distance at the joint's softness; bounds are the largest number, either way.",
        Rule::Dof1 =>
            b"Dof(1), lock along y: locked. It takes the relative motion away, and the distance at the joint's softness; bounds are the largest number, either way.",
        Rule::Limit2 =>
            b"Limit(2), angular limit: limited, not locked, not coupled. The angle from the limit's centre is kept within half the range; inside, the bounds are 0 and 0, and a side opens where its end is touched or passed.",
        Rule::Limit0 =>
            b"Limit(0), limit along x: limited, not locked, not coupled. Inside its two ends the bounds are 0 and 0, and a side opens where its end is touched or passed.",
        Rule::Limit1 =>
            b"Limit(1), limit along y: limited, not locked, not coupled. Inside its two ends the bounds are 0 and 0, and a side opens where its end is touched or passed.",
        Rule::LimitF =>
            b"Limit(F), coupled limit: x or y is coupled and the lowest of these is limited and not locked. The distance over the coupled axes is kept below the upper end; bounds 0 and infinity.",
    }
}

// The Rust function that makes the row.
fn rust_text(rule: Rule) -> &'static [u8]
    ensures { result.now ≡ rust_text rule }
{
    match rule {
        Rule::Motor2 => b"motor_angular",
        Rule::Motor0 => b"motor_linear",
        Rule::Motor1 => b"motor_linear",
        Rule::MotorF => b"motor_linear_coupled",
        Rule::Dof2 => b"lock_angular",
        Rule::Dof0 => b"lock_linear",
        Rule::Dof1 => b"lock_linear",
        Rule::Limit2 => b"limit_angular",
        Rule::Limit0 => b"limit_linear",
        Rule::Limit1 => b"limit_linear",
        Rule::LimitF => b"limit_linear_coupled",
    }
}

fn put_cited_words(out: &mut [u8], at: usize, rule: Rule) -> usize
    ensures { Appended out.old at (cited_words rule) out.new result }
{
    let a = put_text(out, at, b"  ");
    let b = put_rule_number(out, a, rule);
    let c = put_text(out, b, b"  ");
    let d = put_text(out, c, words_text(rule));
    put_text(out, d, b"\n")
}

fn put_cited_source(out: &mut [u8], at: usize, rule: Rule) -> usize
    ensures { Appended out.old at (cited_source rule) out.new result }
{
    let a = put_text(out, at, b"       Definition ");
    let b = put_definition(out, a, rule);
    let c = put_text(
        out,
        b,
        b" in crates/rows/specs/Makers.antt, after the Rust's ",
    );
    let d = put_text(out, c, rust_text(rule));
    put_text(out, d, b" in joint_constraint_helper.rs.\n")
}

fn put_citation(out: &mut [u8], at: usize, rule: Rule) -> usize
    ensures { Appended out.old at (citation rule) out.new result }
{
    let a = put_cited_words(out, at, rule);
    put_cited_source(out, a, rule)
}

// ---- the rules of a table

// Document 01's order.
const RULES: [Rule; 11] = [
    Rule::Motor2,
    Rule::Motor0,
    Rule::Motor1,
    Rule::MotorF,
    Rule::Dof2,
    Rule::Dof0,
    Rule::Dof1,
    Rule::Limit2,
    Rule::Limit0,
    Rule::Limit1,
    Rule::LimitF,
];

fn put_cited_in(out: &mut [u8], at: usize, used: u32, rule: Rule) -> usize
    ensures { Appended out.old at (cited_in used rule) out.new result }
{
    if has_axis(used, rule_index(rule) as usize) {
        put_citation(out, at, rule)
    } else {
        at
    }
}

fn put_all(out: &mut [u8], at: usize, used: u32) -> usize
    ensures { Appended out.old at (flat_map (cited_in used) rules) out.new result }
{
    let mut end = at;
    for rule in RULES {
        end = put_cited_in(out, end, used, rule);
    }
    end
}

fn put_rules(out: &mut [u8], used: u32) -> usize
    ensures { Appended out.old 0 (rules_text used) out.new result }
{
    let a = put_text(
        out,
        0,
        b"impulses and bounds in millionths of N s (x, y) or N m s (angle). A number with a point is not in millionths but in the unit itself: the residual, and what is 2147.483648 or more in size. rules:\n",
    );
    put_all(out, a, used)
}

// ---- what a caller asks for

// Writes a rule, cited in full, to the front of `out` and answers the length. Where `out` is shorter nothing is written, and the length is
// answered all the same.
pub fn write_rule(out: &mut [u8], rule: Rule) -> usize
    ensures { Wrote out.old (citation rule) out.new result }
{
    let mut none = [0u8; 1];
    let len = put_citation(&mut none, 0, rule);
    if has_room(len, out.len()) {
        put_citation(out, 0, rule)
    } else {
        length_to(len)
    }
}

// The same of what stands below a table: a line on units, and the rules that it cites, each once. Bit i of `used` stands for rule i.
pub fn write_rules(out: &mut [u8], used: u32) -> usize
    ensures { Wrote out.old (rules_text used) out.new result }
{
    let mut none = [0u8; 1];
    let len = put_rules(&mut none, used);
    if has_room(len, out.len()) {
        put_rules(out, used)
    } else {
        length_to(len)
    }
}
