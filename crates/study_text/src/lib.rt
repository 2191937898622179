// The lines of a study's table: its heading, a row's joint, bodies and id with its impulse and bounds in millionths and the rule that it came from, and
// the rules in words; how far from settled its rows are; and the line of a body's velocity.
#![tactic(auto)]

pub mod citations;
pub mod csv;
pub mod csv_reaction;
pub mod heading;
pub mod number;
pub mod reaction;
pub mod residual;
pub mod row;
pub mod rules;
pub mod velocity;
pub mod words;
