// The text of motor tables (request R-6): RFC 4180 records of joint, axis and target velocity in
// thousandths. Reading and writing look at bytes and numbers alone; what a record sets in a model is
// the model's.
#![tactic(auto)]

pub mod record;
pub mod refusal;
pub mod rfc4180;
pub mod table;
pub mod target;
pub mod text;
pub mod whole_number;
