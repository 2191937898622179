// The study that a text describes. docs/STUDY.md has the format; specs/ says what each text reads as.
#![tactic(auto)]

pub mod calls;
pub mod changes;
pub mod draft;
pub mod faults;
pub mod fields;
pub mod items;
pub mod keywords;
mod layout;
pub mod names;
pub mod number;
pub mod read;
pub mod storage;
pub mod tables;
pub mod words;
