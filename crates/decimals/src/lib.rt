// Numbers of a study's text: a decimal to the nearest f32, f32 bits in hexadecimal digits, and the infinities. The modules below the reading are not for callers.
#![tactic(auto)]

mod big;
mod digits;
pub mod exports;
pub mod number;
mod rounding;
pub mod spelled;
pub mod text;
