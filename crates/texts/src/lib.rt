// Texts in lent slices: bytes, decimal digits, bits in hexadecimal digits.
#![tactic(auto)]

pub mod hex;
pub mod sink;
