// The library for C, Rust and Python callers, over numbers and slices; a slice is passed as its pointer,
// then its length. include/katydidzinc.h describes it.
#![tactic(auto)]

ghost use Rattle.std.specs.Prelude.{◌≡◌};
ghost use Rattle.capi.specs.MicroNumber.{micro_number};

use floats::micro_report::{MicroReport, micro_report};

pub mod calls;
pub mod frame;
pub mod reactions;
pub mod seeds;
pub mod stored;
pub mod tables;
pub mod version;

// The report as one number: Over is 2^32 and NaN is 2^33.
#[unsafe(no_mangle)]
pub extern "C" fn katydidzinc_micro_report(x: f32) -> i64
    ensures { result ≡ micro_number x }
{
    let report = micro_report(x);
    match report {
        MicroReport::Whole(n) => n as i64,
        MicroReport::Over => 4294967296,
        MicroReport::Nan => 8589934592,
    }
}
