// The archive of capi for C, Rust and Python callers: each export calls the function of capi that has its name, and states its clauses again. A crate is a library
// or a static library, not both. A slice is passed as its pointer, then its length; include/katydidzinc.h describes the calls.
#![tactic(auto)]

ghost use Rattle.std.specs.Prelude.{◌≡◌};
ghost use Rattle.capi.specs.MicroNumber.{micro_number};

pub mod calls;
pub mod frame;
pub mod reactions;
pub mod seeds;
pub mod tables;
pub mod version;

// The report as one number: Over is 2^32 and NaN is 2^33.
#[unsafe(no_mangle)]
pub extern "C" fn katydidzinc_micro_report(x: f32) -> i64
    ensures { result ≡ micro_number x }
{
    capi::katydidzinc_micro_report(x)
}
