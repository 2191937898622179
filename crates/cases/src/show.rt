// Lines of `name = value` on standard output. Numbers are written by the library.
use floats::bits::to_bits;
use floats::micro_report::{MicroReport, micro_report};
use floats::scalar::{Clamped, Side};
use floats::vector::Vector;
use multibody::refusal::Refusal;
use study_text::number::put_millionths;

fn out(rt: HostRuntime, s: &[u8]) {
    let _ = rt.write_all(s);
}

pub fn name(rt: HostRuntime, name: &[u8]) {
    out(rt, name);
    out(rt, b" = ");
}

// A number's bits, in eight digits.
pub fn show(rt: HostRuntime, x: f32) {
    let bits = to_bits(x);
    let _ = println!(rt; "{bits:08x}");
}

pub fn show_vector(rt: HostRuntime, v: Vector) {
    let x = to_bits(v.x);
    let y = to_bits(v.y);
    let _ = println!(rt; "({x:08x}, {y:08x})");
}

pub fn show_clamp(rt: HostRuntime, c: Clamped) {
    show(rt, c.value);
    match c.side {
        Side::Low => out(rt, b"  low\n"),
        Side::High => out(rt, b"  high\n"),
        Side::Inside => out(rt, b"  inside\n"),
    }
}

pub fn show_truth(rt: HostRuntime, r: bool) {
    let _ = println!(rt; "{r}");
}

pub fn show_number(rt: HostRuntime, n: usize) {
    let _ = println!(rt; "{n}");
}

// How a call ended.
pub fn ended<T: Drop>(rt: HostRuntime, answer: Result<T, Refusal>) {
    match answer {
        Ok(_) => out(rt, b"granted\n"),
        Err(refusal) => refused(rt, refusal),
    }
}

pub fn refused(rt: HostRuntime, refusal: Refusal) {
    let number = refusal.number();
    let _ = println!(rt; "refused {number}");
}

// A number's micro report.
pub fn report(rt: HostRuntime, x: f32) {
    match micro_report(x) {
        MicroReport::Whole(_) => {
            let mut bytes = [0u8; 11];
            let end = put_millionths(&mut bytes, 0, x);
            out(rt, &bytes[..end.min(11)]);
            out(rt, b"\n");
        }
        MicroReport::Over => out(rt, b"over\n"),
        MicroReport::Nan => out(rt, b"nan\n"),
    }
}
