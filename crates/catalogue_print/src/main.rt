// Prints the catalogue of joints (request R-8): all 4096 choices of the four masks, a line each.
#![tactic(auto)]

use catalogue::text::write_catalogue;
use std::io;

// The bytes that `write_catalogue` puts into the slice.
fn print_catalogue(rt: HostRuntime, out: &mut [u8]) -> io::Result<()> {
    let len = write_catalogue(&mut *out);
    if len <= out.len() {
        rt.write_all(&out[..len])?;
    }
    Ok(())
}

fn main(rt: HostRuntime) -> io::Result<()> {
    // The text has 105280 bytes.
    let mut space = [0u8; 131072];
    print_catalogue(rt, &mut space)
}
