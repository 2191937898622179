// Files, opened by name and read to their end; the program's arguments.
ghost use Rattle.std.specs.Prelude.{◌≡◌, ◌≤◌, IfOk, length, take};

use crate::out::{Console, EINVAL, ENAMETOOLONG};
use crate::run::Stop;
use std::env::FillError;
use std::fs::File;
use std::io;
use std::io::Read;
use std::rt::Env;

// A read, from a place of the buffer on. Answers where the bytes end.
fn read_from<R: Read>(from: &mut R, buf: &mut [u8], at: usize) -> io::Result<usize>
    requires { at ≤ length buf.old }
    ensures { IfOk result (λ end. end ≤ length buf.new) }
{
    let got = from.read(&mut buf[at..])?;
    Ok(at + got)
}

// Reads until the input ends or the buffer is full; answers how many bytes were read.
pub fn read_all<R: Read>(from: &mut R, buf: &mut [u8]) -> io::Result<usize>
    ensures bound { IfOk result (λ n. n ≤ length buf.new) }
    ensures prefix { IfOk result (λ n. n ≡ length (take n buf.new)) }
{
    let mut at: usize = 0;
    for _ in 0..buf.len() {
        let end = read_from(from, &mut *buf, at)?;
        if end == at {
            return Ok(at);
        }
        at = end;
    }
    Ok(at)
}

// A file by its name, for reading. A name that holds a byte 0, or is not UTF-8, names none.
pub fn open(con: &Console, name: &[u8]) -> io::Result<File> {
    if name.contains(&0) {
        return Err(io::Error::from_raw_os_error(EINVAL));
    }
    match str::from_utf8(name) {
        Ok(path) => File::open(&con.rt, path),
        Err(_) => Err(io::Error::from_raw_os_error(EINVAL)),
    }
}

// How many arguments there are; the first is the program's name.
pub fn arg_count(con: &Console) -> usize {
    let mut start = [0u8; 1];
    for i in 0..usize::MAX {
        if let Err(FillError::NotPresent) = con.rt.arg(i, &mut start) {
            return i;
        }
    }
    usize::MAX
}

// An argument that is not there, or has more bytes than a name may have.
pub fn say_argument(con: &Console, error: FillError) -> Stop {
    let number = match error {
        FillError::NotPresent => EINVAL,
        FillError::TooLong => ENAMETOOLONG,
    };
    con.fail(b"study: argument", io::Error::from_raw_os_error(number));
    Stop::Unread
}
