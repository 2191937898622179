// Text written from a place on, as far as there is room; each function answers the place after it.
ghost use Rattle.std.specs.Prelude.{◌≡◌, cond, [], ◌∷◌, zero, ◌-◌, ◌≤◌, eqb, length, replicate, set, drop};
ghost use Rattle.texts.specs.Ascii.{SPACE, LF};
ghost use Rattle.texts.specs.Digits.{decimal};
ghost use Rattle.texts.specs.Sink.{place_after, Appended, Wrote, has_room, length_to, entry};

// The largest place stays: at it a text is too long for any slice, which callers that add up places need not test in between.
fn place_after(at: usize) -> usize
    ensures { result ≡ place_after at }
{
    if at < 0xffff_ffff_ffff_ffff {
        return at + 1;
    }
    at
}

fn set_byte(out: &mut [u8], at: usize, b: u8)
    ensures { out.new ≡ set out.old at b }
{
    if at < out.len() {
        out[at] = b;
    }
}

pub fn put_byte(out: &mut [u8], at: usize, b: u8) -> usize
    ensures { Appended out.old at (b ∷ []) out.new result }
{
    set_byte(&mut *out, at, b);
    place_after(at)
}

pub fn put_text(out: &mut [u8], at: usize, text: &[u8]) -> usize
    ensures { Appended out.old at text.now out.new result }
{
    let mut end = at;
    for b in text {
        end = put_byte(&mut *out, end, *b);
    }
    end
}

// So many blanks.
pub fn put_blanks(out: &mut [u8], at: usize, n: usize) -> usize
    ensures { Appended out.old at (replicate n SPACE) out.new result }
{
    let mut end = at;
    for _ in 0..n {
        end = put_byte(&mut *out, end, b' ');
    }
    end
}

// The digits of a number.
pub fn put_decimal(out: &mut [u8], at: usize, n: u32) -> usize
    ensures { Appended out.old at (decimal n) out.new result }
{
    if n < 10 {
        return put_byte(&mut *out, at, 48 + n as u8);
    }
    let a = put_decimal(&mut *out, at, n / 10);
    put_byte(&mut *out, a, 48 + (n % 10) as u8)
}

// ---- an entry of a table of words, each of which ends with LF

fn left_after(left: usize, b: u8) -> usize
    requires { 1 ≤ left }
    ensures { result ≡ cond (eqb b LF) (left - 1) left }
{
    if b == b'\n' { left - 1 } else { left }
}

// Where entry i starts.
fn entry_start(table: &[u8], i: usize) -> usize
    ensures within { result ≤ length table.now }
    ensures from { entry zero (drop result table.now) ≡ entry i table.now }
{
    let mut left = i;
    for (k, b) in table.iter().enumerate() {
        if left == 0 {
            return k;
        }
        left = left_after(left, *b);
    }
    table.len()
}

pub fn put_entry(out: &mut [u8], at: usize, table: &[u8], i: usize) -> usize
    ensures { Appended out.old at (entry i table.now) out.new result }
{
    let mut end = at;
    for b in &table[entry_start(table, i)..] {
        if *b == b'\n' {
            return end;
        }
        end = put_byte(&mut *out, end, *b);
    }
    end
}

// ---- a text at the front, or nothing

// Whether a text that a first run wrote to `end` from 0 on has room.
pub fn has_room(end: usize, room: usize) -> bool
    ensures { result ≡ has_room end room }
{
    end < 0xffff_ffff_ffff_ffff && end <= room
}

// Its length, if it was not written.
pub fn length_to(end: usize) -> usize
    ensures { result ≡ length_to end }
{
    if end < 0xffff_ffff_ffff_ffff { end } else { 0 }
}

// Writes a text to the front of `out` and answers its length. Where `out` is shorter nothing is written, and the length is answered all the same.
pub fn write_text(out: &mut [u8], text: &[u8]) -> usize
    ensures { Wrote out.old text.now out.new result }
{
    let mut none = [0u8; 1];
    let len = put_text(&mut none, 0, text);
    if has_room(len, out.len()) {
        return put_text(&mut *out, 0, text);
    }
    length_to(len)
}
