// Writing a table: numbers in, one spelling out. Each function that puts a text in does so from `at` on, as far as there is room, and answers where it
// ends.
ghost use Rattle.std.specs.Prelude.{◌≡◌, ◌+◌, ◌*◌, ◌≤◌, length};
ghost use Rattle.texts.specs.Sink.{Appended};
ghost use Rattle.motor_table.specs.Text.{number_text, field_text, record_text, text_of, word_number, entry_at, entries_of, is_sized, table_of, refusal_in, written_answer, written_text};

use crate::record::{Entry, is_present};
use crate::refusal::TableRefusal;
use crate::table::MOST_RECORDS;
use crate::whole_number::{LARGEST_SIZE, Number};
use texts::sink::{has_room, length_to, put_byte, put_decimal, put_text};

// ---- numbers in

// The number of a 32-bit word in two's complement.
pub fn word_number(w: u32) -> Number
    ensures { result ≡ word_number w }
{
    if w < 0x8000_0000 {
        return Number {
            negative: false,
            size: w,
        };
    }
    Number {
        negative: true,
        size: 0xffff_ffff - w + 1,
    }
}

// Record k of a table: three words a record.
fn entry_at(table: &[u32], k: usize) -> Entry
    requires { 3 * k + 3 ≤ length table.now }
    ensures { result ≡ entry_at table.now k }
{
    let o = 3 * k;
    Entry {
        joint: word_number(table[o]),
        axis: word_number(table[o + 1]),
        thousandths: word_number(table[o + 2]),
    }
}

fn is_sized(e: Entry) -> bool
    ensures { result ≡ is_sized e }
{
    e.joint.size <= LARGEST_SIZE
        && e.axis.size <= LARGEST_SIZE
        && e.thousandths.size <= LARGEST_SIZE
}

// Why a table is refused, if it is: the first faulty record decides.
fn table_refusal(table: &[u32], joints: u32) -> Option<TableRefusal>
    ensures { result ≡ refusal_in (table_of joints (entries_of table.now)) }
{
    let count = table.len() / 3;
    for k in 0..count {
        if k == MOST_RECORDS as usize {
            return Some(TableRefusal::Broken);
        }
        let e = entry_at(table, k);
        if !is_sized(e) {
            return Some(TableRefusal::NotThreeNumbers);
        }
        if !is_present(joints, e) {
            return Some(TableRefusal::Absent);
        }
    }
    None
}

// ---- text out

// A minus before a negative number, and its digits.
pub fn put_number(out: &mut [u8], at: usize, n: Number) -> usize
    ensures { Appended out.old at (number_text n) out.new result }
{
    if n.negative {
        let a = put_byte(&mut *out, at, b'-');
        return put_decimal(&mut *out, a, n.size);
    }
    put_decimal(&mut *out, at, n.size)
}

fn put_field(out: &mut [u8], at: usize, n: Number) -> usize
    ensures { Appended out.old at (field_text n) out.new result }
{
    let a = put_number(&mut *out, at, n);
    put_byte(&mut *out, a, b',')
}

fn put_record(out: &mut [u8], at: usize, e: Entry) -> usize
    ensures { Appended out.old at (record_text e) out.new result }
{
    let a = put_field(&mut *out, at, e.joint);
    let b = put_field(&mut *out, a, e.axis);
    let c = put_number(&mut *out, b, e.thousandths);
    put_text(&mut *out, c, b"\r\n")
}

fn put_table(table: &[u32], out: &mut [u8]) -> usize
    ensures { Appended out.old 0 (text_of (entries_of table.now)) out.new result }
{
    let count = table.len() / 3;
    let mut end: usize = 0;
    for k in 0..count {
        end = put_record(&mut *out, end, entry_at(table, k));
    }
    end
}

// Writes a table's text to the front of `out` and answers its length, or writes nothing: where `out` is shorter than the text,
// which is answered all the same, and where the table is refused.
pub fn write_table(table: &[u32], joints: u32, out: &mut [u8]) -> Result<usize, TableRefusal>
    ensures { (result ≡ written_answer 0 (table_of joints (entries_of table.now)))
        × (out.new ≡ written_text out.old (table_of joints (entries_of table.now))) }
{
    match table_refusal(table, joints) {
        Some(refusal) => Err(refusal),
        None => {
            let mut none = [0u8; 1];
            let len = put_table(table, &mut none);
            if has_room(len, out.len()) {
                Ok(put_table(table, &mut *out))
            } else {
                Ok(length_to(len))
            }
        }
    }
}
