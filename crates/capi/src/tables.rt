// Tables for C and Rust callers, over bytes and words; a slice is passed as its pointer, then its length. A refusal with
// number k is answered as 4294967296 + k.
ghost use Rattle.std.specs.Prelude.{◌≡◌};
ghost use Rattle.motor_table.specs.Records.{read_at};
ghost use Rattle.motor_table.specs.Tables.{read_table};
ghost use Rattle.motor_table.specs.Targets.{target_of};
ghost use Rattle.motor_table.specs.Text.{word_number, entries_of, table_of, written_text};
ghost use Rattle.motor_table.specs.Refusals.{refusal_number};
ghost use Rattle.capi.specs.TableExports.{refused_number, number_word, words_after, next_position, words_read, table_number, written_number};

use motor_table::record::{Entry, record_at};
use motor_table::refusal::TableRefusal;
use motor_table::table::read_table;
use motor_table::target::target_velocity;
use motor_table::text::{word_number, write_table};
use motor_table::whole_number::Number;

fn refused_number(refused: TableRefusal) -> u64
    ensures { result ≡ refused_number (refusal_number refused) }
{
    4294967296 + refused.number() as u64
}

// How many records a table holds, or its refusal by a model of so many joints.
#[unsafe(no_mangle)]
pub extern "C" fn katydidzinc_motor_table_read(text: &[u8], joints: u32) -> u64
    ensures { result ≡ table_number (read_table joints text.now) }
{
    match read_table(text, joints) {
        Ok(n) => n as u64,
        Err(refused) => refused_number(refused),
    }
}

// A number as a word in two's complement.
fn number_word(n: Number) -> u32
    ensures { result ≡ number_word n }
{
    if n.negative && 0 < n.size {
        0xffff_ffff - (n.size - 1)
    } else {
        n.size
    }
}

fn put_words(words: &mut [u32], e: Entry)
    ensures { words.new ≡ words_after words.old e }
{
    if 3 <= words.len() {
        words[0] = number_word(e.joint);
        words[1] = number_word(e.axis);
        words[2] = number_word(e.thousandths);
    }
}

// The record at a position: its three numbers as words, and where the next one starts; 0 where there is none.
#[unsafe(no_mangle)]
pub extern "C" fn katydidzinc_motor_table_record(text: &[u8], at: usize, words: &mut [u32]) -> usize
    ensures value { result ≡ next_position (read_at text.now at) }
    ensures words_after { words.new ≡ words_read words.old (read_at text.now at) }
{
    match record_at(text, at) {
        Ok(read) => {
            put_words(&mut *words, read.entry);
            read.next
        }
        Err(_) => 0,
    }
}

// The target velocity of a word of thousandths.
#[unsafe(no_mangle)]
pub extern "C" fn katydidzinc_motor_table_target(word: u32) -> f32
    ensures { result ≡ target_of (word_number word) }
{
    target_velocity(word_number(word))
}

// The text of a table of words, three a record: its length, or the refusal.
#[unsafe(no_mangle)]
pub extern "C" fn katydidzinc_motor_table_write(table: &[u32], joints: u32, out: &mut [u8]) -> u64
    ensures value { result ≡ written_number (table_of joints (entries_of table.now)) }
    ensures out_after { out.new ≡ written_text out.old (table_of joints (entries_of table.now)) }
{
    match write_table(table, joints, &mut *out) {
        Ok(n) => n as u64,
        Err(refused) => refused_number(refused),
    }
}
