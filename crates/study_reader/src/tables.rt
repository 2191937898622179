// A table of words as a text: a line a word, and after the word the numbers that it means. A word that is added is a line of the
// table and a line of the definition that the table is held to.
ghost use Rattle.std.specs.Prelude.{◌≡◌};
ghost use Rattle.study_reader.specs.Words.{bytes_of};
ghost use Rattle.study_reader.specs.Tables.{end_in, number_after};

use crate::words::{Word, bytes_of, is, next_line, next_word, whole_number};

// Where the first word ends of the first line that starts with this word; the table's end where none does.
pub fn end_in(table: &[u8], text: &[u8], w: Word) -> usize
    ensures { result ≡ end_in table.now (bytes_of text.now w) }
{
    // A turn goes on by a line.
    let mut at: usize = 0;
    while at < table.len() {
        let v = next_word(table, at);
        if is(text, w, bytes_of(table, v)) {
            return v.end;
        }
        at = next_line(table, at);
    }
    table.len()
}

// The number that stands after a place of a table, and the other where none does.
pub fn number_after(table: &[u8], other: u32, at: usize) -> u32
    ensures { result ≡ number_after table.now other at }
{
    whole_number(table, next_word(table, at)).unwrap_or(other)
}

// The number after a word, and the other where the table does not have the word.
pub fn number_in(table: &[u8], other: u32, text: &[u8], w: Word) -> u32
    ensures { result ≡ number_after table.now other (end_in table.now (bytes_of text.now w)) }
{
    number_after(table, other, end_in(table, text, w))
}
