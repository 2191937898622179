// A study's text: lines of words. Blanks part words, `#` starts a comment that ends with its line. Places in the text are byte
// offsets; a line and a column are told from an offset only where somebody is to read them.
ghost use Rattle.std.specs.Prelude.{◌≡◌, ◌+◌, drop};
ghost use Rattle.study_reader.specs.Words.{has, same_bytes, is_blank, ends_word, after_blanks, after_bytes, next_word, is_empty, ends_quoted, after_quoted, is_quote, quoted_word, next_line, bytes_of, is_word, same_words, holds_byte, feeds_in, column_after, line_of, column_of, whole_number, whole_of};

// The bytes from `start` to before `end`; none of them where the line holds no more words.
#[derive(Clone, Copy)]
pub struct Word {
    pub start: usize,
    pub end: usize,
}

// ---- bytes

// Blanks: space, tab and carriage return.
fn is_blank(b: u8) -> bool
    ensures { result ≡ is_blank b }
{
    has_byte(b" \t\r", b)
}

fn ends_word(b: u8) -> bool
    ensures { result ≡ ends_word b }
{
    is_blank(b) || has_byte(b"\n#", b)
}

fn has_byte(bytes: &[u8], b: u8) -> bool
    ensures { result ≡ has bytes.now b }
{
    bytes.contains(&b)
}

fn same_bytes(a: &[u8], b: &[u8]) -> bool
    ensures { result ≡ same_bytes a.now b.now }
{
    a == b
}

// ---- words

fn after_blanks(text: &[u8], from: usize) -> usize
    ensures { result ≡ after_blanks text.now from }
{
    for at in from..text.len() {
        if !is_blank(text[at]) {
            return at;
        }
    }
    from.max(text.len())
}

fn after_bytes(text: &[u8], from: usize) -> usize
    ensures { result ≡ after_bytes text.now from }
{
    for at in from..text.len() {
        if ends_word(text[at]) {
            return at;
        }
    }
    from.max(text.len())
}

// The next word of the line.
pub fn next_word(text: &[u8], from: usize) -> Word
    ensures { result ≡ next_word text.now from }
{
    let start = after_blanks(text, from);
    let end = after_bytes(text, start);
    Word { start, end }
}

pub fn is_empty(w: Word) -> bool
    ensures { result ≡ is_empty w }
{
    w.end <= w.start
}

// ---- words in quotes

// A quote, or the end of the line.
fn ends_quoted(b: u8) -> bool
    ensures { result ≡ ends_quoted b }
{
    has_byte(b"\"\n", b)
}

fn after_quoted(text: &[u8], from: usize) -> usize
    ensures { result ≡ after_quoted text.now from }
{
    for at in from..text.len() {
        if ends_quoted(text[at]) {
            return at;
        }
    }
    from.max(text.len())
}

// A quote stands at a place.
pub fn is_quote(text: &[u8], at: usize) -> bool
    ensures { result ≡ is_quote text.now at }
{
    at < text.len() && text[at] == b'"'
}

// The bytes from a place up to the next quote, or the end of the line.
pub fn quoted_word(text: &[u8], start: usize) -> Word
    ensures { result ≡ quoted_word text.now start }
{
    let end = after_quoted(text, start);
    Word { start, end }
}

// ---- lines

// Where the next line starts.
pub fn next_line(text: &[u8], from: usize) -> usize
    ensures { result ≡ next_line text.now from }
{
    for at in from..text.len() {
        if text[at] == b'\n' {
            return at + 1;
        }
    }
    from.max(text.len())
}

// The bytes of a word, as far as the text has them.
pub fn bytes_of(text: &[u8], w: Word) -> &[u8]
    ensures { result.now ≡ bytes_of text.now w }
{
    if w.end <= w.start || text.len() <= w.start {
        return &text[..0];
    }
    if text.len() < w.end {
        return &text[w.start..];
    }
    &text[w.start..w.end]
}

// A word is this text.
pub fn is(text: &[u8], w: Word, name: &[u8]) -> bool
    ensures { result ≡ is_word text.now w name.now }
{
    same_bytes(bytes_of(text, w), name)
}

// Two words are the same bytes.
pub fn same_words(text: &[u8], a: Word, b: Word) -> bool
    ensures { result ≡ same_words text.now a b }
{
    same_bytes(bytes_of(text, a), bytes_of(text, b))
}

// A word has this byte in it.
pub fn holds(text: &[u8], w: Word, b: u8) -> bool
    ensures { result ≡ holds_byte text.now w b }
{
    has_byte(bytes_of(text, w), b)
}

// ---- lines and columns, from 1

fn line_after(bytes: &[u8]) -> u64
    ensures { result ≡ 1 + feeds_in bytes.now }
{
    let mut line: u64 = 1;
    for i in 0..bytes.len() {
        if bytes[i] == b'\n' {
            line += 1;
        }
    }
    line
}

fn column_after(bytes: &[u8]) -> u64
    ensures { result ≡ column_after 1 bytes.now }
{
    let mut column: u64 = 1;
    for i in 0..bytes.len() {
        if bytes[i] == b'\n' {
            column = 1;
        } else {
            column += 1;
        }
    }
    column
}

// The number of the line that holds an offset.
pub fn line_of(text: &[u8], at: usize) -> u64
    ensures { result ≡ line_of text.now at }
{
    line_after(bytes_of(text, Word { start: 0, end: at }))
}

// The column of an offset in its line.
pub fn column_of(text: &[u8], at: usize) -> u64
    ensures { result ≡ column_of text.now at }
{
    column_after(bytes_of(text, Word { start: 0, end: at }))
}

// ---- whole numbers

// Digits, up to 4294967289; none where there is a sign, or the number is too large.
fn whole_in(bytes: &[u8]) -> Option<u32>
    ensures { result ≡ whole_number bytes.now }
{
    if bytes.is_empty() {
        return None;
    }
    let mut n: u32 = 0;
    for i in 0..bytes.len() {
        let b = bytes[i];
        if b < b'0' {
            return None;
        }
        if b > b'9' {
            return None;
        }
        if n > 429496728 {
            return None;
        }
        n = n * 10 + (b - b'0') as u32;
    }
    Some(n)
}

pub fn whole_number(text: &[u8], w: Word) -> Option<u32>
    ensures { result ≡ whole_of text.now w }
{
    whole_in(bytes_of(text, w))
}
