// A name as text of XML: what XML reserves by its entity, and a replacement character for each byte that XML does not take: a control byte, or one that
// is not part of a character in UTF-8.
use crate::out::Console;

fn out_character(con: &Console, c: char) {
    match c {
        '<' => con.out(b"&lt;"),
        '>' => con.out(b"&gt;"),
        '&' => con.out(b"&amp;"),
        '"' => con.out(b"&quot;"),
        '\'' => con.out(b"&apos;"),
        '\0'..='\x1F' | '\x7F' => con.out(b"&#xFFFD;"),
        // No characters of XML: three bytes each.
        '\u{FFFE}' | '\u{FFFF}' => con.out(b"&#xFFFD;&#xFFFD;&#xFFFD;"),
        _ => {
            let mut bytes = [0u8; 4];
            con.out(c.encode_utf8(&mut bytes).as_bytes());
        }
    }
}

pub fn out_escaped(con: &Console, name: &[u8]) {
    for chunk in name.utf8_chunks() {
        for c in chunk.valid().chars() {
            out_character(con, c);
        }
        for _ in chunk.invalid() {
            con.out(b"&#xFFFD;");
        }
    }
}
