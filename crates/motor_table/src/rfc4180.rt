// RFC 4180's grammar, a byte at a time: where in a record the reader stands, and what a byte does there.
ghost use Rattle.std.specs.Prelude.{◌≡◌};
ghost use Rattle.motor_table.specs.Rfc4180.{is_textdata, move_at, non_escaped_move, separator_move, escaped_move, may_end};

#[derive(Clone, Copy)]
pub enum Place {
    FieldStart,
    // in a non_escaped field
    NonEscaped,
    // in an escaped field, before its closing quote
    Escaped,
    // after a quote in an escaped field: the closing one, or the first of two
    QuoteSeen,
    // after the CR of the CRLF that ends the record
    CrSeen,
}

// What a byte does to the record.
#[derive(Clone, Copy)]
pub enum Move {
    // it is the field's next byte
    Take(Place),
    // it is no byte of a field
    Skip(Place),
    // it is the comma before a next field
    NextField,
    // it is the last byte of the record's CRLF
    End,
    // no record goes on so
    Fault,
}

pub fn is_textdata(b: u8) -> bool
    ensures { result ≡ is_textdata b }
{
    matches!(b, 0x20..=0x21 | 0x23..=0x2b | 0x2d..=0x7e)
}

// A byte right after a field.
fn separator(b: u8) -> Move
    ensures { result ≡ separator_move b }
{
    match b {
        b',' => Move::NextField,
        b'\r' => Move::Skip(Place::CrSeen),
        _ => Move::Fault,
    }
}

fn non_escaped(b: u8) -> Move
    ensures { result ≡ non_escaped_move b }
{
    if is_textdata(b) {
        Move::Take(Place::NonEscaped)
    } else {
        separator(b)
    }
}

fn escaped(b: u8) -> Move
    ensures { result ≡ escaped_move b }
{
    if b == b'"' {
        return Move::Skip(Place::QuoteSeen);
    }
    if is_textdata(b) || b == b',' || b == b'\r' || b == b'\n' {
        return Move::Take(Place::Escaped);
    }
    Move::Fault
}

pub fn move_at(place: Place, b: u8) -> Move
    ensures { result ≡ move_at place b }
{
    match place {
        Place::FieldStart => {
            if b == b'"' {
                Move::Skip(Place::Escaped)
            } else {
                non_escaped(b)
            }
        }
        Place::NonEscaped => non_escaped(b),
        Place::Escaped => escaped(b),
        Place::QuoteSeen => {
            if b == b'"' {
                Move::Take(Place::Escaped)
            } else {
                separator(b)
            }
        }
        Place::CrSeen => { if b == b'\n' { Move::End } else { Move::Fault } }
    }
}

// Whether the bytes may end here.
pub fn may_end(place: Place) -> bool
    ensures { result ≡ may_end place }
{
    match place {
        Place::FieldStart | Place::NonEscaped | Place::QuoteSeen => true,
        Place::Escaped | Place::CrSeen => false,
    }
}
