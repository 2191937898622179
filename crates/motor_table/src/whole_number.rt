// Whole numbers of request R-6, an optional sign and digits, read a byte at a time.
ghost use Rattle.std.specs.Prelude.{◌≡◌, ◌<◌};
ghost use Rattle.motor_table.specs.Scan.{no_number, empty_field, grown, with_digit, with_sign, push_of, is_number, number_in};

// The largest size of a number in a table.
pub const LARGEST_SIZE: u32 = 8000000;

// Zero is not negative.
#[derive(Clone, Copy)]
pub struct Number {
    pub negative: bool,
    pub size: u32,
}

// What the bytes of a field so far spell.
#[derive(Clone, Copy)]
pub enum Spelling {
    Nothing,
    Sign,
    Digits,
    NoNumber,
}

// A field as its bytes come in. Past the largest size the number grows no more.
#[derive(Clone, Copy)]
pub struct Field {
    pub spelling: Spelling,
    pub minus: bool,
    pub size: u32,
}

impl Field {
    pub fn empty() -> Self
        ensures { result ≡ empty_field }
    {
        Field {
            spelling: Spelling::Nothing,
            minus: false,
            size: 0,
        }
    }

    fn no_number() -> Self
        ensures { result ≡ no_number }
    {
        Field {
            spelling: Spelling::NoNumber,
            minus: false,
            size: 0,
        }
    }
}

fn grow(minus: bool, size: u32, d: u32) -> Field
    requires { d < 10 }
    ensures { result ≡ grown minus size d }
{
    if size <= LARGEST_SIZE {
        return Field {
            spelling: Spelling::Digits,
            minus,
            size: size * 10 + d,
        };
    }
    Field {
        spelling: Spelling::Digits,
        minus,
        size,
    }
}

fn with_digit(f: Field, d: u32) -> Field
    requires { d < 10 }
    ensures { result ≡ with_digit f.spelling f.minus f.size d }
{
    match f.spelling {
        Spelling::Nothing | Spelling::Sign | Spelling::Digits => grow(f.minus, f.size, d),
        Spelling::NoNumber => Field::no_number(),
    }
}

fn with_sign(f: Field, minus: bool) -> Field
    ensures { result ≡ with_sign f.spelling minus }
{
    match f.spelling {
        Spelling::Nothing => Field {
            spelling: Spelling::Sign,
            minus,
            size: 0,
        },
        Spelling::Sign | Spelling::Digits | Spelling::NoNumber => Field::no_number(),
    }
}

pub fn push(f: Field, b: u8) -> Field
    ensures { result ≡ push_of f b }
{
    match b {
        b'0'..=b'9' => with_digit(f, (b - b'0') as u32),
        b'+' => with_sign(f, false),
        b'-' => with_sign(f, true),
        _ => Field::no_number(),
    }
}

pub fn is_number(f: Field) -> bool
    ensures { result ≡ is_number f }
{
    match f.spelling {
        Spelling::Digits => f.size <= LARGEST_SIZE,
        Spelling::Nothing | Spelling::Sign | Spelling::NoNumber => false,
    }
}

pub fn number_in(f: Field) -> Number
    ensures { result ≡ number_in f }
{
    Number {
        negative: f.minus && 0 < f.size,
        size: f.size,
    }
}
