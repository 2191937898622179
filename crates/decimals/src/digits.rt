// Decimal digits of a word, from a position on.
ghost use Rattle.std.specs.Prelude.{◌≡◌, ◌+◌, ◌*◌, ◌^◌, ◌<◌, ◌≤◌, drop};
ghost use Rattle.texts.specs.Digits.{is_digit};
ghost use Rattle.decimals.specs.Capped.{cap, digits_of};

// The value of the digits, at most 10^19, and where they end.
#[derive(Clone, Copy)]
pub struct Digits {
    pub value: u64,
    pub end: usize,
}

fn is_digit(b: u8) -> bool
    ensures { result ≡ is_digit b }
{
    0x30 <= b && b <= 0x39
}

// One more digit; from 10^19 on the value grows no more.
fn grown(v: u64, d: u64) -> u64
    requires { d < 10 }
    ensures { result ≡ cap (v * 10 + d) }
{
    if v < 1000000000000000000 {
        v * 10 + d
    } else {
        10000000000000000000
    }
}

// The digits from a position on, after digits of the value v.
pub fn digits_at(word: &[u8], at: usize, v: u64) -> Digits
    requires { v ≤ 10 ^ 19 }
    ensures { result ≡ digits_of v at (drop at word.now) }
{
    let mut value = v;
    let mut i = at;
    // a `while`: `at` may lie past the word, where it is the digits' end
    while i < word.len() {
        let b = word[i];
        if !is_digit(b) {
            return Digits { value, end: i };
        }
        value = grown(value, (b - 0x30) as u64);
        i += 1;
    }
    Digits { value, end: i }
}
