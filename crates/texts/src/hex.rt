// Bits in hexadecimal digits.
ghost use Rattle.std.specs.Prelude.{◌≡◌, ◌<◌};
ghost use Rattle.texts.specs.Hex.{hex_digit, hex_word};

fn hex_digit(capitals: bool, d: u32) -> u8
    requires { d < 16 }
    ensures { result ≡ hex_digit capitals d }
{
    if d < 10 {
        return 48 + d as u8;
    }
    if capitals {
        return 55 + d as u8;
    }
    87 + d as u8
}

// 0x and eight digits.
pub fn hex_word(capitals: bool, n: u32) -> [u8; 10]
    ensures { result ≡ hex_word capitals n }
{
    let a7 = hex_digit(capitals, n / 0x1000_0000);
    let a6 = hex_digit(capitals, n / 0x100_0000 % 16);
    let a5 = hex_digit(capitals, n / 0x10_0000 % 16);
    let a4 = hex_digit(capitals, n / 0x1_0000 % 16);
    let a3 = hex_digit(capitals, n / 0x1000 % 16);
    let a2 = hex_digit(capitals, n / 0x100 % 16);
    let a1 = hex_digit(capitals, n / 0x10 % 16);
    let a0 = hex_digit(capitals, n % 16);
    [b'0', b'x', a7, a6, a5, a4, a3, a2, a1, a0]
}
