// The bar of a picture's scale: 1, 2 or 5 times a power of ten of metres.
use crate::out::Console;

#[derive(Clone, Copy)]
enum Digit {
    One,
    Two,
    Five,
}

// A length of a digit times a power of ten, whose exponent is kept 30 higher.
#[derive(Clone, Copy)]
struct Bar {
    digit: Digit,
    exponent: usize,
    metres: f32,
}

impl Bar {
    // The first bar that is at least 1000 units long, or the 200th after the shortest.
    fn of(scale: f32) -> Bar {
        let mut bar = Bar {
            digit: Digit::One,
            exponent: 0,
            metres: 1e-30,
        };
        for _turn in 0..200 {
            if bar.metres * scale >= 0.001 {
                return bar;
            }
            bar = bar.longer();
        }
        bar
    }

    // The bar after this one: 1, 2, 5, 10, ...
    fn longer(self) -> Bar {
        let Bar {
            digit,
            exponent,
            metres,
        } = self;
        match digit {
            Digit::One => Bar {
                digit: Digit::Two,
                exponent,
                metres: metres * 2.0,
            },
            Digit::Two => Bar {
                digit: Digit::Five,
                exponent,
                metres: metres * 2.5,
            },
            Digit::Five => Bar {
                digit: Digit::One,
                exponent: exponent.saturating_add(1),
                metres: metres * 2.0,
            },
        }
    }

    fn out_digit(self, con: &Console) {
        match self.digit {
            Digit::One => con.out(b"1"),
            Digit::Two => con.out(b"2"),
            Digit::Five => con.out(b"5"),
        }
    }

    // The number of metres as a decimal.
    fn out_metres(self, con: &Console) {
        if 30 <= self.exponent {
            self.out_digit(con);
            out_zeros(con, self.exponent - 30);
        } else {
            con.out(b"0.");
            out_zeros(con, 29 - self.exponent);
            self.out_digit(con);
        }
    }
}

fn out_zeros(con: &Console, n: usize) {
    for _ in 0..n {
        con.out(b"0");
    }
}

// The bar's label, under a height of the picture; answers how long the bar is.
pub fn out_scale(con: &Console, scale: f32, y: f32) -> f32 {
    let bar = Bar::of(scale);
    con.out(b"<text x=\"0\" y=\"");
    con.out_millionths(y + 0.0003);
    con.out(b"\">");
    bar.out_metres(con);
    con.out(b" m</text>\n");
    bar.metres * scale
}
