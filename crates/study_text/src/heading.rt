// The first line of the table. Each function writes it to the front of `out` and answers its length; where `out` is shorter nothing is written,
// and the length is answered all the same.
ghost use Rattle.std.specs.Prelude.{◌≡◌};
ghost use Rattle.texts.specs.Sink.{Wrote};
ghost use Rattle.study_text.specs.Heading.{heading, csv_heading};

use texts::sink::write_text;

pub fn write_heading(out: &mut [u8]) -> usize
    ensures { Wrote out.old heading out.new result }
{
    write_text(
        out,
        b"joint       body 1    body 2    row            impulse     lower bound     upper bound        residual at   rule\n",
    )
}

pub fn write_csv_heading(out: &mut [u8]) -> usize
    ensures { Wrote out.old csv_heading out.new result }
{
    write_text(
        out,
        b"joint,body1,body2,id,unit,impulse [1e-6 unit],impulse [unit],impulse [f32 bits],lower bound [1e-6 unit],lower bound [unit],lower bound [f32 bits],upper bound [1e-6 unit],upper bound [unit],upper bound [f32 bits],residual [1e-6 unit],residual [unit],residual [f32 bits],at bound,rule,definition\r\n",
    )
}
