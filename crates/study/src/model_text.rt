// The model that a study describes, in one spelling: the text of a study with no call.
use crate::out::Console;
use crate::run::Stop;
use multibody::header::Header;
use study_writer::study::write_study;

// How many bytes the text has, or 0 where there is none.
fn put_model(
    text: &mut [u8],
    header: Header,
    bodies: &[f32],
    words: &[u32],
    numbers: &[f32],
) -> usize {
    write_study(text, header, bodies, words, numbers)
}

pub fn print_model(
    con: &Console,
    header: Header,
    bodies: &[f32],
    words: &[u32],
    numbers: &[f32],
) -> Result<(), Stop> {
    let mut text = [0u8; 524288];
    let n = put_model(&mut text, header, bodies, words, numbers);
    if n == 0 {
        con.err(b"study: a model has at most 128 bodies and 128 joints\n");
        return Err(Stop::Unread);
    }
    con.out_part(&text, 0, n);
    Ok(())
}
