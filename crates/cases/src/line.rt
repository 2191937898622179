// The lines of the cases, read as those of a study are.
use model::layout::WORLD;
use study_reader::number::{number_in, value_of};
use study_reader::tables::number_after;
use study_reader::words::{Word, bytes_of, next_line, next_word};

// A leaf, whose answer is a number, a vector or another.
#[derive(Clone, Copy)]
pub enum Leaf {
    Inv,
    SimdInv,
    Signum,
    Difference,
    Max,
    Min,
    Root,
    Length,
    Dot,
    Angle,
    CrossMatrix,
    ComponentProduct,
    RotationProduct,
    RotationInverse,
    Rotated,
    Column0,
    Column1,
    PoseRotation,
    PoseTranslation,
    Clamp,
    Finite,
    Report,
}

// What a model is given: a header (dt, and 1 where rows are built), sizes, or a number at a place.
#[derive(Clone, Copy)]
pub enum Given {
    Header,
    Sizes,
    Body,
    Word,
    Number,
}

// A call, or what calls left.
#[derive(Clone, Copy)]
pub enum Call {
    Load,
    Place,
    Build,
    WarmBuild,
    WarmStart,
    Sweep,
    RemoveBias,
    WriteBack,
    ReadRows,
    ReadVelocity,
    SetTargets,
    Bounds,
    Target,
    Count,
    Unchanged,
    Masks,
    StoredWord,
}

#[derive(Clone, Copy)]
pub enum Step {
    Leaf(Leaf),
    Given(Given),
    Call(Call),
}

impl Step {
    fn of(word: &[u8]) -> Option<Step> {
        match word {
            b"inv" => Some(Step::Leaf(Leaf::Inv)),
            b"simd_inv" => Some(Step::Leaf(Leaf::SimdInv)),
            b"signum" => Some(Step::Leaf(Leaf::Signum)),
            b"difference" => Some(Step::Leaf(Leaf::Difference)),
            b"max" => Some(Step::Leaf(Leaf::Max)),
            b"min" => Some(Step::Leaf(Leaf::Min)),
            b"root" => Some(Step::Leaf(Leaf::Root)),
            b"length" => Some(Step::Leaf(Leaf::Length)),
            b"dot" => Some(Step::Leaf(Leaf::Dot)),
            b"angle" => Some(Step::Leaf(Leaf::Angle)),
            b"cross_matrix" => Some(Step::Leaf(Leaf::CrossMatrix)),
            b"component_product" => Some(Step::Leaf(Leaf::ComponentProduct)),
            b"rotation_product" => Some(Step::Leaf(Leaf::RotationProduct)),
            b"rotation_inverse" => Some(Step::Leaf(Leaf::RotationInverse)),
            b"rotated" => Some(Step::Leaf(Leaf::Rotated)),
            b"column0" => Some(Step::Leaf(Leaf::Column0)),
            b"column1" => Some(Step::Leaf(Leaf::Column1)),
            b"pose_rotation" => Some(Step::Leaf(Leaf::PoseRotation)),
            b"pose_translation" => Some(Step::Leaf(Leaf::PoseTranslation)),
            b"clamp" => Some(Step::Leaf(Leaf::Clamp)),
            b"finite" => Some(Step::Leaf(Leaf::Finite)),
            b"report" => Some(Step::Leaf(Leaf::Report)),
            b"header" => Some(Step::Given(Given::Header)),
            b"sizes" => Some(Step::Given(Given::Sizes)),
            b"body" => Some(Step::Given(Given::Body)),
            b"word" => Some(Step::Given(Given::Word)),
            b"number" => Some(Step::Given(Given::Number)),
            b"load" => Some(Step::Call(Call::Load)),
            b"place" => Some(Step::Call(Call::Place)),
            b"build" => Some(Step::Call(Call::Build)),
            b"warm_build" => Some(Step::Call(Call::WarmBuild)),
            b"warm_start" => Some(Step::Call(Call::WarmStart)),
            b"sweep" => Some(Step::Call(Call::Sweep)),
            b"remove_bias" => Some(Step::Call(Call::RemoveBias)),
            b"write_back" => Some(Step::Call(Call::WriteBack)),
            b"read_rows" => Some(Step::Call(Call::ReadRows)),
            b"read_velocity" => Some(Step::Call(Call::ReadVelocity)),
            b"set_targets" => Some(Step::Call(Call::SetTargets)),
            b"bounds" => Some(Step::Call(Call::Bounds)),
            b"target" => Some(Step::Call(Call::Target)),
            b"count" => Some(Step::Call(Call::Count)),
            b"unchanged" => Some(Step::Call(Call::Unchanged)),
            b"masks" => Some(Step::Call(Call::Masks)),
            b"stored_word" => Some(Step::Call(Call::StoredWord)),
            _ => None,
        }
    }
}

// What is run, if anything; where its first argument is looked for, and its second and its third; its name.
#[derive(Clone, Copy)]
pub struct Line<'a> {
    pub step: Option<Step>,
    pub a: usize,
    pub b: usize,
    pub c: usize,
    pub name: &'a [u8],
}

// The name that stands after the colon, to the end of the line.
fn name_in(line: &[u8]) -> &[u8] {
    for (i, b) in line.iter().enumerate() {
        if *b == b':' {
            let rest = &line[i + 1..];
            let start = next_word(rest, 0).start;
            let end = rest.len().saturating_sub(1);
            return bytes_of(rest, Word { start, end });
        }
    }
    &line[..0]
}

impl Line<'_> {
    pub fn at(text: &[u8], at: usize) -> Line<'_> {
        let w = next_word(text, at);
        let a = next_word(text, w.end);
        let b = next_word(text, a.end);
        let rest = Word {
            start: w.end,
            end: next_line(text, w.end),
        };
        Line {
            step: Step::of(bytes_of(text, w)),
            a: w.end,
            b: a.end,
            c: b.end,
            name: name_in(bytes_of(text, rest)),
        }
    }
}

// ---- arguments

pub fn float_at(text: &[u8], at: usize) -> f32 {
    value_of(number_in(text, next_word(text, at)))
}

// A whole number; any other word stands for the world.
pub fn whole_at(text: &[u8], at: usize) -> u32 {
    number_after(text, WORLD, at)
}

// As many as eight numbers.
pub fn floats_at(text: &[u8], from: usize) -> [f32; 8] {
    let mut numbers = [0.0f32; 8];
    let mut at = from;
    for x in numbers.iter_mut() {
        let w = next_word(text, at);
        *x = value_of(number_in(text, w));
        at = w.end;
    }
    numbers
}
