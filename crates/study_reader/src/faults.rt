// What is wrong with a text that cannot be read.
ghost use Rattle.std.specs.Prelude.{◌≡◌};
ghost use Rattle.study_reader.specs.Faults.{number, number_of, offset_of};

#[derive(Clone, Copy, PartialEq, Eq)]
pub enum Fault {
    Unknown,
    Name,
    Taken,
    NoBody,
    Number,
    Digits,
    LineEnd,
    Axis,
    BodiesFull,
    JointsFull,
    AfterCalls,
    Elsewhere,
    WholeNumber,
    NoJoint,
    NoRepeat,
    Nested,
    OpenRepeat,
    Model,
    WorldName,
    Warm,
    Csv,
    FileName,
    LongName,
    PlainName,
    Mask,
    Substeps,
    // what is none of these, by its number: the reader finds none such, and `faulty` takes any
    Other(u32),
}

impl Fault {
    // Its number in the C interface.
    pub fn number(self) -> u32
        ensures { result ≡ number self }
    {
        match self {
            Fault::Unknown => 1,
            Fault::Name => 2,
            Fault::Taken => 3,
            Fault::NoBody => 4,
            Fault::Number => 5,
            Fault::Digits => 6,
            Fault::LineEnd => 7,
            Fault::Axis => 8,
            Fault::BodiesFull => 9,
            Fault::JointsFull => 10,
            Fault::AfterCalls => 11,
            Fault::Elsewhere => 12,
            Fault::WholeNumber => 13,
            Fault::NoJoint => 14,
            Fault::NoRepeat => 15,
            Fault::Nested => 16,
            Fault::OpenRepeat => 17,
            Fault::Model => 18,
            Fault::WorldName => 19,
            Fault::Warm => 20,
            Fault::Csv => 21,
            Fault::FileName => 22,
            Fault::LongName => 23,
            Fault::PlainName => 24,
            Fault::Mask => 25,
            Fault::Substeps => 26,
            Fault::Other(number) => number,
        }
    }
}

// A fault and its offset in the text.
#[derive(Clone, Copy, PartialEq, Eq)]
pub struct FaultAt {
    pub fault: Fault,
    pub at: usize,
}

// The number of what may be a fault, 0 for none; and its offset, 0 for none.
pub fn number_of(fault: Option<FaultAt>) -> u32
    ensures { result ≡ number_of fault }
{
    match fault {
        Some(f) => f.fault.number(),
        None => 0,
    }
}

pub fn offset_of(fault: Option<FaultAt>) -> usize
    ensures { result ≡ offset_of fault }
{
    match fault {
        Some(f) => f.at,
        None => 0,
    }
}
