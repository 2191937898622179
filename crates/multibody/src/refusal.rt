// Why a call is refused: document 01's eleven rules and those that document 02 adds, each with its number.
ghost use Rattle.std.specs.Prelude.{◌≡◌};
ghost use Rattle.multibody.specs.Answers.{refusal_number, refusal_of_table};

use motor_table::refusal::TableRefusal;

#[derive(Clone, Copy, PartialEq, Eq)]
pub enum Refusal {
    TooManyBodies = 1,
    TooManyJoints = 2,
    // a mask has an axis that there is not
    MaskOutOfRange = 3,
    // a joint's body is neither present nor the world
    NoSuchBody = 4,
    SameBodies = 5,
    NotFinite = 6,
    NegativeDt = 7,
    // row storage is smaller than the total count
    NoRoom = 8,
    TooManyRounds = 9,
    NotBuilt = 10,
    // a joint or body asked for by index is absent
    NoSuchIndex = 11,
    AngleTooLarge = 12,
    // a motor table breaks its grammar, or has too many records
    TableBroken = 13,
    // a record of it is not three whole numbers
    NotThreeNumbers = 14,
    // its joint or axis is absent
    NoSuchAxis = 15,
    // a frame of no substeps, or of too many
    Substeps = 16,
    // a joint in space has a coupled axis, or a limit or motor of an angle
    NotLinearAlone = 17,
}

impl Refusal {
    pub fn number(self) -> u32
        ensures { result ≡ refusal_number self }
    {
        self as u32
    }
}

// The rules of a motor table, under their numbers.
impl From<TableRefusal> for Refusal {
    ghost from_gives = { λ t r. r ≡ refusal_of_table t };

    fn from(t: TableRefusal) -> Refusal {
        match t {
            TableRefusal::Broken => Refusal::TableBroken,
            TableRefusal::NotThreeNumbers => Refusal::NotThreeNumbers,
            TableRefusal::Absent => Refusal::NoSuchAxis,
        }
    }
}
