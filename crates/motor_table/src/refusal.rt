// Why a motor table is refused: rules 13, 14 and 15 (document 01), of which the first faulty record's first decides.
ghost use Rattle.std.specs.Prelude.{◌≡◌};
ghost use Rattle.motor_table.specs.Refusals.{refusal_number};

#[derive(Clone, Copy, PartialEq, Eq)]
pub enum TableRefusal {
    // it breaks RFC 4180's grammar, or has more than 4096 records
    Broken,
    // a record is not three whole numbers, each at most 8000000 in size
    NotThreeNumbers,
    // a record's joint or axis is absent
    Absent,
}

impl TableRefusal {
    // The number of the rule that the table breaks.
    pub fn number(self) -> u32
        ensures { result ≡ refusal_number self }
    {
        match self {
            TableRefusal::Broken => 13,
            TableRefusal::NotThreeNumbers => 14,
            TableRefusal::Absent => 15,
        }
    }
}
