// What is refused: 01's refusals by name, and a refusal with its places.
ghost use Rattle.std.specs.Prelude.{◌≡◌};
ghost use Rattle.base.specs.Reasons.{number_of};

// "Refusal numbers", in 01's order.
#[derive(Clone, Copy, Debug, PartialEq, Eq)]
pub enum Reason {
    FileTooLong,
    ModelBad,
    EndMissing,
    ByteNotPermitted,
    ContinuationMissing,
    RoomTooSmall,
    OtherCode,
    MotrForMtid,
    NameWrong,
    TableSkipped,
    FieldCount,
    UndefinedField,
    WrongShape,
    OutsideDomain,
    IdentificationTwice,
    TableFull,
    ObjectMissing,
    FormForbidden,
    NoSuchLines,
    WidthWrong,
    OutputTooSmall,
}

impl Reason {
    // Its number in 01.
    pub fn number(self) -> u8
        ensures { result ≡ number_of self }
    {
        match self {
            Reason::FileTooLong => 1,
            Reason::ModelBad => 2,
            Reason::EndMissing => 3,
            Reason::ByteNotPermitted => 4,
            Reason::ContinuationMissing => 5,
            Reason::RoomTooSmall => 6,
            Reason::OtherCode => 7,
            Reason::MotrForMtid => 8,
            Reason::NameWrong => 9,
            Reason::TableSkipped => 10,
            Reason::FieldCount => 11,
            Reason::UndefinedField => 12,
            Reason::WrongShape => 13,
            Reason::OutsideDomain => 14,
            Reason::IdentificationTwice => 15,
            Reason::TableFull => 16,
            Reason::ObjectMissing => 17,
            Reason::FormForbidden => 18,
            Reason::NoSuchLines => 19,
            Reason::WidthWrong => 20,
            Reason::OutputTooSmall => 21,
        }
    }
}

// A refusal of a line or a row, and its field.
#[derive(Clone, Copy)]
pub struct Refusal {
    pub reason: Reason,
    pub field: usize,
}

// A refusal and its two places.
#[derive(Clone, Copy)]
pub struct Refused {
    pub reason: Reason,
    pub first: usize,
    pub second: usize,
}
