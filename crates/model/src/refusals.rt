// Why a call or a line of a file is turned away.
ghost use Rattle.std.specs.Prelude.{◌≡◌};
ghost use Rattle.model.specs.Refusals.{number_of};
ghost use Rattle.model.specs.declared.refusals.Refusal.TheVariants.{OutOfMemory};

use std::alloc::AllocError;

// One case for each cause. docs/FORMATS.md has the numbers under which people know them.
#[derive(Clone, Copy, Debug, PartialEq, Eq)]
pub enum Refusal {
    // the horizon of a sheet is not 1 to 10,080
    BadHorizon,
    // a use stands in the limits that a sheet is ruled with
    UsesStand,
    // a bunker's settings are not 0 <= floor <= start <= roof <= 100,000,000
    BadSettings,
    // a label is not 1 to 8 bytes of a-z, 0-9
    BadLabel,
    // the label is in use
    LabelTaken,
    // 64 points are named
    PointsFull,
    // there is no such place
    NoPlace,
    // a slip number is not 1 to 9,999
    BadSlipNumber,
    // there is no such point
    NoPoint,
    // a distance slip joins a point to itself
    SamePoint,
    // a use is not of the form that its place takes
    BadUse,
    // the minutes of a distance slip lie outside the horizon, either way
    BadDistance,
    // a slip of that number stands
    NumberStands,
    // 256 distance slips stand
    SlipsFull,
    // the place's most uses, here told, stand
    UsesFull(usize),
    // no slip of that number stands
    NotStanding,
    // the sheet has not been tightened since it was ruled or last changed
    NotTightened,
    // the verdict is "no plan", so there is no bound or level to tell
    NoPlan,
    // a minute is not 0 to the horizon
    BadMinute,
    // a day file is not there, or cannot be read
    FileMissing,
    // a day file has more than 65,536 bytes
    FileTooLong,
    // a day file does not end with a line feed
    FileUnended,
    // a line is not the one that is due
    LineNotDue,
    // a line has too few or too many fields
    BadFieldCount,
    // a number is malformed, or outside -100,000,000 to 100,000,000
    BadNumber,
    // no point has that label
    UnknownLabel,
    // the buffer is too short for the output
    BufferShort,
    // there is no memory
    OutOfMemory,
}

impl Refusal {
    // The number under which people know the refusal, 1 to 22. Want of memory has none.
    pub fn number(self) -> Option<u8>
        ensures { result ≡ number_of self }
    {
        let number = match self {
            Refusal::BadHorizon | Refusal::UsesStand => 1,
            Refusal::BadSettings => 2,
            Refusal::BadLabel => 3,
            Refusal::LabelTaken => 4,
            Refusal::PointsFull => 5,
            Refusal::NoPlace => 6,
            Refusal::BadSlipNumber => 7,
            Refusal::NoPoint => 8,
            Refusal::SamePoint | Refusal::BadUse => 9,
            Refusal::BadDistance => 10,
            Refusal::NumberStands => 11,
            Refusal::SlipsFull | Refusal::UsesFull(_) => 12,
            Refusal::NotStanding => 13,
            Refusal::NotTightened => 14,
            Refusal::NoPlan => 15,
            Refusal::BadMinute => 16,
            Refusal::FileMissing | Refusal::FileTooLong | Refusal::FileUnended => 17,
            Refusal::LineNotDue => 18,
            Refusal::BadFieldCount => 19,
            Refusal::BadNumber => 20,
            Refusal::UnknownLabel => 21,
            Refusal::BufferShort => 22,
            Refusal::OutOfMemory => return None,
        };
        Some(number)
    }
}

impl From<AllocError> for Refusal {
    ghost from_gives = { λ _ r. r ≡ OutOfMemory };

    fn from(_error: AllocError) -> Refusal {
        Self::OutOfMemory
    }
}
