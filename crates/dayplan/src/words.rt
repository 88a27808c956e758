// What is wrong, in words for people. They stand here and not beside the enum, since they name the places of this yard.
use model::refusals::Refusal;

// Why a file, a line or the call that it stands for was refused.
pub(crate) fn reason(refusal: Refusal) -> &'static str {
    match refusal {
        Refusal::FileMissing => "the file is missing or cannot be read",
        Refusal::FileTooLong => "the file has more than 65,536 bytes",
        Refusal::FileUnended => "the file does not end with a line feed",
        Refusal::LineNotDue => "another line is due here",
        Refusal::BadFieldCount => "the line has too few or too many fields",
        Refusal::BadNumber => { "a number is malformed, or outside -100,000,000 to 100,000,000" }
        Refusal::UnknownLabel => "no point has that label",
        Refusal::BadSettings => "a bunker needs 0 <= floor <= start <= roof <= 100,000,000",
        Refusal::BadLabel => "a label has 1 to 8 bytes of a-z and 0-9",
        Refusal::LabelTaken => "the label is in use",
        Refusal::PointsFull => "64 points are named already",
        Refusal::NoPlace => "there is no such place: 0 and 1 are bunkers, 2 is the weighbridge",
        Refusal::BadSlipNumber => "a slip number is 1 to 9,999",
        Refusal::SamePoint => "a distance needs two different points",
        Refusal::BadUse => {
            "a bunker's use moves 1 to 1,000,000 kilos either way; a crossing has 0 kilos and two points"
        }
        Refusal::BadDistance => "the minutes are not -1,440 to 1,440",
        Refusal::NumberStands => "a slip of that number stands already",
        Refusal::SlipsFull => "256 distance slips stand already",
        Refusal::UsesFull(_) =>
            "the place's most uses stand already: 32 in a bunker, 16 on the weighbridge",
        // no line of a day is refused by one of these
        Refusal::BadHorizon
        | Refusal::UsesStand
        | Refusal::NoPoint
        | Refusal::NotStanding
        | Refusal::NotTightened
        | Refusal::NoPlan
        | Refusal::BadMinute
        | Refusal::BufferShort
        | Refusal::OutOfMemory => "the line is refused",
    }
}
