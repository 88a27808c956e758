// What is wrong with a line.
ghost use Rattle.std.specs.Prelude.{◌≡◌};
ghost use Rattle.daytables.specs.Faults.{refusal_of};
ghost use Rattle.daytables.specs.declared.faults.LineFault.TheVariants.{Field as ofField};

use dayline::fields::FieldFault;
use model::refusals::Refusal;

// What the reader of a line finds, a field's fault among it.
#[derive(Clone, Copy)]
pub enum LineFault {
    // another line is due
    NotDue,
    // too few or too many fields
    BadCount,
    // what is wrong with a field
    Field(FieldFault),
}

impl From<FieldFault> for LineFault {
    ghost from_gives = { λ e r. r ≡ ofField e };

    fn from(fault: FieldFault) -> LineFault {
        LineFault::Field(fault)
    }
}

impl From<LineFault> for Refusal {
    ghost from_gives = { λ e r. r ≡ refusal_of e };

    fn from(fault: LineFault) -> Refusal {
        fault.refusal()
    }
}

impl LineFault {
    // The refusal of the line.
    pub fn refusal(self) -> Refusal
        ensures { result ≡ refusal_of self }
    {
        match self {
            LineFault::NotDue => Refusal::LineNotDue,
            LineFault::BadCount => Refusal::BadFieldCount,
            LineFault::Field(FieldFault::BadNumber) => Refusal::BadNumber,
            LineFault::Field(FieldFault::UnknownLabel) => Refusal::UnknownLabel,
        }
    }
}
