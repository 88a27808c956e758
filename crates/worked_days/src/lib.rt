// Days that can be worked out by hand, as one theorem about the definitions that the contracts of the sheet cite.
#![tactic(auto)]

ghost use Rattle.worked_days.specs.Worked.{WorkedDays};

// Each worked day tightens to the table, verdict and loose points that specs/Worked.antt has for it.
pub fn worked_days_hold()
    ensures { WorkedDays }
{}
