// The bunkers of a floor table.
ghost use Rattle.std.specs.Prelude.{◌≡◌, true, is_some, Some, None, MatchResult};
ghost use Rattle.std.specs.List.{slice_get};
ghost use Rattle.dayfile.specs.Reading.{first_fault};
ghost use Rattle.dayfile.specs.Views.{read_of};
ghost use Rattle.planning.specs.Plans.{OfLine, not_made, BunkerOf, Made, UnmadeFault, FirstFault};

use crate::faults::NotPlanned;
use bunker_laws::settings::Settings;
use dayfile::reading::{ReadDay, Reading};
use daytables::rows::FloorLine;
use model::refusals::Refusal;

// The settings of a line, or why no bunker is made of it.
fn settings_of(line: FloorLine) -> Result<Settings, Refusal>
    ensures { MatchResult result (λ s. OfLine line s × (not_made line ≡ None)) (λ e. not_made line ≡ Some e) }
{
    Settings::new(line.floor, line.roof, line.start)
}

// The settings of the bunker of a line; otherwise why none is made of it, and nothing where there is no such line.
fn bunker_at(lines: &[FloorLine], i: usize) -> Result<Settings, Option<Refusal>>
    ensures { BunkerOf (slice_get lines.now i) result }
{
    let line = lines.get(i).ok_or(None)?;
    settings_of(*line).map_err(Some)
}

// The first fault, where one of the bunkers is not made for this reason, or its line is missing.
fn not_made(reading: &Reading<'_>, first: Option<Refusal>, second: Option<Refusal>) -> NotPlanned
    requires { is_some (first_fault (read_of reading.now) first second None) ≡ true }
    ensures { FirstFault (read_of reading.now) first second result }
{
    NotPlanned::Fault(reading.first_fault(first, second, None).unwrap())
}

// The settings of both bunkers, or the first fault, where one of them is not made.
pub(crate) fn both_settings(day: &ReadDay<'_>) -> Result<(Settings, Settings), NotPlanned>
    ensures { MatchResult result (Made (read_of day.now.reading)) (UnmadeFault (read_of day.now.reading)) }
{
    let reading = &day.reading;
    let lines = reading.bunkers.as_slice();
    match (bunker_at(lines, 0), bunker_at(lines, 1)) {
        (Ok(first), Ok(second)) => Ok((first, second)),
        (first, second) => Err(not_made(reading, first.err().flatten(), second.err().flatten())),
    }
}
