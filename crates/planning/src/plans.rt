// From the bytes of two files to the bytes of the answer.
ghost use Rattle.std.specs.Prelude.{◌≡◌, [], ◌∷◌, ◌++◌, MatchResult};
ghost use Rattle.dayfile.specs.Views.{read_of};
ghost use Rattle.model.specs.declared.refusals.Refusal.TheVariants.{OutOfMemory};
ghost use Rattle.runs.specs.declared.calls.Call.TheVariants.{Tighten};
ghost use Rattle.planning.specs.Plans.{PlayedFor, PlansFor, Plans};

use crate::bunkers::both_settings;
use crate::faults::NotPlanned;
use bunker_laws::settings::Settings;
use dayfile::files::DayFiles;
use dayfile::reading::{ReadDay, Reading, read_day};
use model::refusals::Refusal;
use output::writing::write_day;
use rules::limit::Limit;
use rules::rule::Rule;
use runs::calls::Call;
use sheet::running::{Played, run};
use std::alloc::Global;
use yard::yards::{HORIZON, Yard, build_yard};

// Plays the calls on a sheet over two bunkers of these settings and a weighbridge. Only want of memory refuses it.
fn play(
    heap: Global,
    first: Settings,
    second: Settings,
    calls: &[Call<'_>],
) -> Result<Played<Yard>, Refusal>
    ensures { MatchResult result (PlayedFor first second calls.now) (λ e. e ≡ OutOfMemory) }
{
    let yard = build_yard(heap, first, second)?;
    let played = run(heap, yard, HORIZON, calls)?;
    Ok(played)
}

// Plays the calls of a reading, and then tightens the sheet. Only want of memory refuses it.
fn play_reading(
    heap: Global,
    reading: &mut Reading<'_>,
    first: Settings,
    second: Settings,
) -> Result<Played<Yard>, Refusal>
    ensures played { MatchResult result (PlayedFor first second (reading.old.calls.items ++ Tighten ∷ [])) (λ e. e ≡ OutOfMemory) }
    ensures places { reading.new.places ≡ reading.old.places }
    ensures fault { reading.new.fault ≡ reading.old.fault }
{
    // a push fails with an error of its own, from which no `From` leads to a refusal
    reading
        .calls
        .push(Call::Tighten)
        .map_err(|_| Refusal::OutOfMemory)?;
    play(heap, first, second, reading.calls.as_slice())
}

// Plans a day that was read. The first fault is that of a bunker that is not made, of a call that is refused, or the one at which
// reading ended.
fn plan_reading(heap: Global, day: ReadDay<'_>, buffer: &mut [u8]) -> Result<usize, NotPlanned>
    ensures { PlansFor (read_of day.entry.reading) buffer.old buffer.new result }
{
    let (first, second) = both_settings(&day)?;
    let mut reading = day.reading;
    let played = play_reading(heap, &mut reading, first, second)?;
    if let Some(fault) = reading.first_fault(None, None, played.told.refused) {
        return Err(NotPlanned::Fault(fault));
    }
    let len = write_day(&played.sheet, buffer)?;
    Ok(len)
}

// Plans the day of two files, and writes the output at the front of the buffer; the answer is its length. Otherwise the buffer stays
// as it was, and the answer is the first fault, or that there is no memory or that the buffer is too short.
pub fn plan_day<'a>(
    heap: Global,
    files: DayFiles<'a>,
    buffer: &mut [u8],
) -> Result<usize, NotPlanned>
    ensures { Plans files.entry.bridge.now files.entry.hall.now buffer.old buffer.new result }
{
    let day = read_day(heap, files)?;
    plan_reading(heap, day, buffer)
}
