// The trailer's day, built in: unhook, tip 400 kilos then, and weigh ten minutes or more after.
use anyhow::anyhow;
use bunker_laws::settings::Settings;
use dayfolder::printing::MOST_OUTPUT;
use model::refusals::Refusal;
use model::slips::{Distance, Use};
use output::writing::write_day;
use rules::limit::Limit;
use rules::rule::Rule;
use runs::calls::Call;
use sheet::running::{Played, run};
use std::alloc::Global;
use std::io::Write;
use yard::yards::{HORIZON, Yard, build_yard};

// The day played, with its sheet tightened.
pub(crate) fn plan_trailer(heap: Global) -> Result<Played<Yard>, Refusal> {
    let first = Settings::new(0, 1_000, 0)?;
    let second = Settings::new(0, 500, 500)?;
    let yard = build_yard(heap, first, second)?;
    let calls = [
        Call::Name(b"unhook"),
        Call::Name(b"weigh"),
        Call::PostDistance(1, Distance::new(2, 1, -10)),
        Call::PostUse(0, 1, Use::new(1, 1, 400)),
        Call::Tighten,
    ];
    Ok(run(heap, yard, HORIZON, &calls)?)
}

// Prints the earliest and the latest minute of each point, and the verdict.
pub(crate) fn print_plan(rt: &HostRuntime, played: &Played<Yard>) -> anyhow::Result<()> {
    let mut output = [0u8; MOST_OUTPUT];
    let len = write_day(&played.sheet, &mut output).map_err(|_| anyhow!("not tightened"))?;
    rt.stdout().write_all(&output[..len])?;
    Ok(())
}
