// Times the tightening of days: `bench ROUNDS FOLDER..` prints for each folder the verdict, the count of loose points, and the
// nanoseconds of one tightening and of the whole way from the files' bytes to the answer. Without arguments it does nothing.
#![tactic(auto)]

use anyhow::anyhow;
use bunker_laws::settings::Settings;
use dayfile::faults::DayFile;
use dayfile::files::DayFiles;
use dayfile::reading::read_day;
use dayfolder::printing::MOST_OUTPUT;
use daytables::rows::FloorLine;
use planning::plans::plan_day;
use rules::limit::Limit;
use rules::rule::Rule;
use runs::answers::Answer;
use sheet::sheets::Sheet;
use std::path::Path;
use std::time::Instant;
use std::{env, fs};
use yard::yards::{HORIZON, Yard, build_yard};

fn settings_of(line: FloorLine) -> anyhow::Result<Settings> {
    Settings::new(line.floor, line.roof, line.start).map_err(|_| anyhow!("bad settings"))
}

// A sheet over the bunkers of two floor lines and a weighbridge.
fn ruled(rt: &HostRuntime, first: FloorLine, second: FloorLine) -> anyhow::Result<Sheet<Yard>> {
    let first = settings_of(first)?;
    let second = settings_of(second)?;
    let yard = build_yard(rt.alloc(), first, second).map_err(|_| anyhow!("no memory"))?;
    Sheet::rule(rt.alloc(), yard, HORIZON).map_err(|_| anyhow!("no memory"))
}

// A sheet on which the day of two files stands.
fn posted(rt: &HostRuntime, files: DayFiles<'_>) -> anyhow::Result<Sheet<Yard>> {
    let reading = read_day(rt.alloc(), files)?.reading;
    let [first, second, ..] = reading.bunkers.as_slice() else {
        return Err(anyhow!("no bunkers"));
    };
    let mut sheet = ruled(rt, *first, *second)?;
    let _ = sheet.play(reading.calls.as_slice());
    Ok(sheet)
}

// The answer of tightening, and the nanoseconds that one takes.
fn time_tightening(
    rt: &HostRuntime,
    sheet: &mut Sheet<Yard>,
    rounds: u32,
) -> anyhow::Result<(Answer, u128)> {
    let start = Instant::now(rt)?;
    let mut answer = sheet.tighten();
    for _ in 1..rounds {
        answer = sheet.tighten();
    }
    let took = start.elapsed(rt)?;
    Ok((answer, took.as_nanos() / u128::from(rounds.max(1))))
}

// Plans a day, and forgets the answer.
fn plan_once(rt: &HostRuntime, files: DayFiles<'_>) {
    let mut output = [0u8; MOST_OUTPUT];
    let _ = plan_day(rt.alloc(), files, &mut output);
}

// The nanoseconds from the bytes of two files to the bytes of the answer.
fn time_planning(rt: &HostRuntime, files: DayFiles<'_>, rounds: u32) -> anyhow::Result<u128> {
    let start = Instant::now(rt)?;
    for _ in 0..rounds {
        plan_once(rt, files);
    }
    let took = start.elapsed(rt)?;
    Ok(took.as_nanos() / u128::from(rounds.max(1)))
}

// The bytes of a file, or the system's error, which a `DayFolder` would not tell.
fn bytes_of(rt: &HostRuntime, folder: &str, file: DayFile) -> anyhow::Result<Vec<u8>> {
    let path = Path::new(folder).join(rt.alloc(), file.name())?;
    Ok(fs::read(rt, path.as_path())?)
}

fn time_day(rt: &HostRuntime, folder: &str, rounds: u32) -> anyhow::Result<()> {
    let bridge = bytes_of(rt, folder, DayFile::Bridge)?;
    let hall = bytes_of(rt, folder, DayFile::Hall)?;
    let files = DayFiles {
        bridge: bridge.as_slice(),
        hall: hall.as_slice(),
    };
    let mut sheet = posted(rt, files)?;
    let (answer, tightening) = time_tightening(rt, &mut sheet, rounds)?;
    let planning = time_planning(rt, files, rounds)?;
    let verdict = answer.verdict;
    let count = answer.count;
    println!(rt; "{folder} {verdict} {count} {tightening} {planning}")?;
    Ok(())
}

fn main(rt: HostRuntime) -> anyhow::Result<()> {
    let mut args = env::args(&rt)?;
    let _program = args.next();
    let Some(rounds) = args.next() else {
        return Ok(());
    };
    let rounds = rounds.as_str().parse::<u32>()?;
    for folder in args {
        time_day(&rt, folder.as_str(), rounds)?;
    }
    Ok(())
}
