// Reads the two files of a day, plans the day, and prints the answer or the first fault.
#![tactic(auto)]

use crate::words::reason;
use anyhow::anyhow;
use arrayvec::ArrayVec;
use dayfile::faults::Fault;
use dayfile::files::DayFiles;
use dayfile::lines::faulty_line;
use dayfolder::arguments::Request;
use dayfolder::folders::DayFolder;
use dayfolder::printing::{FaultTable, MOST_OUTPUT};
use planning::faults::NotPlanned;
use planning::plans::plan_day;
use std::io::Write;
use std::{env, io};

mod words;

const HELP: &str = "dayplan [FOLDER]

Reads bridge.day and hall.day of FOLDER, or of the folder that it runs in, and
prints the tightened day: the earliest and the latest minute of each point, the
verdict (noplan, open or any) and the number of loose points; under noplan the
verdict alone. Where a file cannot be read or a line is refused, it prints the
first fault as the table `file line refusal` (1 is bridge.day, 2 is hall.day),
says on standard error what is wrong, and ends with status 1.";

// Prints the fault: a table of one line for programs, and a sentence for people, with the bytes of the line as they are.
fn print_fault(rt: &HostRuntime, fault: Fault, line: &[u8]) -> io::Result<()> {
    let table = FaultTable(fault);
    println!(rt; "{table}")?;
    let name = fault.file.name();
    let at = fault.line;
    let why = reason(fault.refusal);
    if at == 0 {
        return eprintln!(rt; "{name}: {why}");
    }
    eprint!(rt; "{name}, line {at}: '")?;
    rt.stderr().write_all(line)?;
    eprintln!(rt; "': {why}")
}

// Prints the answer for two files, or their first fault.
fn print_day(rt: &HostRuntime, files: DayFiles<'_>) -> anyhow::Result<()> {
    let mut output = [0u8; MOST_OUTPUT];
    match plan_day(rt.alloc(), files, &mut output) {
        Ok(len) => {
            rt.stdout().write_all(&output[..len])?;
            Ok(())
        }
        Err(NotPlanned::Fault(fault)) => {
            print_fault(rt, fault, faulty_line(files, fault))?;
            Err(anyhow!("a fault in the day's files"))
        }
        Err(NotPlanned::Refused(_)) => {
            eprintln!(rt; "there is not enough memory to plan the day")?;
            Err(anyhow!("no memory"))
        }
    }
}

// Answers for the day files of one folder.
fn answer(rt: &HostRuntime, folder: &str) -> anyhow::Result<()> {
    match DayFolder::read(rt, folder).files() {
        Ok(files) => print_day(rt, files),
        Err(fault) => {
            print_fault(rt, fault, b"")?;
            Err(anyhow!("a file cannot be read"))
        }
    }
}

// Apart from that of daysheet, since each answers in its own way and names itself.
fn main(rt: HostRuntime) -> anyhow::Result<()> {
    // two words tell as much as all of them, and need no memory
    let mut words = ArrayVec::<String, 2, _>::new_in(rt.alloc());
    for word in env::args(&rt)?.skip(1).take(2) {
        let _ = words.try_push(word);
    }
    match Request::of(words.as_slice()) {
        Ok(Request::Help) => println!(rt; "{HELP}")?,
        Ok(Request::Day(folder)) => answer(&rt, folder)?,
        Err(too_many) => {
            eprintln!(rt; "dayplan takes one folder at the most; dayplan --help says more")?;
            return Err(too_many.into());
        }
    }
    Ok(())
}
