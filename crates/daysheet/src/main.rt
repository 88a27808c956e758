// Reads the day's two files, and answers whether they can be read.
#![tactic(auto)]

use crate::example::{plan_trailer, print_plan};
use anyhow::anyhow;
use arrayvec::ArrayVec;
use dayfile::faults::Fault;
use dayfolder::arguments::Request;
use dayfolder::folders::DayFolder;
use dayfolder::printing::FaultTable;
use std::{env, io};

mod example;

const HELP: &str = "daysheet [FOLDER]

Reads bridge.day and hall.day of FOLDER, or of the folder that it runs in, and
answers whether both are there, at most 65,536 bytes long and ended by a line
feed; then plans the trailer's day, which is built in. A fault is printed as the
table `file line refusal` (1 is bridge.day, 2 is hall.day), and ends the program
with status 1.";

// Prints the fault: a table of one line for programs, and a sentence for people.
fn print_fault(rt: &(impl Print + Eprint), fault: Fault) -> io::Result<()> {
    let table = FaultTable(fault);
    println!(rt; "{table}")?;
    let name = fault.file.name();
    eprintln!(rt; "{name}: missing, longer than 65,536 bytes, or not ended by a line feed")
}

// Plans the day that is built in.
fn print_example(rt: &HostRuntime) -> anyhow::Result<()> {
    println!(rt; "the trailer's day, which is built in:\n")?;
    let played = plan_trailer(rt.alloc()).map_err(|_| anyhow!("no memory for the sheet"))?;
    print_plan(rt, &played)
}

// Answers for the day files of one folder.
fn answer(rt: &HostRuntime, folder: &str) -> anyhow::Result<()> {
    if let Err(fault) = DayFolder::read(rt, folder).files() {
        print_fault(rt, fault)?;
        return Err(anyhow!("a fault in the day's files"));
    }
    println!(rt; "bridge.day and hall.day can be read\n")?;
    print_example(rt)
}

// Apart from that of dayplan, since each answers in its own way and names itself.
fn main(rt: HostRuntime) -> anyhow::Result<()> {
    // two words tell as much as all of them, and need no memory
    let mut words = ArrayVec::<String, 2, _>::new_in(rt.alloc());
    for word in env::args(&rt)?.skip(1).take(2) {
        let _ = words.try_push(word);
    }
    match Request::of(words.as_slice()) {
        Ok(Request::Help) => println!(rt; "{HELP}")?,
        Ok(Request::Day(folder)) => answer(&rt, folder)?,
        Err(too_many) => {
            eprintln!(rt; "daysheet takes one folder at the most; daysheet --help says more")?;
            return Err(too_many.into());
        }
    }
    Ok(())
}
