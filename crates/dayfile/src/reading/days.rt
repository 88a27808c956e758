// A whole day.
ghost use Rattle.std.specs.Prelude.{◌≡◌, IfOk};
ghost use Rattle.dayline.specs.Parts.{lines_of};
ghost use Rattle.dayfile.specs.Reading.{Sound, read_lines, reads};
ghost use Rattle.dayfile.specs.Views.{read_of};

use super::Reading;
use crate::faults::DayFile;
use crate::files::{DayFiles, check_files};
use dayline::parts::split_lines;
use daytables::due::Due;
use std::alloc::{AllocError, Global};

// The lines that the floor table takes, with the line that closes it.
const FLOOR_LINES: usize = 4;

// A day that was read to its end or to its first fault.
#[derive(Drop)]
pub struct ReadDay<'a> {
    pub reading: Reading<'a>,
    pub ghost sound: { Sound (read_of reading) },
}

// All lines, in the order of reading: the floor table of hall.day, bridge.day, and the place table of hall.day.
fn read_files<'a>(heap: Global, files: DayFiles<'a>) -> Result<Reading<'a>, AllocError>
    ensures { IfOk result (λ x. read_of x ≡ read_lines (lines_of files.entry.bridge.now) (lines_of files.entry.hall.now)) }
{
    let bridge = split_lines(heap, files.bridge)?;
    let hall = split_lines(heap, files.hall)?;
    let (floor, places) = hall.as_slice().split_at(FLOOR_LINES.min(hall.len()));
    let mut reading = Reading::new(heap, None)?;
    reading.read_lines(DayFile::Hall, 1, Due::FloorNames, floor)?;
    reading.read_lines(DayFile::Bridge, 1, Due::LabelNames, bridge.as_slice())?;
    reading.read_lines(DayFile::Hall, floor.len() + 1, Due::PlaceNames, places)?;
    Ok(reading)
}

// What the lines of two files stand for, or the fault of one that cannot be read.
fn read_if_readable<'a>(heap: Global, files: DayFiles<'a>) -> Result<Reading<'a>, AllocError>
    ensures { IfOk result (λ x. read_of x ≡ reads files.entry.bridge.now files.entry.hall.now) }
{
    // its `Err` goes into the reading, so no `?` serves
    match check_files(Some(files.bridge), Some(files.hall)) {
        Ok(files) => read_files(heap, files),
        Err(fault) => Reading::new(heap, Some(fault)),
    }
}

// Reads a day: what its lines stand for in the order of reading, up to the first fault of the files, a line or a field. What the
// sheet and the bunkers refuse is not known yet: `first_fault` tells which fault comes first.
pub fn read_day<'a>(heap: Global, files: DayFiles<'a>) -> Result<ReadDay<'a>, AllocError>
    ensures value { IfOk result (λ x. read_of x.reading ≡ reads files.entry.bridge.now files.entry.hall.now) }
    ensures sound { IfOk result (λ x. Sound (read_of x.reading)) }
{
    let reading = read_if_readable(heap, files)?;
    Ok(ReadDay { reading })
}
