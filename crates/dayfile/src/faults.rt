// Where in the day's files something is wrong, and what.
ghost use Rattle.std.specs.Prelude.{◌≡◌};
ghost use Rattle.dayfile.specs.Files.{file_number, file_name, place_at, fault_at};

use model::refusals::Refusal;

// One of the two files of a day.
#[derive(Debug, Clone, Copy, PartialEq, Eq)]
pub enum DayFile {
    // bridge.day: the points and the distance slips
    Bridge,
    // hall.day: the bunkers and the uses
    Hall,
}

impl DayFile {
    // The number of the file in a printed fault.
    pub fn number(self) -> u8
        ensures { result ≡ file_number self }
    {
        match self {
            DayFile::Bridge => 1,
            DayFile::Hall => 2,
        }
    }

    // The name of the file.
    pub fn name(self) -> &'static str
        ensures { result.now ≡ file_name self }
    {
        match self {
            DayFile::Bridge => "bridge.day",
            DayFile::Hall => "hall.day",
        }
    }

    // The place of the line of that number, or with 0 of the file as a whole.
    pub(crate) fn line(self, line: usize) -> Place
        ensures { result ≡ place_at self line }
    {
        Place { file: self, line }
    }
}

// The first fault of a day: its file, its line, counted from 1 (0 where it is of the file as a whole, as it is printed), and the
// refusal. Its fields are those of the row that is printed of it, so it holds no `Place`.
#[derive(Debug, Clone, Copy, PartialEq, Eq)]
pub struct Fault {
    pub file: DayFile,
    pub line: usize,
    pub refusal: Refusal,
}

// Where a line stands: its file, and its number, counted from 1. The number 0 stands for the file as a whole.
#[derive(Debug, Clone, Copy, PartialEq, Eq)]
pub struct Place {
    pub file: DayFile,
    pub line: usize,
}

impl Place {
    // The fault of that refusal there.
    pub(crate) fn fault(self, refusal: Refusal) -> Fault
        ensures { result ≡ fault_at self refusal }
    {
        Fault {
            file: self.file,
            line: self.line,
            refusal,
        }
    }
}
