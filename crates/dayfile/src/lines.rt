// A line of a file, for people to see.
ghost use Rattle.std.specs.Prelude.{◌≡◌};
ghost use Rattle.dayline.specs.Parts.{line_of};
ghost use Rattle.dayfile.specs.Files.{one_of};

use crate::faults::Fault;
use crate::files::DayFiles;
use dayline::parts::line_of;

// The faulty line, as a part of the file that holds it, without its line feed; empty for line 0 and past the end.
pub fn faulty_line<'a>(files: DayFiles<'a>, fault: Fault) -> &'a [u8]
    ensures { result.now ≡ line_of (one_of files.entry.bridge.now files.entry.hall.now fault.file) fault.line }
{
    line_of(files.of(fault.file), fault.line)
}
