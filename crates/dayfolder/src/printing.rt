// What programs print: a fault as a table, and the room for a day's output.
ghost use Rattle.std.specs.Prelude.{Some};
ghost use Rattle.dayfolder.specs.Printing.{table_of};

use dayfile::faults::Fault;
use std::fmt;

// Room for the output of any day.
pub const MOST_OUTPUT: usize = 2_048;

// The table of one line by which programs know a fault.
#[derive(Clone, Copy)]
pub struct FaultTable(pub Fault);

impl fmt::Display for FaultTable {
    ghost output = { λ table. Some (table_of table.0) };

    fn fmt<W: fmt::Write>(&self, f: &mut fmt::Formatter<W>) -> fmt::Result {
        let file = self.0.file.number();
        let line = self.0.line;
        // want of memory alone has no number, and it is no fault of a file
        let refusal = self.0.refusal.number().unwrap_or(0);
        write!(f, "file line refusal\n{file} {line} {refusal}")
    }
}
