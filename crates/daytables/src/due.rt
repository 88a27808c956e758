// Which line is due, and what a line comes to there.
ghost use Rattle.std.specs.Prelude.{◌≡◌, ◌≢◌, [], map, Err};
ghost use Rattle.std.specs.Option.{ok_or};
ghost use Rattle.daytables.specs.Rows.{ok_map, floor_row};
ghost use Rattle.daytables.specs.Tables.{takes, may_end, said_of, came_of, names_of, names_due, filled, closed_or, came, nothing, makes};
ghost use Rattle.daytables.specs.declared.due.Due.TheVariants.{FileEnd};

use crate::faults::LineFault;
use crate::rows::{FloorLine, read_floor, read_label, read_place, read_slip};
use runs::calls::Call;

// A table of the day's files.
#[derive(Clone, Copy)]
pub enum Table {
    Floor,
    Label,
    Slip,
    Place,
}

impl Table {
    // The line of names.
    fn names(self) -> &'static [u8]
        ensures { result.now ≡ names_of self }
    {
        match self {
            Table::Floor => b"floor roof start",
            Table::Label => b"label",
            Table::Slip => b"slip from to minutes",
            Table::Place => b"place slip first last kilos",
        }
    }
}

// What is due at a line.
#[derive(Clone, Copy)]
pub enum Due {
    // the names of the floor table, its two value lines, and the line that closes it or the end of the file
    FloorNames,
    FirstBunker,
    SecondBunker,
    FloorEnd,
    // the names of the label table, and its value lines or the line that closes it
    LabelNames,
    LabelRows,
    // the names of the slip table, and its value lines, the line that closes it or the end of the file
    SlipNames,
    SlipRows,
    // the same of the place table
    PlaceNames,
    PlaceRows,
    // no line at all
    FileEnd,
}

// What a line stands for.
#[derive(Clone, Copy)]
pub enum Row<'a> {
    // a line of names, or an empty line
    Nothing,
    // the settings of a bunker
    Bunker(FloorLine),
    // the label of a point
    Label(&'a [u8]),
    // a slip or a use
    Post(Call<'a>),
}

// What a line stands for, and what is due after it.
#[derive(Clone, Copy)]
pub struct Step<'a> {
    pub row: Row<'a>,
    pub next: Due,
}

// The line of names of a table.
fn expect_names(line: &[u8], table: Table, next: Due) -> Result<Step, LineFault>
    ensures { ok_map came_of result ≡ names_due table next line.now }
{
    let those = table.names();
    if line == those {
        Ok(Step {
            row: Row::Nothing,
            next,
        })
    } else {
        Err(LineFault::NotDue)
    }
}

// What a line of a table's values comes to: one that is empty closes the table, where `empty` tells what is due after that; another is
// what `read` makes of it, and `next` is due after it.
fn expect_row<'a, R: FnOnce(&'a [u8]) -> Result<Row<'a>, LineFault>>(
    line: &'a [u8],
    empty: Option<Due>,
    next: Due,
    read: R,
) -> Result<Step<'a>, LineFault>
    requires { R.IsAlwaysCallable read }
    ensures empty { line.now ≡ [] → ok_map came_of result ≡ ok_map (λ d. came d nothing) (ok_or empty LineFault.NotDue) }
    ensures filled { line.now ≢ [] → (row : _) × R.post read line.entry row × (ok_map came_of result ≡ ok_map (λ x. came next (said_of x)) row) }
{
    if line.is_empty() {
        let next = empty.ok_or(LineFault::NotDue)?;
        return Ok(Step {
            row: Row::Nothing,
            next,
        });
    }
    let row = read(line)?;
    Ok(Step { row, next })
}

// A value line of the floor table.
fn expect_bunker(line: &[u8], next: Due) -> Result<Step, LineFault>
    ensures { ok_map came_of result ≡ filled line.now (ok_map (λ b. came next (makes b)) (floor_row line.now)) }
{
    // no `map(Row::Bunker)`: its row names a lifetime that a floor line does not name, and such a call gets no proof
    expect_row(line, None, next, |line| Ok(Row::Bunker(read_floor(line)?)))
}

// The line that closes the floor table.
fn expect_end(line: &[u8]) -> Result<Step, LineFault>
    ensures { ok_map came_of result ≡ closed_or FileEnd line.now (Err LineFault.NotDue) }
{
    if line.is_empty() {
        Ok(Step {
            row: Row::Nothing,
            next: Due::FileEnd,
        })
    } else {
        Err(LineFault::NotDue)
    }
}

impl Due {
    // What the line comes to where this is due. The labels are those of the points, by their numbers.
    pub fn read<'a>(self, labels: &[&[u8]], line: &'a [u8]) -> Result<Step<'a>, LineFault>
        ensures { ok_map came_of result ≡ takes self (map (λ x. x.now) labels.now) line.now }
    {
        match self {
            Due::FloorNames => expect_names(line, Table::Floor, Due::FirstBunker),
            Due::FirstBunker => expect_bunker(line, Due::SecondBunker),
            Due::SecondBunker => expect_bunker(line, Due::FloorEnd),
            Due::FloorEnd => expect_end(line),
            Due::LabelNames => expect_names(line, Table::Label, Due::LabelRows),
            Due::LabelRows => expect_row(
                line,
                Some(Due::SlipNames),
                self,
                |line| read_label(line).map(Row::Label),
            ),
            Due::SlipNames => expect_names(line, Table::Slip, Due::SlipRows),
            Due::SlipRows => expect_row(
                line,
                Some(Due::FileEnd),
                self,
                |line| read_slip(labels, line).map(Row::Post),
            ),
            Due::PlaceNames => expect_names(line, Table::Place, Due::PlaceRows),
            Due::PlaceRows => expect_row(
                line,
                Some(Due::FileEnd),
                self,
                |line| read_place(labels, line).map(Row::Post),
            ),
            Due::FileEnd => Err(LineFault::NotDue),
        }
    }

    // Whether the file may end here.
    pub fn may_end(self) -> bool
        ensures { result ≡ may_end self }
    {
        matches!(
            self,
            Due::FloorEnd | Due::SlipRows | Due::PlaceRows | Due::FileEnd
        )
    }
}
