// The value lines of the four tables.
ghost use Rattle.std.specs.Prelude.{◌≡◌, suc, ◌<◌, map, length, if◌then◌else◌, Ok, Err, nat_eq};
ghost use Rattle.dayline.specs.Parts.{fields_of};
ghost use Rattle.daytables.specs.Rows.{number_at, point_at, slip_number, place_number, with_fields, floor_row, label_row, slip_row, place_row, entry_of, ok_map};

use crate::faults::LineFault;
use crate::labels::point_of;
use dayline::fields::{Column, FieldFault, read_field};
use dayline::parts::count;
use model::slips::{Distance, MOST_PLACES, Use};
use runs::calls::Call;

// The settings of a bunker, as its line has them. Whether a bunker can have them is tested when it is made: a `TryFrom` would have to
// stand in this crate or in that of the settings, and neither stands on the other.
#[derive(Clone, Copy)]
pub struct FloorLine {
    pub floor: i32,
    pub roof: i32,
    pub start: i32,
}

fn number_at(line: &[u8], index: usize) -> Result<i32, FieldFault>
    ensures { result ≡ number_at line.now index }
{
    read_field(line, index, Column::Numbers)?.number()
}

fn point_at(labels: &[&[u8]], line: &[u8], index: usize) -> Result<usize, FieldFault>
    ensures { result ≡ point_at (map (λ x. x.now) labels.now) line.now index }
{
    let word = read_field(line, index, Column::Words)?.bytes();
    point_of(labels, word).ok_or(FieldFault::UnknownLabel)
}

// A line with n spaces has n + 1 fields.
fn check_spaces(line: &[u8], spaces: usize) -> Result<(), LineFault>
    ensures { result ≡ (if nat_eq (length (fields_of line.now)) (suc spaces) then Ok tt else Err LineFault.BadCount) }
{
    if count(line, b' ') == spaces {
        Ok(())
    } else {
        Err(LineFault::BadCount)
    }
}

// A slip number; a negative number is none, as 0 is none. The call refuses it, in its own order.
fn slip_number(n: i32) -> u32
    ensures { result ≡ slip_number n }
{
    u32::try_from(n).unwrap_or(0)
}

// The number of a place; a negative number is none, as the most places are none, since places are counted from 0.
// The call refuses it, in its own order.
fn place_number(n: i32) -> usize
    ensures { result ≡ place_number n }
{
    usize::try_from(n).unwrap_or(MOST_PLACES)
}

// A value line of the floor table.
#[tactic(auto, unfolding(crate::specs::Rows::floor_row))]
pub(crate) fn read_floor(line: &[u8]) -> Result<FloorLine, LineFault>
    ensures { result ≡ floor_row line.now }
{
    check_spaces(line, 2)?;
    let floor = number_at(line, 0)?;
    let roof = number_at(line, 1)?;
    let start = number_at(line, 2)?;
    Ok(FloorLine { floor, roof, start })
}

// A value line of the label table: the word that names a point.
#[tactic(auto, unfolding(crate::specs::Rows::label_row))]
pub(crate) fn read_label(line: &[u8]) -> Result<&[u8], LineFault>
    ensures { ok_map (λ x. x.now) result ≡ label_row line.now }
{
    check_spaces(line, 0)?;
    let label = read_field(line, 0, Column::Words)?;
    Ok(label.bytes())
}

// A value line of the slip table.
#[tactic(auto, unfolding(crate::specs::Rows::slip_row))]
pub(crate) fn read_slip<'a>(labels: &[&[u8]], line: &[u8]) -> Result<Call<'a>, LineFault>
    ensures { ok_map entry_of result ≡ slip_row (map (λ x. x.now) labels.now) line.now }
{
    check_spaces(line, 3)?;
    let number = number_at(line, 0)?;
    let from = point_at(labels, line, 1)?;
    let to = point_at(labels, line, 2)?;
    let minutes = number_at(line, 3)?;
    let slip = Distance { from, to, minutes };
    Ok(Call::PostDistance(slip_number(number), slip))
}

// A value line of the place table.
#[tactic(auto, unfolding(crate::specs::Rows::place_row))]
pub(crate) fn read_place<'a>(labels: &[&[u8]], line: &[u8]) -> Result<Call<'a>, LineFault>
    ensures { ok_map entry_of result ≡ place_row (map (λ x. x.now) labels.now) line.now }
{
    check_spaces(line, 4)?;
    let place = number_at(line, 0)?;
    let number = number_at(line, 1)?;
    let first = point_at(labels, line, 2)?;
    let last = point_at(labels, line, 3)?;
    let kilos = number_at(line, 4)?;
    let what = Use { first, last, kilos };
    Ok(Call::PostUse(place_number(place), slip_number(number), what))
}
