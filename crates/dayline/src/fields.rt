// The fields of a line.
ghost use Rattle.std.specs.Prelude.{◌≡◌, ◌≤◌, length, MatchOption};
ghost use Rattle.dayline.specs.Fields.{PartOf, ReadsField, bytes_of, number_of};
ghost use Rattle.dayline.specs.Parts.{fields_of};

use crate::numbers::read_number;
use crate::parts::{cut, skip};

// A part of a line, and where in the line it begins.
#[derive(Clone, Copy, Debug, Default, PartialEq, Eq)]
pub struct Part<'a> {
    pub bytes: &'a [u8],
    pub place: usize,
}

// A field of a line, as its column reads it. It is one type with two cases, of which its column names the one that is due: documents
// and callers speak of fields.
#[derive(Clone, Copy, Debug, PartialEq, Eq)]
pub enum Field<'a> {
    Word(Part<'a>),
    Number(Part<'a>, i32),
}

// What a column asks for: a case of `Field`.
#[derive(Clone, Copy, Debug, PartialEq, Eq)]
pub enum Column {
    Words,
    Numbers,
}

// What is wrong with a field.
#[derive(Clone, Copy, Debug, PartialEq, Eq)]
pub enum FieldFault {
    // a number is malformed, or outside -100,000,000 to 100,000,000
    BadNumber,
    // no point has that label
    UnknownLabel,
}

impl<'a> Field<'a> {
    // The field as it stands in the line.
    pub fn bytes(self) -> &'a [u8]
        ensures { result.now ≡ bytes_of self.entry }
    {
        match self {
            Field::Word(part) => part.bytes,
            Field::Number(part, _) => part.bytes,
        }
    }

    // The number that the field is; a word is none.
    pub fn number(self) -> Result<i32, FieldFault>
        ensures { result ≡ number_of self.entry }
    {
        match self {
            Field::Word(_) => Err(FieldFault::BadNumber),
            Field::Number(_, n) => Ok(n),
        }
    }
}

// The part of the line that is the field of that index, counted from 0; none where there is no such field.
fn part_at(line: &[u8], index: usize) -> Option<Part>
    ensures { MatchOption result (length (fields_of line.now) ≤ index) (PartOf line.now index) }
{
    let rest = skip(line, b' ', index)?;
    let bytes = cut(rest, b' ').map_or(rest, |(field, _)| field);
    let place = line.len() - rest.len();
    Some(Part { bytes, place })
}

// The field of that index, counted from 0, as the column asks. A field that the line does not have is read as an empty part.
pub fn read_field(line: &[u8], index: usize, column: Column) -> Result<Field, FieldFault>
    ensures { ReadsField line.now index column result }
{
    let part = part_at(line, index).unwrap_or_default();
    match column {
        Column::Words => Ok(Field::Word(part)),
        Column::Numbers => {
            let number = read_number(part.bytes).ok_or(FieldFault::BadNumber)?;
            Ok(Field::Number(part, number))
        }
    }
}
