// The register itself. What is done with it stands in the module below.
ghost use Rattle.std.specs.Prelude.{◌≤◌, vec_len, vec_capacity};
ghost use Rattle.register.specs.Lookups.{numbers, Rises, Proper};

use crate::records::Numbered;

mod edits;

// At most MOST records, by rising number. A vector claims its memory when it is made; a map would claim more with each record.
// What clauses see of it is a function of the number, which no `Model` can have as its value, so they say `stands`.
#[derive(Drop)]
pub struct Register<T, const MOST: usize> {
    items: Vec<Numbered<T>>,
    ghost rises: { Rises (numbers items.items) },
    ghost proper: { Proper (numbers items.items) },
    ghost few: { vec_len items ≤ MOST },
    ghost room: { MOST ≤ vec_capacity items },
}

// Why a record is not inserted.
#[derive(Clone, Copy, Debug, PartialEq, Eq)]
pub enum NoInsert {
    // the number is not 1 to 9,999
    OutOfRange,
    // a record stands under the number
    Stands,
    // the most records stand
    Full,
}
