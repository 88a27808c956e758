// The text itself. What is done with it stands in the module below.
ghost use Rattle.std.specs.Prelude.{◌≤◌, ℕ, List, length};

mod pushing;

use arrayvec::ArrayVec;
use std::marker::Model;

// The most bytes that a text has.
const MOST_BYTES: usize = 1_536;

// A text of at most 1,536 bytes.
#[derive(Drop)]
pub struct Text {
    bytes: ArrayVec<u8, MOST_BYTES>,
}

impl Model for Text {
    ghost Value = { List ℕ };

    ghost view = { λ t. t.bytes.items };

    ghost invariant = { λ t. length t.bytes.items ≤ 1536 };
}
