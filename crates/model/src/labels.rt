// The names that a yard gives to its points in time.
ghost use Rattle.std.specs.Prelude.{◌≡◌, ℕ, ◌<◌, ◌≤◌, true, slice_index};
ghost use Rattle.model.specs.Bytes.{label_byte};

mod texts;

// The most points of a sheet.
pub const MOST_POINTS: usize = 64;

// The label of point 0.
pub const OPENING: &[u8] = b"opening";

// The most bytes of a label.
pub(crate) const MOST_BYTES: usize = 8;

// The label of a time point: 1 to 8 bytes, each a-z or 0-9. It is copied and claims no memory, so its bytes stand in an array.
// Callers read from its ghost fields that it is short, which a `Model` would hide.
#[derive(Clone, Copy)]
pub struct Label {
    // the text, and zeros behind it
    bytes: [u8; MOST_BYTES],
    len: usize,
    ghost some: { 0 < len },
    ghost short: { len ≤ 8 },
    ghost proper: { (k : ℕ) → k < len → label_byte (slice_index bytes k) ≡ true },
    ghost padded: { (k : ℕ) → len ≤ k → slice_index bytes k ≡ 0 },
}
