// A text parted by a byte: a file into its lines, a line into its fields.
ghost use Rattle.std.specs.Prelude.{◌≡◌, ◌+◌, ◌≤◌, [], ◌∷◌, map, length, drop, IfOk, MatchOption, slice_get};
ghost use Rattle.std.specs.Option.{option_map};
ghost use Rattle.dayline.specs.Parts.{Parted, parts, place_of, lines_of, line_of};

use std::alloc::{AllocError, Global};

// What stands before and after the first such byte; none where there is no such byte.
pub(crate) fn cut(text: &[u8], at: u8) -> Option<(&[u8], &[u8])>
    ensures { MatchOption result (parts at text.now ≡ text.now ∷ []) (λ p. (parts at text.now ≡ p.0.now ∷ parts at p.1.now) × (length p.0.now + 1 + length p.1.now ≡ length text.now)) }
{
    let place = text.iter().position(|b| *b == at)?;
    Some((&text[..place], &text[place + 1..]))
}

// How often the byte stands in the text: once less than there are parts.
pub fn count(text: &[u8], at: u8) -> usize
    ensures value { result + 1 ≡ length (parts at text.now) }
    ensures parted { Parted at text.now (parts at text.now) }
{
    text.iter().filter(|b| **b == at).count()
}

// The text from its part n on, counted from 0; none where it has no such part.
pub(crate) fn skip(text: &[u8], at: u8, n: usize) -> Option<&[u8]>
    ensures { MatchOption result (length (parts at text.now) ≤ n) (λ x. (drop n (parts at text.now) ≡ parts at x.now) × (place_of n (parts at text.now) + length x.now ≡ length text.now)) }
{
    let mut rest = text;
    // each turn cuts what the one before left, so a fold of n turns would say no more
    for _i in 0..n {
        rest = cut(rest, at)?.1;
    }
    Some(rest)
}

// The lines of a file.
#[tactic(auto, using(crate::proofs::Pieces::lines_none))]
pub fn split_lines(heap: Global, text: &[u8]) -> Result<Vec<&[u8]>, AllocError>
    ensures { IfOk result (λ v. map (λ x. x.now) v.items ≡ lines_of text.now) }
{
    // a loop, since a `collect` of `split` would claim room for what stands behind the last line feed, which is no line
    let mut lines = Vec::new(heap);
    let mut left = text;
    while let Some((line, after)) = cut(left, b'\n') {
        lines.push(line)?;
        left = after;
    }
    Ok(lines)
}

// The line at that index, counted from 0; none where there is none.
fn line_at(text: &[u8], index: usize) -> Option<&[u8]>
    ensures { option_map (λ x. x.now) result ≡ slice_get (lines_of text.now) index }
{
    let rest = skip(text, b'\n', index)?;
    let (line, _) = cut(rest, b'\n')?;
    Some(line)
}

// The line of that number, counted from 1, without its line feed; empty where there is none.
pub fn line_of(text: &[u8], number: usize) -> &[u8]
    ensures { result.now ≡ line_of text.now number }
{
    if number == 0 {
        return &[];
    }
    line_at(text, number - 1).unwrap_or(&[])
}
