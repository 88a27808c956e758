// What tightening answers.
use model::verdicts::Verdict;

// The verdict, a word with a one at bit p for each loose point p, and the number of its ones. A point is loose if the table leaves
// it more than one minute. Under "no plan" word and number are 0. Word and count are what the answer is defined to be
// (docs/SCOPE.md, "Tightening"), so the points stand in no set, and the count beside them.
#[derive(Clone, Copy, Debug, PartialEq, Eq)]
pub struct Answer {
    pub verdict: Verdict,
    pub loose: u64,
    pub count: u32,
}
