// Labels of points that are known.
ghost use Rattle.std.specs.Prelude.{◌≡◌, map};
ghost use Rattle.daytables.specs.Labels.{point_of};

// The point that has the word as its label. The labels are those of the points, by their numbers.
pub(crate) fn point_of(labels: &[&[u8]], word: &[u8]) -> Option<usize>
    ensures { result ≡ point_of (map (λ x. x.now) labels.now) word.now }
{
    labels.iter().position(|label| *label == word)
}
