// Two limits as one: the places of the left one come first, those of the right one follow.
#[derive(Drop)]
pub struct Pair<A, B> {
    pub left: A,
    pub right: B,
}
