/// What a variable may be: from the low bound to the high one, both included.
#[derive(Clone, Copy, PartialEq, Debug)]
pub struct Bounds<N> {
    pub low: N,
    pub high: N,
}
