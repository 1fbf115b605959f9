/// A branch of a network: the places of its buses and its susceptance, which is 1 over its reactance.
#[derive(Clone, Copy, PartialEq, Debug)]
pub struct Line<N> {
    pub from: usize,
    pub to: usize,
    pub susceptance: N,
}
