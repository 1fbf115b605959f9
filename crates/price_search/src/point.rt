//! A dispatch with what it makes of the network, and the caps of its prices.

use price_dict::Reached;

/// A dispatch, what it makes of the network, and what it reaches.
#[derive(Clone, Copy)]
pub struct PricePoint<'a, N> {
    /// What is accepted of each block, in 10^-9 MW.
    pub accepted: &'a [N],
    /// What is accepted of each offer of reserve, in 10^-9 MW.
    pub reserved: &'a [N],
    /// What each bus puts in, then the flow of each line, and then the output of the unit of each outage of a unit, in 10^-9 MW, as
    /// `limit_screen::flows` puts them.
    pub flows: &'a [N],
    /// The limits that are reached and the rooms that are used up.
    pub reached: Reached<'a>,
}

/// The most that all prices but that of energy may add up to, a size that the factor of no block's unit is above for a limit that is reached, and the
/// greatest size of the price of energy. Prices are in 10^-6 a MWh.
#[derive(Clone, Copy, Debug)]
pub struct PriceCaps<N> {
    pub most: N,
    pub factor: N,
    pub range: N,
}
