//! Why the work on a market ends without what it was to make.

ghost use Rattle.std.specs.Prelude.{◌≡◌};
ghost use Rattle.market_model.specs.declared.stops.Stop.TheVariants as why;

use exact_fraction::Passed;
use plain_list::Memory;

/// Two numbers whose outcome passes the bound of their type, or want of memory.
#[derive(Clone, Copy, Debug)]
pub enum Stop<N> {
    Passed(Passed<N>),
    Memory,
}

impl<N> From<Memory> for Stop<N> {
    ghost from_gives = { λ _ stop. stop ≡ why.Memory };

    fn from(_refused: Memory) -> Stop<N> {
        Stop::Memory
    }
}

impl<N> From<Passed<N>> for Stop<N> {
    ghost from_gives = { λ passed stop. stop ≡ why.Passed passed };

    fn from(passed: Passed<N>) -> Stop<N> {
        Stop::Passed(passed)
    }
}
