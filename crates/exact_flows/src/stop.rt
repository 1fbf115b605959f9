//! Why there are no flows.

ghost use Rattle.std.specs.Prelude.{◌≡◌};
ghost use Rattle.exact_flows.specs.declared.stop.FlowStop.TheVariants as why;

use exact_fraction::Passed;
use plain_list::Memory;

/// Two numbers whose outcome passes the bound of their type, or want of memory.
#[derive(Clone, Copy, PartialEq, Debug)]
pub enum FlowStop<N> {
    Passed(Passed<N>),
    Memory,
}

impl<N> From<Memory> for FlowStop<N> {
    ghost from_gives = { λ _ stop. stop ≡ why.Memory };

    fn from(_refused: Memory) -> FlowStop<N> {
        FlowStop::Memory
    }
}

impl<N> From<Passed<N>> for FlowStop<N> {
    ghost from_gives = { λ passed stop. stop ≡ why.Passed passed };

    fn from(passed: Passed<N>) -> FlowStop<N> {
        FlowStop::Passed(passed)
    }
}
