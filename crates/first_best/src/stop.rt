use exact_fraction::Passed;
use plain_list::Memory;

/// Why no point that goes first was found.
#[derive(Clone, Copy, PartialEq, Debug)]
pub enum FirstStop<N> {
    /// An operation whose outcome passes the bound of the numbers.
    Passed(Passed<N>),
    Memory,
}

impl<N> From<Memory> for FirstStop<N> {
    ghost use Rattle.std.specs.Prelude.{◌≡◌};
    ghost use Rattle.first_best.specs.declared.stop.FirstStop.TheVariants.{Memory as NoMemory};

    ghost from_gives = { λ _ stop. stop ≡ NoMemory };

    fn from(_: Memory) -> Self {
        FirstStop::Memory
    }
}

impl<N> From<Passed<N>> for FirstStop<N> {
    ghost use Rattle.std.specs.Prelude.{◌≡◌};
    ghost use Rattle.first_best.specs.declared.stop.FirstStop.TheVariants.{Passed as StoppedBy};

    ghost from_gives = { λ passed stop. stop ≡ StoppedBy passed };

    fn from(passed: Passed<N>) -> Self {
        FirstStop::Passed(passed)
    }
}
