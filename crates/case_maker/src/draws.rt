//! The numbers that a seed gives.

ghost use Rattle.std.specs.Prelude.{◌≡◌, ℕ, ◌+◌, ◌*◌, ◌/◌, ◌^◌};
ghost use Rattle.case_maker.specs.Rings.{drawn, next_state, state};

/// What is drawn for a bus, for its unit and for the branch that leaves it.
#[derive(Clone, Copy, PartialEq, Eq, Debug)]
pub(crate) struct Drawn {
    /// In MW.
    pub(crate) load: u32,
    /// What the unit's first block asks, per MWh.
    pub(crate) first_price: u32,
    /// What its second block asks.
    pub(crate) second_price: u32,
    /// The branch's limit while all branches are there, in MW.
    pub(crate) base_limit: u32,
    /// Its limit after an outage, in MW.
    pub(crate) post_limit: u32,
}

/// A linear congruential generator.
#[derive(Clone, Copy, Debug)]
pub(crate) struct Draws {
    state: u64,
}

impl Draws {
    const MULTIPLIER: u64 = 6364136223846793005;

    const INCREMENT: u64 = 1442695040888963407;

    /// The draws of a seed.
    pub(crate) fn new(seed: u64) -> Draws
        ensures { result.state ≡ seed }
    {
        Draws { state: seed }
    }

    /// The next draw.
    fn draw(&mut self) -> u32
        ensures state { self.new.state ≡ next_state self.old.state }
        ensures upper { result ≡ self.new.state / 2 ^ 33 }
    {
        self.state = self
            .state
            .wrapping_mul(Draws::MULTIPLIER)
            .wrapping_add(Draws::INCREMENT);
        (self.state >> 33) as u32
    }

    /// What the next four draws make of a bus.
    pub(crate) fn bus(&mut self) -> Drawn
        ensures drawn { (seed i : ℕ) → self.old.state ≡ state seed (4 * i) → result ≡ drawn seed i }
        ensures state { (seed i : ℕ) → self.old.state ≡ state seed (4 * i) → self.new.state ≡ state seed (4 * (i + 1)) }
    {
        let load = 10 + self.draw() % 41;
        let first_price = 10 + self.draw() % 91;
        let second_price = first_price + self.draw() % 50;
        let base_limit = 20 + self.draw() % 40;
        Drawn {
            load,
            first_price,
            second_price,
            base_limit,
            post_limit: base_limit + 20,
        }
    }
}
