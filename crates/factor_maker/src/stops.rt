//! Why no factors are made.

ghost use Rattle.std.specs.Prelude.{◌≡◌, ◌<◌, ◌≤◌, ◌*◌, ℕ, length, IfErr, OnOk};
ghost use Rattle.market_data.specs.Scales.{most_lines};
ghost use Rattle.dc_network.specs.DcNetworks.{ArePositive};
ghost use Rattle.factor_residuals.specs.Residuals.{AreReactances};
ghost use Rattle.factor_maker.specs.Stops.{IsFirstNotPositive, made_stop, most_made};
ghost use Rattle.factor_maker.specs.declared.stops.MakeStop.TheVariants as why;

use exact_flows::FlowStop;
use exact_fraction::Passed;
use net_case::{Network, Reactances};
use plain_list::Memory;

/// The most factors of a table that is made.
pub const MOST_MADE: usize = 1_000_000;

/// Why no factors are made.
#[derive(Clone, Copy, Debug)]
pub enum MakeStop<N> {
    /// So many factors would be made, which are more than `MOST_MADE`.
    TooMany { count: usize },
    /// The reactance of the branch of this row, with its ratio, is not above 0.
    NotPositive { branch: u32 },
    /// Two numbers whose outcome passes the bound of their type, where a factor is exact.
    Passed(Passed<N>),
    Memory,
}

impl<N> From<Memory> for MakeStop<N> {
    ghost from_gives = { λ _ stop. stop ≡ why.Memory };

    fn from(_refused: Memory) -> MakeStop<N> {
        MakeStop::Memory
    }
}

impl<N> From<Passed<N>> for MakeStop<N> {
    ghost from_gives = { λ passed stop. stop ≡ why.Passed passed };

    fn from(passed: Passed<N>) -> MakeStop<N> {
        MakeStop::Passed(passed)
    }
}

/// Why there are no exact flows, as why no factors are made.
pub(crate) fn flow_stop<N>(stop: FlowStop<N>) -> MakeStop<N>
    ensures { result ≡ made_stop stop }
{
    match stop {
        FlowStop::Passed(passed) => MakeStop::Passed(passed),
        FlowStop::Memory => MakeStop::Memory,
    }
}

/// Whether so many rows of so many columns are no more factors than are made.
pub(crate) fn check_count<N>(rows: usize, columns: usize) -> Result<(), MakeStop<N>>
    requires rows { rows ≤ most_lines }
    requires columns { columns ≤ most_lines }
    ensures few { OnOk result (rows * columns ≤ most_made) }
    ensures stop { IfErr result (λ stop. (stop ≡ why.TooMany (rows * columns)) × (most_made < rows * columns)) }
{
    let count = rows * columns;
    if count > MOST_MADE {
        Err(MakeStop::TooMany { count })
    } else {
        Ok(())
    }
}

/// Whether all reactances are above 0, or else the first branch whose reactance is not.
pub(crate) fn check_positive<N>(
    network: &Network,
    reactances: &Reactances,
) -> Result<(), MakeStop<N>>
    requires reactances { AreReactances network.now reactances.now }
    ensures positive { OnOk result (ArePositive reactances.now) }
    ensures stop { IfErr result (λ stop. (row : ℕ) × (stop ≡ why.NotPositive row) × IsFirstNotPositive network.now reactances.now row) }
{
    let xs = reactances.slice();
    let branches = network.branches().slice();
    for place in 0..xs.len() {
        if xs[place] <= 0 {
            return Err(MakeStop::NotPositive {
                branch: branches[place].row,
            });
        }
    }
    Ok(())
}
