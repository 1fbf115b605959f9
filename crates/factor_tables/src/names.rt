//! What the numbers of a record name in a network.

ghost use Rattle.std.specs.Prelude.{◌≡◌, ◌&&◌, not, pos, ◌≤ℤ◌, true};
ghost use Rattle.net_case.specs.Networks.{IsNetwork};
ghost use Rattle.factor_tables.specs.Rules.{is_live_branch, is_live_bus, is_row, is_used};

use net_case::Network;

/// Whether a factor or an offset is not 0.
pub(crate) fn is_used(amount: i64) -> bool
    ensures { result ≡ is_used amount }
{
    amount != 0
}

/// Whether a branch row has this number.
pub fn is_row(network: &Network, number: i64) -> bool
    ensures range { result ≡ true → (pos 1 ≤ℤ number) × (number ≤ℤ pos network.now.branch_rows) }
    ensures network { IsNetwork network.now }
    ensures is { result ≡ is_row network.now number }
{
    let last = network.branch_rows() as i64;
    1 <= number && number <= last
}

/// Whether a live branch has this number.
pub fn is_live_branch(network: &Network, number: i64) -> bool
    ensures { result ≡ is_live_branch network.now number }
{
    network.branch_place(number).is_some()
}

/// Whether a live bus has this number.
pub(crate) fn is_live_bus(network: &Network, number: i64) -> bool
    ensures { result ≡ is_live_bus network.now number }
{
    network.bus_place(number).is_some()
}

/// Whether an amount that is not 0 is of a part that is out of service.
pub(crate) fn is_idle(amount: i64, is_live: bool) -> bool
    ensures { result ≡ (is_used amount && not is_live) }
{
    is_used(amount) && !is_live
}
