//! `factor_residuals`: by how much factors miss Kirchhoff's laws, and what rounding explains of it.

ghost use Rattle.factor_residuals.specs.Residuals.{AreReactances};

use crate::networks::read_network;
use case_text::read_case;
use factor_residuals::{Residual, bus_residual, loop_residual};
use factor_tables::shift;
use market_data::FactorPlaces;
use net_case::{Network, Reactances, reactances};
use std::alloc::Global;

/// Branches of equal reactance, 0.1: from bus 1, the reference, to buses 2 and 3, and from bus 2 to bus 3.
const CASE: &str = "function mpc = triangle
mpc.version = '2';
mpc.baseMVA = 100;
mpc.bus = [
1 3 0 0 0 0 1 1 0 230 1 1.1 0.9;
2 1 0 0 0 0 1 1 0 230 1 1.1 0.9;
3 1 0 0 0 0 1 1 0 230 1 1.1 0.9;
];
mpc.gen = [
1 0 0 0 0 1 100 1 100 0;
];
mpc.branch = [
1 2 0 0.1 0 0 0 0 0 0 1 -360 360;
1 3 0 0.1 0 0 0 0 0 0 1 -360 360;
2 3 0 0.1 0 0 0 0 0 0 1 -360 360;
];
";

/// Of residuals the greatest, its bound, and whether some exceed theirs.
type Told = (i128, i128, bool);

fn told(residual: Residual) -> Told {
    match residual.most {
        Some(most) => (most.value, most.bound, residual.over.is_some()),
        None => (0, 0, residual.over.is_some()),
    }
}

/// The residuals at the buses and round the loop.
fn residuals_of(
    alloc: Global,
    network: &Network,
    reactances: &Reactances,
    places: FactorPlaces,
    table: &str,
) -> Option<(Told, Told)>
    requires { AreReactances network.now reactances.now }
{
    let shift = shift(alloc, network, table.as_bytes(), places).ok()?;
    let bus = bus_residual(alloc, network, &shift).ok()?;
    let round = loop_residual(alloc, network, reactances, &shift).ok()?;
    Some((told(bus), told(round)))
}

fn of_table(alloc: Global, places: FactorPlaces, table: &str) -> Option<(Told, Told)> {
    let network = read_network(alloc, CASE)?;
    let case = read_case(alloc, CASE.as_bytes()).ok()?;
    let reactances = reactances(alloc, &case, &network).ok()?;
    residuals_of(alloc, &network, &reactances, places, table)
}

/// 10^-10 round a loop.
const TENTH: i128 = 100_000_000_000_000_000;

/// Tables of so many places, with the residuals at the buses and round the loop. The factor of branch 1 and bus 2 is as near as nine
/// places come, then one unit off, which is just explained at a bus, and two. One unit of six places is a thousand of nine.
const TABLES: &[(FactorPlaces, &str, Told, Told)] = &[
    (
        FactorPlaces::Nine,
        "branch,bus,factor\n1,2,-0.666666667\n2,2,-0.333333333\n3,2,0.333333333\n1,3,-0.333333333\n2,3,-0.666666667\n3,3,-0.333333333\n",
        (0, 10, false),
        (-TENTH, 15 * TENTH, false),
    ),
    (
        FactorPlaces::Nine,
        "branch,bus,factor\n1,2,-0.666666668\n2,2,-0.333333333\n3,2,0.333333333\n1,3,-0.333333333\n2,3,-0.666666667\n3,3,-0.333333333\n",
        (-1, 10, false),
        (-2 * TENTH, 15 * TENTH, true),
    ),
    (
        FactorPlaces::Nine,
        "branch,bus,factor\n1,2,-0.666666669\n2,2,-0.333333333\n3,2,0.333333333\n1,3,-0.333333333\n2,3,-0.666666667\n3,3,-0.333333333\n",
        (-2, 10, true),
        (-3 * TENTH, 15 * TENTH, true),
    ),
    (
        FactorPlaces::Six,
        "branch,bus,factor\n1,2,-0.666668\n2,2,-0.333333\n3,2,0.333333\n1,3,-0.333333\n2,3,-0.666667\n3,3,-0.333333\n",
        (-1_000, 10_000, false),
        (-2_000 * TENTH, 15_000 * TENTH, true),
    ),
    (
        FactorPlaces::Nine,
        "branch,bus,factor\n1,2,-0.666668\n2,2,-0.333333\n3,2,0.333333\n1,3,-0.333333\n2,3,-0.666667\n3,3,-0.333333\n",
        (-1_000, 10, true),
        (-2_000 * TENTH, 15 * TENTH, true),
    ),
];

/// One MW from bus 2 to bus 1 puts -2/3, -1/3 and 1/3 of it on the branches. At bus 1 the flows on the first two and the MW that goes out
/// there are to sum to 0, and round the loop the third less the second and with the first. Rounding explains a unit of the last place at a
/// bus, with two branches, and 3 * 0.1 / 2 of it round the loop.
#[test]
fn bounds_residuals_by_rounding(rt: HostRuntime) {
    for (places, table, bus, round) in TABLES {
        assert_eq!(rt;
            of_table(rt.alloc(), *places, *table),
            Some((*bus, *round)),
            "{table}"
        );
    }
}
