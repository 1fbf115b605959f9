//! `unit_offers`: the offers that costs make.

ghost use Rattle.std.specs.Prelude.{◌≤◌};

use crate::networks::read_network;
use case_text::read_costs;
use cost_reading::{CostFault, RowFault};
use market_model::{Block, Side};
use std::alloc::Global;
use std::test::Fail;
use unit_offers::laws::network_units;
use unit_offers::{OfferStop, UnitOffers, offers_of};

/// What stands before the gen rows of each case.
const HEAD: &str = "function mpc = priced
mpc.version = '2';
mpc.baseMVA = 100;
mpc.bus = [
1 3 0 0 0 0 1 1 0 230 1 1.1 0.9;
2 1 60 0 0 0 1 1 0 230 1 1.1 0.9;
];
mpc.branch = [
1 2 0 0.2 0 0 0 0 0 0 1 -360 360;
];
";

/// The offers of a case with these rows of `gen` and `gencost`.
fn offers_in(
    alloc: Global,
    generators: &str,
    costs: &str,
    steps: u32,
) -> Result<UnitOffers, OfferStop>
    requires { 1 ≤ steps }
{
    let Ok(case) = format!(in alloc;
        "{HEAD}mpc.gen = [\n{generators}];\nmpc.gencost = [\n{costs}];\n"
    ) else {
        return Err(OfferStop::Memory);
    };
    let Some(network) = read_network(alloc, case.as_str()) else {
        return Err(OfferStop::Memory);
    };
    let Ok(Some(costs)) = read_costs(alloc, case.as_bytes()) else {
        return Err(OfferStop::Memory);
    };
    network_units();
    let list = network.unit_list(alloc)?;
    offers_of(alloc, &list, &costs, steps)
}

/// A block: the place of its unit, its side, its quantity and its price.
type Offer = (usize, Side, i64, i64);

/// A case: its rows of `gen` and of `gencost`, into how many steps a quadratic cost is cut, the blocks and how many prices are rounded.
struct Priced {
    generators: &'static str,
    costs: &'static str,
    steps: u32,
    blocks: &'static [Offer],
    rounded: usize,
}

/// Worked by hand: the slope of `0.02 p^2 + 10 p` from a to b MW is `0.02 (a + b) + 10` dollars per MWh.
static PRICED: [Priced; 8] = [
    // From 0 up, with rows of reactive costs behind.
    Priced {
        generators: "1 0 0 0 0 1 100 1 100 0;\n",
        costs: "2 0 0 3 0.02 10 5;\n2 0 0 3 1 1 1;\n",
        steps: 4,
        blocks: &[
            (0, Side::Sell, 25_000_000_000, 10_500_000),
            (0, Side::Sell, 25_000_000_000, 11_500_000),
            (0, Side::Sell, 25_000_000_000, 12_500_000),
            (0, Side::Sell, 25_000_000_000, 13_500_000),
        ],
        rounded: 0,
    },
    // From PMIN up.
    Priced {
        generators: "1 0 0 0 0 1 100 1 60 20;\n",
        costs: "2 0 0 3 0.02 10 5;\n",
        steps: 2,
        blocks: &[
            (0, Side::Sell, 20_000_000_000, 11_200_000),
            (0, Side::Sell, 20_000_000_000, 12_000_000),
        ],
        rounded: 0,
    },
    // From 0 both ways.
    Priced {
        generators: "1 0 0 0 0 1 100 1 50 -40;\n",
        costs: "2 0 0 3 0.02 10 5;\n",
        steps: 2,
        blocks: &[
            (0, Side::Sell, 25_000_000_000, 10_500_000),
            (0, Side::Sell, 25_000_000_000, 11_500_000),
            (0, Side::Buy, 20_000_000_000, 9_600_000),
            (0, Side::Buy, 20_000_000_000, 8_800_000),
        ],
        rounded: 0,
    },
    // From PMAX down.
    Priced {
        generators: "1 0 0 0 0 1 100 1 -10 -30;\n",
        costs: "2 0 0 3 0.02 10 5;\n",
        steps: 1,
        blocks: &[(0, Side::Buy, 20_000_000_000, 9_200_000)],
        rounded: 0,
    },
    // Straight lines, from the middle of the first.
    Priced {
        generators: "1 0 0 0 0 1 100 1 80 20;\n",
        costs: "1 0 0 3 0 0 50 500 100 1250;\n",
        steps: 9,
        blocks: &[
            (0, Side::Sell, 30_000_000_000, 10_000_000),
            (0, Side::Sell, 30_000_000_000, 15_000_000),
        ],
        rounded: 0,
    },
    // Prices that are rounded.
    Priced {
        generators: "1 0 0 0 0 1 100 1 10 0;\n",
        costs: "2 0 0 3 0.02 10 0;\n",
        steps: 3,
        blocks: &[
            (0, Side::Sell, 3_333_333_333, 10_066_667),
            (0, Side::Sell, 3_333_333_333, 10_200_000),
            (0, Side::Sell, 3_333_333_334, 10_333_333),
        ],
        rounded: 3,
    },
    // The unit of the first row is out of service.
    Priced {
        generators: "1 0 0 0 0 1 100 0 10 0;\n1 0 0 0 0 1 100 1 20 0;\n2 0 0 0 0 1 100 1 30 -5;\n",
        costs: "2 0 0 2 7 0;\n2 0 0 2 8 0;\n2 0 0 2 9 0;\n",
        steps: 1,
        blocks: &[
            (0, Side::Sell, 20_000_000_000, 8_000_000),
            (1, Side::Sell, 30_000_000_000, 9_000_000),
            (1, Side::Buy, 5_000_000_000, 9_000_000),
        ],
        rounded: 0,
    },
    // A unit that may not move.
    Priced {
        generators: "1 0 0 0 0 1 100 1 30 30;\n",
        costs: "2 0 0 2 7 0;\n",
        steps: 5,
        blocks: &[],
        rounded: 0,
    },
];

fn are_blocks(blocks: &[Block], want: &[Offer]) -> bool {
    let mut same = blocks.len() == want.len();
    for (block, want) in blocks.iter().zip(want) {
        same = same && (block.unit, block.side, block.quantity, block.price) == *want;
    }
    same
}

#[test]
fn makes_offers(rt: HostRuntime) -> Result<(), Fail> {
    for case in &PRICED {
        if case.steps == 0 {
            panic!(&rt; "no steps");
        }
        let offers = offers_in(rt.alloc(), case.generators, case.costs, case.steps)?;
        assert!(rt; are_blocks(offers.blocks.slice(), case.blocks));
        assert_eq!(rt; offers.rounded, case.rounded);
    }
    Ok(())
}

/// Rows of `gen` and `gencost`, into how many steps a quadratic cost is cut, and why there are no offers.
static STOPPED: [(&str, &str, u32, OfferStop); 6] = [
    (
        "1 0 0 0 0 1 100 0 10 0;\n1 0 0 0 0 1 100 1 20 0;\n",
        "2 0 0 2 7 0;\n",
        1,
        OfferStop::TooFew { rows: 1 },
    ),
    (
        "1 0 0 0 0 1 100 0 10 0;\n1 0 0 0 0 1 100 1 20 0;\n",
        "2 0 0 2 7 0;\n3 0 0 2 7 0;\n",
        1,
        OfferStop::Cost {
            unit: 2,
            fault: CostFault::Row {
                fault: RowFault::Model,
            },
        },
    ),
    (
        "1 0 0 0 0 1 100 1 10 0;\n",
        "2 0 0 3 -1 10 0;\n",
        1,
        OfferStop::Cost {
            unit: 1,
            fault: CostFault::Slopes,
        },
    ),
    (
        "1 0 0 0 0 1 100 1 10 0;\n",
        "1 0 0 2 0 0 1e-9 9e9;\n",
        1,
        OfferStop::Price { unit: 1 },
    ),
    (
        "1 0 0 0 0 1 100 1 10 0;\n",
        "2 0 0 3 1 10 0;\n",
        4001,
        OfferStop::TooMany,
    ),
    (
        "1 0 0 0 0 1 100 1 10 -10;\n",
        "2 0 0 3 1 10 0;\n",
        2001,
        OfferStop::TooMany,
    ),
];

#[test]
fn stops(rt: HostRuntime) {
    for (generators, costs, steps, want) in &STOPPED {
        if *steps == 0 {
            panic!(&rt; "no steps");
        }
        let stopped = offers_in(rt.alloc(), generators, costs, *steps);
        assert!(rt; matches!(stopped, Err(stop) if stop == *want));
    }
}

#[test]
fn makes_the_most_offers(rt: HostRuntime) -> Result<(), Fail> {
    let offers = offers_in(
        rt.alloc(),
        "1 0 0 0 0 1 100 1 10 -10;\n",
        "2 0 0 3 1 10 0;\n",
        2000,
    )?;
    assert_eq!(rt; offers.blocks.len(), 4000);
    Ok(())
}
