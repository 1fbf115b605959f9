//! `preparation`: what is prepared of a case of four buses, and why nothing is.

use factor_tables::Softness;
use market_inputs::InputStop;
use net_case::PostRating;
use preparation::{Wanted, prepare};
use refusal_text::refusal_text;
use std::alloc::{AllocError, Global};
use std::test::Fail;

/// Three buses in a ring and one behind them, a unit with a quadratic cost and one whose cost is of three points.
const CASE: &str = "function mpc = four
mpc.version = '2';
mpc.baseMVA = 100;
mpc.bus = [
1 3 0 0 0 0 1 1 0 230 1 1.1 0.9;
2 1 30 0 0 0 1 1 0 230 1 1.1 0.9;
3 1 40 0 0 0 1 1 0 230 1 1.1 0.9;
4 1 20 0 0 0 1 1 0 230 1 1.1 0.9;
];
mpc.gen = [
1 0 0 0 0 1 100 1 100 0;
2 0 0 0 0 1 100 1 60 10;
];
mpc.branch = [
1 2 0 0.2 0 50 55 0 0 0 1;
2 3 0 0.2 0 60 0 0 0 0 1;
1 3 0 0.2 0 0 0 0 0 0 1;
3 4 0 0.2 0 40 0 0 0 0 1;
];
";

/// Costs that are taken.
const COSTS: &str = "mpc.gencost = [
2 0 0 3 0.02 10 5 0 0 0;
1 0 0 3 0 0 50 500 100 1250;
];
";

/// What is told of the case where all is wanted.
const TOLD: &str = "offers 4 steps of 2 units
outages 3 listed 1 radial
radial 4
penalties 3 limits
ratings base 3 of 4 post 0 of 4
post-rating a 3 of 4
post-rating b 1 of 4
must-run 10
";

const OFFERS: &str = "unit,side,mw,price\n1,sell,50,11\n1,sell,50,13\n2,sell,40,10\n2,sell,10,15\n";

const OUTAGES: &str = "branch\n1\n2\n3\n";

const PENALTIES: &str =
    "branch,limit,price,excess\n1,base,1000,20\n2,base,1000,20\n4,base,1000,20\n";

/// Costs that are refused, and the line that says why.
static REFUSED: [(&str, &str); 5] = [
    ("", "refused case Missing gencost\n"),
    (
        "mpc.gencost = [2 0 0 2 10 0];\n",
        "refused case TooFew gencost rows 1\n",
    ),
    (
        "mpc.gencost = [2 0 0 2 10 0; 2 0 0 2 NaN 0];\n",
        "refused case Cost unit 2 Cell col 5 NotFinite\n",
    ),
    (
        "mpc.gencost = [2 0 0 3 -0.1 10 0; 2 0 0 2 10 0 0];\n",
        "refused case Cost unit 1 Slopes\n",
    ),
    (
        "mpc.gencost = [2 0 0 2 10 0; 2 0 0 2 10];\n",
        "refused case Ragged gencost row 2\n",
    ),
];

/// The case with costs behind it.
fn case_with(alloc: Global, costs: &str) -> Result<String, AllocError> {
    let mut text = String::new(alloc);
    text.push_str(CASE)?;
    text.push_str(costs)?;
    Ok(text)
}

#[test]
fn prepares_all_tables(rt: HostRuntime) -> Result<(), Fail> {
    let case = case_with(rt.alloc(), COSTS)?;
    let wanted = Wanted {
        rating: PostRating::C,
        steps: Some(2),
        outages: true,
        softness: Some(Softness {
            price: 1_000_000_000,
            most_excess: 20_000_000_000,
        }),
    };
    let Ok(made) = prepare(rt.alloc(), case.as_bytes(), &wanted) else {
        panic!(&rt; "nothing was prepared");
    };
    assert_eq!(rt; made.text.as_slice(), TOLD.as_bytes());
    for (text, want) in [
        (&made.tables.offers, OFFERS),
        (&made.tables.contingencies, OUTAGES),
        (&made.tables.penalties, PENALTIES),
    ] {
        match text {
            Some(text) => assert_eq!(rt; text.as_slice(), want.as_bytes()),
            None => panic!(&rt; "no table: {want}"),
        }
    }
    Ok(())
}

#[test]
fn refuses_costs(rt: HostRuntime) -> Result<(), Fail> {
    let wanted = Wanted {
        rating: PostRating::C,
        steps: Some(4),
        outages: false,
        softness: None,
    };
    for (costs, want) in &REFUSED {
        let case = case_with(rt.alloc(), costs)?;
        match prepare(rt.alloc(), case.as_bytes(), &wanted) {
            Err(InputStop::Refused(refusal)) => {
                let line = refusal_text(rt.alloc(), &refusal)?;
                assert_eq!(rt; line.as_slice(), want.as_bytes());
            }
            _ => panic!(&rt; "not refused: {costs}"),
        }
    }
    Ok(())
}
