//! Prices of limits before and after outages, of which many are one limit written twice, and of limits that must-run units fill.

use crate::markets::{Lines, Records, UNITS};
use crate::settled::{Row, Wanted, first_off};
use exact_fraction::{Frac, Frac63};
use std::test::Fail;

/// The limit after an outage is the later one.
static OUTAGES: [Row; 14] = [
    Row {
        name: "the later of two equal limits alone",
        records: Records {
            lines: Lines::Beside,
            units: UNITS,
            offers: "1,sell,100,10\n2,sell,100,30\n",
            reserves: "",
            penalties: "",
            lost: "",
        },
        steps: "demand,3,,,50\n",
        wanted: Wanted {
            per: 1,
            energy: 10,
            limits: &[((1, 2, 0), 20, 0)],
            reserve: 0,
            rooms: &[],
        },
    },
    Row {
        name: "two equal limits",
        records: Records {
            lines: Lines::Beside,
            units: UNITS,
            offers: "1,sell,100,10\n2,sell,100,30\n",
            reserves: "",
            penalties: "",
            lost: "",
        },
        steps: "demand,3,,,50\nlimit,1,base,,40\n",
        wanted: Wanted {
            per: 1,
            energy: 10,
            limits: &[((1, 0, 0), 20, 0)],
            reserve: 0,
            rooms: &[],
        },
    },
    Row {
        name: "two equal limits, the first later",
        records: Records {
            lines: Lines::Beside,
            units: UNITS,
            offers: "1,sell,100,10\n2,sell,100,30\n",
            reserves: "",
            penalties: "",
            lost: "",
        },
        steps: "demand,3,,,50\nclear,,,,\nlimit,1,base,,40\n",
        wanted: Wanted {
            per: 1,
            energy: 10,
            limits: &[((1, 0, 0), 20, 0)],
            reserve: 0,
            rooms: &[],
        },
    },
    Row {
        name: "two equal limits, after three clears",
        records: Records {
            lines: Lines::Beside,
            units: UNITS,
            offers: "1,sell,100,10\n2,sell,100,30\n",
            reserves: "",
            penalties: "",
            lost: "",
        },
        steps: "demand,3,,,50\nclear,,,,\nlimit,1,base,,40\nclear,,,,\nlimit,1,base,,60\nclear,,,,\nlimit,1,base,,40\n",
        wanted: Wanted {
            per: 1,
            energy: 10,
            limits: &[((1, 0, 0), 20, 0)],
            reserve: 0,
            rooms: &[],
        },
    },
    Row {
        name: "a limit after the loss of an idle unit",
        records: Records {
            lines: Lines::Losing,
            units: "1 0 0 0 0 1 100 1 100 0;
3 0 0 0 0 1 100 1 100 0;
2 0 0 0 0 1 100 1 100 0;",
            offers: "1,sell,100,10\n2,sell,100,30\n",
            reserves: "",
            penalties: "",
            lost: "3,1,1\n",
        },
        steps: "demand,3,,,50\nlimit,1,post,,40\n",
        wanted: Wanted {
            per: 1,
            energy: 10,
            limits: &[((1, 0, 3), 20, 0)],
            reserve: 0,
            rooms: &[],
        },
    },
    Row {
        name: "the same limit before that loss",
        records: Records {
            lines: Lines::Losing,
            units: "1 0 0 0 0 1 100 1 100 0;
3 0 0 0 0 1 100 1 100 0;
2 0 0 0 0 1 100 1 100 0;",
            offers: "1,sell,100,10\n2,sell,100,30\n",
            reserves: "",
            penalties: "",
            lost: "3,1,1\n",
        },
        steps: "demand,3,,,50\nlimit,1,post,,40\nclear,,,,\nlimit,1,base,,40\n",
        wanted: Wanted {
            per: 1,
            energy: 10,
            limits: &[((1, 0, 0), 20, 0)],
            reserve: 0,
            rooms: &[],
        },
    },
    Row {
        name: "a limit after the loss of a seller that costs nothing",
        records: Records {
            lines: Lines::Losing,
            units: UNITS,
            offers: "1,sell,100,10\n2,sell,100,30\n",
            reserves: "",
            penalties: "",
            lost: "2,1,1\n",
        },
        steps: "demand,3,,,50\nlimit,1,base,,40\n",
        wanted: Wanted {
            per: 1,
            energy: 10,
            limits: &[((1, 0, 0), 20, 0)],
            reserve: 0,
            rooms: &[],
        },
    },
    Row {
        name: "a limit after the loss of a seller",
        records: Records {
            lines: Lines::Losing,
            units: "1 0 0 0 0 1 100 1 100 0;
3 0 0 0 0 1 100 1 100 0;
3 0 0 0 0 1 100 1 100 0;",
            offers: "1,sell,100,10\n2,sell,100,30\n",
            reserves: "",
            penalties: "",
            lost: "2,1,0.5\n2,3,0.5\n",
        },
        steps: "demand,3,,,50\nlimit,1,post,,45\n",
        wanted: Wanted {
            per: 1,
            energy: 10,
            limits: &[((1, 0, 2), 40, 0)],
            reserve: 0,
            rooms: &[],
        },
    },
    Row {
        name: "a limit before that loss, which counts for more",
        records: Records {
            lines: Lines::Losing,
            units: "1 0 0 0 0 1 100 1 100 0;
3 0 0 0 0 1 100 1 100 0;
3 0 0 0 0 1 100 1 100 0;",
            offers: "1,sell,100,10\n2,sell,100,30\n",
            reserves: "",
            penalties: "",
            lost: "2,1,0.5\n2,3,0.5\n",
        },
        steps: "demand,3,,,50\nlimit,1,post,,45\nclear,,,,\nlimit,1,base,,40\n",
        wanted: Wanted {
            per: 1,
            energy: 10,
            limits: &[((1, 0, 0), 20, 0)],
            reserve: 0,
            rooms: &[],
        },
    },
    Row {
        name: "a limit of 0 after the loss of the first seller",
        records: Records {
            lines: Lines::Losing,
            units: UNITS,
            offers: "1,sell,100,10\n2,sell,100,30\n",
            reserves: "",
            penalties: "",
            lost: "1,2,1\n",
        },
        steps: "demand,3,,,50\nlimit,1,post,,0\nclear,,,,\nlimit,1,base,,40\n",
        wanted: Wanted {
            per: 1,
            energy: 10,
            limits: &[((1, 0, 0), 20, 0)],
            reserve: 0,
            rooms: &[],
        },
    },
    Row {
        name: "must-run fills the first limit",
        records: Records {
            lines: Lines::Series,
            units: "1 0 0 0 0 1 100 1 40 40;
3 0 0 0 0 1 100 1 100 0;",
            offers: "2,sell,100,30\n",
            reserves: "",
            penalties: "",
            lost: "",
        },
        steps: "demand,3,,,40\nlimit,1,base,,40\n",
        wanted: Wanted {
            per: 1,
            energy: 30,
            limits: &[],
            reserve: 0,
            rooms: &[],
        },
    },
    Row {
        name: "must-run fills the first limit and more is sold",
        records: Records {
            lines: Lines::Series,
            units: "1 0 0 0 0 1 100 1 40 40;
3 0 0 0 0 1 100 1 100 0;",
            offers: "2,sell,100,30\n",
            reserves: "",
            penalties: "",
            lost: "",
        },
        steps: "demand,3,,,50\nlimit,1,base,,40\n",
        wanted: Wanted {
            per: 1,
            energy: 30,
            limits: &[],
            reserve: 0,
            rooms: &[],
        },
    },
    Row {
        name: "must-run with bids on both sides of the first limit",
        records: Records {
            lines: Lines::Series,
            units: "1 0 0 0 0 1 100 1 50 50;
3 0 0 0 0 1 100 1 0 -20;
1 0 0 0 0 1 100 1 0 -20;",
            offers: "3,buy,20,5\n2,buy,20,25\n",
            reserves: "",
            penalties: "",
            lost: "",
        },
        steps: "demand,3,,,40\nlimit,1,base,,40\n",
        wanted: Wanted {
            per: 1,
            energy: 5,
            limits: &[((1, 0, 0), 20, 0)],
            reserve: 0,
            rooms: &[],
        },
    },
    Row {
        name: "must-run with a full bid",
        records: Records {
            lines: Lines::Series,
            units: "1 0 0 0 0 1 100 1 50 50;
3 0 0 0 0 1 100 1 0 0;
1 0 0 0 0 1 100 1 0 -20;",
            offers: "3,buy,10,5\n",
            reserves: "",
            penalties: "",
            lost: "",
        },
        steps: "demand,3,,,40\nlimit,1,base,,40\n",
        wanted: Wanted {
            per: 1,
            energy: 5,
            limits: &[],
            reserve: 0,
            rooms: &[],
        },
    },
];

#[test]
fn prices_limits_after_outages(rt: HostRuntime) -> Result<(), Fail> {
    assert_eq!(rt; first_off::<Frac>(rt.alloc(), &OUTAGES)?, None);
    assert_eq!(rt; first_off::<Frac63>(rt.alloc(), &OUTAGES)?, None);
    Ok(())
}
