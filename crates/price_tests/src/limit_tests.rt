//! Prices of limits in the base: of the least sum, and of these from the last limit to the first. Units 1 and 2 sell at 10 and at 30 on both
//! sides of them, so a MW of flow is worth 20.

use crate::markets::{Lines, Records, UNITS};
use crate::settled::{Row, Wanted, first_off};
use exact_fraction::{Frac, Frac63};
use std::test::Fail;

/// Limits that are reached in one way or in many.
static LIMITS: [Row; 14] = [
    Row {
        name: "both limits are reached",
        records: Records {
            lines: Lines::Series,
            units: UNITS,
            offers: "1,sell,100,10\n2,sell,100,30\n",
            reserves: "",
            penalties: "",
            lost: "",
        },
        steps: "demand,3,,,50\nlimit,1,base,,40\nlimit,2,base,,40\n",
        wanted: Wanted {
            per: 1,
            energy: 10,
            limits: &[((1, 0, 0), 20, 0)],
            reserve: 0,
            rooms: &[],
        },
    },
    Row {
        name: "both limits are reached, the first later",
        records: Records {
            lines: Lines::Series,
            units: UNITS,
            offers: "1,sell,100,10\n2,sell,100,30\n",
            reserves: "",
            penalties: "",
            lost: "",
        },
        steps: "demand,3,,,50\nlimit,2,base,,40\nclear,,,,\nlimit,1,base,,40\n",
        wanted: Wanted {
            per: 1,
            energy: 10,
            limits: &[((1, 0, 0), 20, 0)],
            reserve: 0,
            rooms: &[],
        },
    },
    Row {
        name: "the second limit is reached",
        records: Records {
            lines: Lines::Series,
            units: UNITS,
            offers: "1,sell,100,10\n2,sell,100,30\n",
            reserves: "",
            penalties: "",
            lost: "",
        },
        steps: "demand,3,,,50\nlimit,2,base,,40\n",
        wanted: Wanted {
            per: 1,
            energy: 10,
            limits: &[((2, 0, 0), 20, 0)],
            reserve: 0,
            rooms: &[],
        },
    },
    Row {
        name: "the second limit is reached, the first before",
        records: Records {
            lines: Lines::Series,
            units: UNITS,
            offers: "1,sell,100,10\n2,sell,100,30\n",
            reserves: "",
            penalties: "",
            lost: "",
        },
        steps: "demand,3,,,50\nlimit,1,base,,40\nclear,,,,\nlimit,1,base,,60\nlimit,2,base,,40\n",
        wanted: Wanted {
            per: 1,
            energy: 10,
            limits: &[((2, 0, 0), 20, 0)],
            reserve: 0,
            rooms: &[],
        },
    },
    Row {
        name: "the first limit is reached",
        records: Records {
            lines: Lines::Series,
            units: UNITS,
            offers: "1,sell,100,10\n2,sell,100,30\n",
            reserves: "",
            penalties: "",
            lost: "",
        },
        steps: "demand,3,,,50\nlimit,1,base,,40\n",
        wanted: Wanted {
            per: 1,
            energy: 10,
            limits: &[((1, 0, 0), 20, 0)],
            reserve: 0,
            rooms: &[],
        },
    },
    Row {
        name: "both limits are reached with a seller between",
        records: Records {
            lines: Lines::Series,
            units: "1 0 0 0 0 1 100 1 100 0;
3 0 0 0 0 1 100 1 100 0;
2 0 0 0 0 1 100 1 100 0;",
            offers: "1,sell,100,10\n2,sell,100,30\n3,sell,10,15\n",
            reserves: "",
            penalties: "",
            lost: "",
        },
        steps: "demand,3,,,50\nlimit,1,base,,40\nlimit,2,base,,40\n",
        wanted: Wanted {
            per: 1,
            energy: 10,
            limits: &[((1, 0, 0), 5, 0), ((2, 0, 0), 15, 0)],
            reserve: 0,
            rooms: &[],
        },
    },
    Row {
        name: "reached limits that cost nothing",
        records: Records {
            lines: Lines::Series,
            units: UNITS,
            offers: "1,sell,50,10\n2,sell,50,30\n",
            reserves: "",
            penalties: "",
            lost: "",
        },
        steps: "demand,3,,,50\nlimit,1,base,,50\nlimit,2,base,,50\n",
        wanted: Wanted {
            per: 1,
            energy: 10,
            limits: &[],
            reserve: 0,
            rooms: &[],
        },
    },
    Row {
        name: "reached limits that cost nothing, after a load of 60",
        records: Records {
            lines: Lines::Series,
            units: UNITS,
            offers: "1,sell,50,10\n2,sell,50,30\n",
            reserves: "",
            penalties: "",
            lost: "",
        },
        steps: "demand,3,,,60\nlimit,1,base,,50\nlimit,2,base,,50\nclear,,,,\ndemand,3,,,50\n",
        wanted: Wanted {
            per: 1,
            energy: 10,
            limits: &[],
            reserve: 0,
            rooms: &[],
        },
    },
    Row {
        name: "a limit of 0",
        records: Records {
            lines: Lines::Series,
            units: UNITS,
            offers: "1,sell,100,10\n2,sell,100,30\n",
            reserves: "",
            penalties: "",
            lost: "",
        },
        steps: "demand,3,,,50\nlimit,1,base,,0\nlimit,2,base,,40\n",
        wanted: Wanted {
            per: 1,
            energy: 10,
            limits: &[((1, 0, 0), 20, 0)],
            reserve: 0,
            rooms: &[],
        },
    },
    Row {
        name: "both limits are reached backward",
        records: Records {
            lines: Lines::Series,
            units: UNITS,
            offers: "1,sell,100,30\n2,sell,100,10\n",
            reserves: "",
            penalties: "",
            lost: "",
        },
        steps: "demand,1,,,50\nlimit,1,base,,40\nlimit,2,base,,40\n",
        wanted: Wanted {
            per: 1,
            energy: 30,
            limits: &[((1, 0, 0), 0, 20)],
            reserve: 0,
            rooms: &[],
        },
    },
    Row {
        name: "the last limit counts for more",
        records: Records {
            lines: Lines::LastMore,
            units: UNITS,
            offers: "1,sell,100,10\n2,sell,100,30\n",
            reserves: "",
            penalties: "",
            lost: "",
        },
        steps: "demand,3,,,50\nlimit,1,base,,10\nclear,,,,\nlimit,2,base,,20\n",
        wanted: Wanted {
            per: 1,
            energy: 10,
            limits: &[((2, 0, 0), 40, 0)],
            reserve: 0,
            rooms: &[],
        },
    },
    Row {
        name: "the first limit counts for more",
        records: Records {
            lines: Lines::FirstMore,
            units: UNITS,
            offers: "1,sell,100,10\n2,sell,100,30\n",
            reserves: "",
            penalties: "",
            lost: "",
        },
        steps: "demand,3,,,50\nlimit,2,base,,10\nclear,,,,\nlimit,1,base,,20\n",
        wanted: Wanted {
            per: 1,
            energy: 10,
            limits: &[((1, 0, 0), 40, 0)],
            reserve: 0,
            rooms: &[],
        },
    },
    Row {
        name: "a price that is no whole number",
        records: Records {
            lines: Lines::Parts,
            units: UNITS,
            offers: "1,sell,100,10\n2,sell,100,30\n",
            reserves: "",
            penalties: "",
            lost: "",
        },
        steps: "demand,3,,,50\nlimit,1,base,,30\n",
        wanted: Wanted {
            per: 3,
            energy: 30,
            limits: &[((1, 0, 0), 80, 0)],
            reserve: 0,
            rooms: &[],
        },
    },
    Row {
        name: "two limits that count for different buses",
        records: Records {
            lines: Lines::Most,
            units: "1 0 0 0 0 1 100 1 100 0;
3 0 0 0 0 1 100 1 100 0;
2 0 0 0 0 1 100 1 100 0;",
            offers: "1,sell,100,10\n2,sell,100,30\n3,sell,10,15\n",
            reserves: "",
            penalties: "",
            lost: "",
        },
        steps: "demand,3,,,50\nlimit,1,base,,40\nlimit,2,base,,30\n",
        wanted: Wanted {
            per: 1,
            energy: 10,
            limits: &[((1, 0, 0), 5, 0), ((2, 0, 0), 20, 0)],
            reserve: 0,
            rooms: &[],
        },
    },
];

#[test]
fn prices_limits(rt: HostRuntime) -> Result<(), Fail> {
    assert_eq!(rt; first_off::<Frac>(rt.alloc(), &LIMITS)?, None);
    assert_eq!(rt; first_off::<Frac63>(rt.alloc(), &LIMITS)?, None);
    Ok(())
}
