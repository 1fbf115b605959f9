//! Prices of a limit of branch 1 that gives way: at least its penalty where it is exceeded, and more only where its excess is used up.

use crate::markets::{Lines, Records, UNITS};
use crate::settled::{Row, Wanted, first_off};
use exact_fraction::{Frac, Frac63};
use std::test::Fail;

/// A MW of flow is worth 20.
static PENALTIES: [Row; 8] = [
    Row {
        name: "an exceeded limit",
        records: Records {
            lines: Lines::Series,
            units: UNITS,
            offers: "1,sell,100,10\n2,sell,100,30\n",
            reserves: "",
            penalties: "1,base,15,20\n",
            lost: "",
        },
        steps: "demand,3,,,50\nlimit,1,base,,40\n",
        wanted: Wanted {
            per: 1,
            energy: 10,
            limits: &[((1, 0, 0), 15, 0)],
            reserve: 0,
            rooms: &[],
        },
    },
    Row {
        name: "its excess is used up, at more than its penalty",
        records: Records {
            lines: Lines::Series,
            units: UNITS,
            offers: "1,sell,100,10\n2,sell,100,30\n",
            reserves: "",
            penalties: "1,base,15,5\n",
            lost: "",
        },
        steps: "demand,3,,,50\nlimit,1,base,,40\n",
        wanted: Wanted {
            per: 1,
            energy: 10,
            limits: &[((1, 0, 0), 20, 0)],
            reserve: 0,
            rooms: &[],
        },
    },
    Row {
        name: "its excess is used up, at its penalty",
        records: Records {
            lines: Lines::Series,
            units: UNITS,
            offers: "1,sell,100,10\n2,sell,100,30\n",
            reserves: "",
            penalties: "1,base,15,10\n",
            lost: "",
        },
        steps: "demand,3,,,50\nlimit,1,base,,40\n",
        wanted: Wanted {
            per: 1,
            energy: 10,
            limits: &[((1, 0, 0), 15, 0)],
            reserve: 0,
            rooms: &[],
        },
    },
    Row {
        name: "its excess is used up, at its penalty, after a load of 60",
        records: Records {
            lines: Lines::Series,
            units: UNITS,
            offers: "1,sell,100,10\n2,sell,100,30\n",
            reserves: "",
            penalties: "1,base,15,10\n",
            lost: "",
        },
        steps: "demand,3,,,60\nlimit,1,base,,40\nclear,,,,\ndemand,3,,,50\n",
        wanted: Wanted {
            per: 1,
            energy: 10,
            limits: &[((1, 0, 0), 15, 0)],
            reserve: 0,
            rooms: &[],
        },
    },
    Row {
        name: "it is reached and costs nothing",
        records: Records {
            lines: Lines::Series,
            units: UNITS,
            offers: "1,sell,100,10\n2,sell,100,30\n",
            reserves: "",
            penalties: "1,base,15,10\n",
            lost: "",
        },
        steps: "demand,3,,,50\nlimit,1,base,,50\n",
        wanted: Wanted {
            per: 1,
            energy: 10,
            limits: &[],
            reserve: 0,
            rooms: &[],
        },
    },
    Row {
        name: "it is reached and costs nothing, after a load of 60",
        records: Records {
            lines: Lines::Series,
            units: UNITS,
            offers: "1,sell,100,10\n2,sell,100,30\n",
            reserves: "",
            penalties: "1,base,15,10\n",
            lost: "",
        },
        steps: "demand,3,,,60\nlimit,1,base,,50\nclear,,,,\ndemand,3,,,50\n",
        wanted: Wanted {
            per: 1,
            energy: 10,
            limits: &[],
            reserve: 0,
            rooms: &[],
        },
    },
    Row {
        name: "it is reached",
        records: Records {
            lines: Lines::Series,
            units: UNITS,
            offers: "1,sell,100,10\n2,sell,100,30\n",
            reserves: "",
            penalties: "1,base,25,10\n",
            lost: "",
        },
        steps: "demand,3,,,50\nlimit,1,base,,40\n",
        wanted: Wanted {
            per: 1,
            energy: 10,
            limits: &[((1, 0, 0), 20, 0)],
            reserve: 0,
            rooms: &[],
        },
    },
    Row {
        name: "it is exceeded before one that is reached",
        records: Records {
            lines: Lines::Series,
            units: UNITS,
            offers: "1,sell,100,10\n2,sell,100,30\n",
            reserves: "",
            penalties: "1,base,15,20\n",
            lost: "",
        },
        steps: "demand,3,,,50\nlimit,1,base,,30\nlimit,2,base,,40\n",
        wanted: Wanted {
            per: 1,
            energy: 10,
            limits: &[((1, 0, 0), 15, 0), ((2, 0, 0), 5, 0)],
            reserve: 0,
            rooms: &[],
        },
    },
];

#[test]
fn prices_limits_that_give_way(rt: HostRuntime) -> Result<(), Fail> {
    assert_eq!(rt; first_off::<Frac>(rt.alloc(), &PENALTIES)?, None);
    assert_eq!(rt; first_off::<Frac63>(rt.alloc(), &PENALTIES)?, None);
    Ok(())
}
