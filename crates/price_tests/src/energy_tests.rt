//! The price of energy where no limit is: the least that it may have, where there is none the greatest, else 0.

use crate::markets::{Lines, Records, UNITS};
use crate::settled::{Row, Wanted, first_off};
use exact_fraction::{Frac, Frac63};
use std::test::Fail;

/// What blocks leave of it.
static ENERGY: [Row; 10] = [
    Row {
        name: "between two offers",
        records: Records {
            lines: Lines::Free,
            units: UNITS,
            offers: "1,sell,50,10\n2,sell,50,20\n",
            reserves: "",
            penalties: "",
            lost: "",
        },
        steps: "demand,1,,,50\n",
        wanted: Wanted {
            per: 1,
            energy: 10,
            limits: &[],
            reserve: 0,
            rooms: &[],
        },
    },
    Row {
        name: "between two offers after a load of 60 and back",
        records: Records {
            lines: Lines::Free,
            units: UNITS,
            offers: "1,sell,50,10\n2,sell,50,20\n",
            reserves: "",
            penalties: "",
            lost: "",
        },
        steps: "demand,1,,,50\ndemand,1,,,60\nclear,,,,\ndemand,1,,,50\n",
        wanted: Wanted {
            per: 1,
            energy: 10,
            limits: &[],
            reserve: 0,
            rooms: &[],
        },
    },
    Row {
        name: "between two offers after two clears",
        records: Records {
            lines: Lines::Free,
            units: UNITS,
            offers: "1,sell,50,10\n2,sell,50,20\n",
            reserves: "",
            penalties: "",
            lost: "",
        },
        steps: "demand,1,,,50\nclear,,,,\ndemand,1,,,60\nclear,,,,\ndemand,1,,,50\n",
        wanted: Wanted {
            per: 1,
            energy: 10,
            limits: &[],
            reserve: 0,
            rooms: &[],
        },
    },
    Row {
        name: "between two offers below 0",
        records: Records {
            lines: Lines::Free,
            units: UNITS,
            offers: "1,sell,50,-20\n2,sell,50,-10\n",
            reserves: "",
            penalties: "",
            lost: "",
        },
        steps: "demand,1,,,60\nclear,,,,\ndemand,1,,,50\n",
        wanted: Wanted {
            per: 1,
            energy: -20,
            limits: &[],
            reserve: 0,
            rooms: &[],
        },
    },
    Row {
        name: "nothing is sold",
        records: Records {
            lines: Lines::Free,
            units: UNITS,
            offers: "1,sell,50,10\n2,sell,50,20\n",
            reserves: "",
            penalties: "",
            lost: "",
        },
        steps: "demand,1,,,0\n",
        wanted: Wanted {
            per: 1,
            energy: 10,
            limits: &[],
            reserve: 0,
            rooms: &[],
        },
    },
    Row {
        name: "all is sold",
        records: Records {
            lines: Lines::Free,
            units: UNITS,
            offers: "1,sell,50,10\n2,sell,50,20\n",
            reserves: "",
            penalties: "",
            lost: "",
        },
        steps: "demand,1,,,100\n",
        wanted: Wanted {
            per: 1,
            energy: 20,
            limits: &[],
            reserve: 0,
            rooms: &[],
        },
    },
    Row {
        name: "nothing is sold and a bid is full",
        records: Records {
            lines: Lines::Free,
            units: "1 0 0 0 0 1 100 1 100 20;
3 0 0 0 0 1 100 1 0 -100;",
            offers: "1,sell,50,30\n2,buy,20,40\n",
            reserves: "",
            penalties: "",
            lost: "",
        },
        steps: "demand,1,,,0\n",
        wanted: Wanted {
            per: 1,
            energy: 30,
            limits: &[],
            reserve: 0,
            rooms: &[],
        },
    },
    Row {
        name: "all is sold and a bid gets nothing",
        records: Records {
            lines: Lines::Free,
            units: "1 0 0 0 0 1 100 1 50 0;
3 0 0 0 0 1 100 1 0 -50;",
            offers: "1,sell,50,10\n2,buy,20,5\n",
            reserves: "",
            penalties: "",
            lost: "",
        },
        steps: "demand,1,,,50\n",
        wanted: Wanted {
            per: 1,
            energy: 10,
            limits: &[],
            reserve: 0,
            rooms: &[],
        },
    },
    Row {
        name: "blocks of no MW",
        records: Records {
            lines: Lines::Free,
            units: "1 0 0 0 0 1 100 1 100 20;
3 0 0 0 0 1 100 1 0 -100;",
            offers: "1,sell,0,10\n2,buy,0,40\n",
            reserves: "",
            penalties: "",
            lost: "",
        },
        steps: "demand,1,,,20\n",
        wanted: Wanted {
            per: 1,
            energy: 0,
            limits: &[],
            reserve: 0,
            rooms: &[],
        },
    },
    Row {
        name: "no blocks",
        records: Records {
            lines: Lines::Free,
            units: "1 0 0 0 0 1 100 1 100 20;",
            offers: "",
            reserves: "",
            penalties: "",
            lost: "",
        },
        steps: "demand,1,,,20\n",
        wanted: Wanted {
            per: 1,
            energy: 0,
            limits: &[],
            reserve: 0,
            rooms: &[],
        },
    },
];

#[test]
fn prices_energy(rt: HostRuntime) -> Result<(), Fail> {
    assert_eq!(rt; first_off::<Frac>(rt.alloc(), &ENERGY)?, None);
    assert_eq!(rt; first_off::<Frac63>(rt.alloc(), &ENERGY)?, None);
    Ok(())
}
