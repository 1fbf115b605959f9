//! Prices of reserve and of rooms. The least prices of rooms go before those of limits.

use crate::markets::{Lines, Records, UNITS};
use crate::settled::{Row, Wanted, first_off};
use exact_fraction::{Frac, Frac63};
use std::test::Fail;

/// Needs that are met in all ways, and rooms that are used up.
static RESERVES: [Row; 12] = [
    Row {
        name: "none is needed and none offered",
        records: Records {
            lines: Lines::Free,
            units: UNITS,
            offers: "1,sell,100,10\n2,sell,100,30\n",
            reserves: "need,,0,\n",
            penalties: "",
            lost: "",
        },
        steps: "demand,1,,,50\n",
        wanted: Wanted {
            per: 1,
            energy: 10,
            limits: &[],
            reserve: 0,
            rooms: &[],
        },
    },
    Row {
        name: "none is needed",
        records: Records {
            lines: Lines::Free,
            units: UNITS,
            offers: "1,sell,100,10\n2,sell,100,30\n",
            reserves: "offer,1,50,2\noffer,2,50,5\n",
            penalties: "",
            lost: "",
        },
        steps: "demand,1,,,60\n",
        wanted: Wanted {
            per: 1,
            energy: 10,
            limits: &[],
            reserve: 0,
            rooms: &[],
        },
    },
    Row {
        name: "none is needed any more",
        records: Records {
            lines: Lines::Free,
            units: UNITS,
            offers: "1,sell,100,10\n2,sell,100,30\n",
            reserves: "offer,1,50,2\noffer,2,50,5\n",
            penalties: "",
            lost: "",
        },
        steps: "demand,1,,,60\nneed,,,,60\nclear,,,,\nneed,,,,0\n",
        wanted: Wanted {
            per: 1,
            energy: 10,
            limits: &[],
            reserve: 0,
            rooms: &[],
        },
    },
    Row {
        name: "the first offer is whole",
        records: Records {
            lines: Lines::Free,
            units: UNITS,
            offers: "1,sell,100,10\n2,sell,100,30\n",
            reserves: "offer,1,50,2\noffer,2,50,5\n",
            penalties: "",
            lost: "",
        },
        steps: "demand,1,,,40\nneed,,,,50\n",
        wanted: Wanted {
            per: 1,
            energy: 10,
            limits: &[],
            reserve: 2,
            rooms: &[],
        },
    },
    Row {
        name: "the first offer is whole, after a need of 60",
        records: Records {
            lines: Lines::Free,
            units: UNITS,
            offers: "1,sell,100,10\n2,sell,100,30\n",
            reserves: "offer,1,50,2\noffer,2,50,5\n",
            penalties: "",
            lost: "",
        },
        steps: "demand,1,,,40\nneed,,,,60\nclear,,,,\nneed,,,,50\n",
        wanted: Wanted {
            per: 1,
            energy: 10,
            limits: &[],
            reserve: 2,
            rooms: &[],
        },
    },
    Row {
        name: "the first offer is whole and its room used up, after a need of 60",
        records: Records {
            lines: Lines::Free,
            units: UNITS,
            offers: "1,sell,100,10\n2,sell,100,30\n",
            reserves: "offer,1,50,2\noffer,2,50,5\n",
            penalties: "",
            lost: "",
        },
        steps: "demand,1,,,50\nneed,,,,60\nclear,,,,\nneed,,,,50\n",
        wanted: Wanted {
            per: 1,
            energy: 10,
            limits: &[],
            reserve: 2,
            rooms: &[],
        },
    },
    Row {
        name: "energy and reserve share a room",
        records: Records {
            lines: Lines::Free,
            units: UNITS,
            offers: "1,sell,100,10\n2,sell,100,30\n",
            reserves: "offer,1,50,2\noffer,2,50,5\n",
            penalties: "",
            lost: "",
        },
        steps: "demand,1,,,60\nneed,,,,60\n",
        wanted: Wanted {
            per: 1,
            energy: 13,
            limits: &[],
            reserve: 5,
            rooms: &[(1, 3)],
        },
    },
    Row {
        name: "energy uses up a room",
        records: Records {
            lines: Lines::Free,
            units: UNITS,
            offers: "1,sell,100,10\n2,sell,100,30\n",
            reserves: "offer,1,50,2\noffer,2,50,5\n",
            penalties: "",
            lost: "",
        },
        steps: "demand,1,,,100\nneed,,,,30\n",
        wanted: Wanted {
            per: 1,
            energy: 13,
            limits: &[],
            reserve: 5,
            rooms: &[(1, 3)],
        },
    },
    Row {
        name: "energy uses up a room, after a load of 120",
        records: Records {
            lines: Lines::Free,
            units: UNITS,
            offers: "1,sell,100,10\n2,sell,100,30\n",
            reserves: "offer,1,50,2\noffer,2,50,5\n",
            penalties: "",
            lost: "",
        },
        steps: "demand,1,,,120\nneed,,,,30\nclear,,,,\ndemand,1,,,100\n",
        wanted: Wanted {
            per: 1,
            energy: 13,
            limits: &[],
            reserve: 5,
            rooms: &[(1, 3)],
        },
    },
    Row {
        name: "energy uses up two rooms",
        records: Records {
            lines: Lines::Free,
            units: "1 0 0 0 0 1 100 1 100 0;
3 0 0 0 0 1 100 1 100 0;
2 0 0 0 0 1 100 1 100 0;",
            offers: "1,sell,100,10\n2,sell,100,30\n3,sell,100,50\n",
            reserves: "offer,1,50,2\noffer,2,50,4\noffer,3,50,5\n",
            penalties: "",
            lost: "",
        },
        steps: "demand,1,,,200\nneed,,,,30\n",
        wanted: Wanted {
            per: 1,
            energy: 31,
            limits: &[],
            reserve: 5,
            rooms: &[(1, 3), (2, 1)],
        },
    },
    Row {
        name: "a room or a limit",
        records: Records {
            lines: Lines::Series,
            units: UNITS,
            offers: "1,sell,100,10\n2,sell,100,30\n",
            reserves: "offer,1,60,2\noffer,2,50,30\n",
            penalties: "",
            lost: "",
        },
        steps: "demand,3,,,50\nlimit,1,base,,40\nneed,,,,70\n",
        wanted: Wanted {
            per: 1,
            energy: 10,
            limits: &[((1, 0, 0), 20, 0)],
            reserve: 30,
            rooms: &[],
        },
    },
    Row {
        name: "a room or a limit that comes later",
        records: Records {
            lines: Lines::Series,
            units: UNITS,
            offers: "1,sell,100,10\n2,sell,100,30\n",
            reserves: "offer,1,60,2\noffer,2,50,30\n",
            penalties: "",
            lost: "",
        },
        steps: "demand,3,,,50\nneed,,,,70\nclear,,,,\nlimit,1,base,,40\n",
        wanted: Wanted {
            per: 1,
            energy: 10,
            limits: &[((1, 0, 0), 20, 0)],
            reserve: 30,
            rooms: &[],
        },
    },
];

#[test]
fn prices_reserve(rt: HostRuntime) -> Result<(), Fail> {
    assert_eq!(rt; first_off::<Frac>(rt.alloc(), &RESERVES)?, None);
    assert_eq!(rt; first_off::<Frac63>(rt.alloc(), &RESERVES)?, None);
    Ok(())
}
