//! The markets of the tests: three buses in a line, the first being the reference, and what a row of a table says of them.

use market_data::FactorPlaces;
use market_inputs::clear_market;
use market_model::Market;
use market_tables::{GridTables, MarketTables};
use net_case::PostRating;
use std::alloc::Global;
use std::test::Fail;

const BUSES: &str = "function mpc = t3
mpc.version = '2';
mpc.baseMVA = 100;
mpc.bus = [
1 3 0 0 0 0 1 1 0 230 1 1.1 0.9;
2 1 0 0 0 0 1 1 0 230 1 1.1 0.9;
3 1 0 0 0 0 1 1 0 230 1 1.1 0.9;
];
";

/// Branches 1 from bus 1 to bus 2 and 2 from there to bus 3, with limits of 60, which edits change.
#[derive(Clone, Copy)]
pub(crate) enum Lines {
    /// None has a limit.
    Free,
    /// Both have one in the base.
    Series,
    /// Branch 1 has one in the base and one after an outage.
    Losing,
    /// Branch 1 has one in the base and one of 40 after the loss of branch 2, all of whose flow goes over to branch 3 beside it.
    Beside,
    /// As in `Series`, but a half of a MW at bus 3 counts for branch 1, and a quarter for branch 2.
    FirstMore,
    /// A quarter and a half.
    LastMore,
    /// Three quarters and a quarter.
    Parts,
    /// All of it and three quarters.
    Most,
}

/// The records of branches, of their factors and of the outages of some.
#[derive(Clone, Copy)]
struct LineTexts {
    branches: &'static str,
    shift: &'static str,
    loss: &'static str,
    outages: &'static str,
}

const FREE: LineTexts = LineTexts {
    branches: "1 2 0 0.1 0 0 0 0 0 0 1 -360 360;
2 3 0 0.1 0 0 0 0 0 0 1 -360 360;",
    shift: "",
    loss: "",
    outages: "",
};

const SERIES: LineTexts = LineTexts {
    branches: "1 2 0 0.1 0 60 0 0 0 0 1 -360 360;
2 3 0 0.1 0 60 0 0 0 0 1 -360 360;",
    shift: "1,2,-1\n1,3,-1\n2,3,-1\n",
    loss: "",
    outages: "",
};

const LOSING: LineTexts = LineTexts {
    branches: "1 2 0 0.1 0 60 0 60 0 0 1 -360 360;
2 3 0 0.1 0 0 0 0 0 0 1 -360 360;",
    ..SERIES
};

const BESIDE: LineTexts = LineTexts {
    branches: "1 2 0 0.1 0 60 0 40 0 0 1 -360 360;
2 3 0 0.1 0 0 0 0 0 0 1 -360 360;
2 3 0 0.1 0 0 0 0 0 0 1 -360 360;",
    shift: "1,2,-1\n1,3,-1\n2,3,-0.5\n3,3,-0.5\n",
    loss: "1,2,0\n3,2,1\n",
    outages: "2\n",
};

/// Branches as in `Series` with these factors.
fn in_series(shift: &'static str) -> LineTexts {
    LineTexts { shift, ..SERIES }
}

impl Lines {
    fn texts(self) -> LineTexts {
        match self {
            Lines::Free => FREE,
            Lines::Series => SERIES,
            Lines::Losing => LOSING,
            Lines::Beside => BESIDE,
            Lines::FirstMore => in_series("1,3,-0.5\n2,3,-0.25\n"),
            Lines::LastMore => in_series("1,3,-0.25\n2,3,-0.5\n"),
            Lines::Parts => in_series("1,3,-0.75\n2,3,-0.25\n"),
            Lines::Most => in_series("1,2,-1\n1,3,-1\n2,3,-0.75\n"),
        }
    }
}

/// A unit each at the first and at the last bus, with a room of 100.
pub(crate) const UNITS: &str = "1 0 0 0 0 1 100 1 100 0;
3 0 0 0 0 1 100 1 100 0;";

/// What a market has, by the records of its tables.
#[derive(Clone, Copy)]
pub(crate) struct Records {
    pub lines: Lines,
    pub units: &'static str,
    pub offers: &'static str,
    pub reserves: &'static str,
    pub penalties: &'static str,
    /// The outages of units.
    pub lost: &'static str,
}

/// The texts of the tables.
#[derive(Drop)]
struct Texts {
    case: String,
    shift: String,
    loss: String,
    outages: String,
    offers: String,
    reserves: String,
    penalties: String,
    lost: String,
}

impl Texts {
    fn new(alloc: Global, records: &Records) -> Result<Texts, Fail> {
        let Records {
            lines,
            units,
            offers,
            reserves,
            penalties,
            lost,
        } = *records;
        let LineTexts {
            branches,
            shift,
            loss,
            outages,
        } = lines.texts();
        Ok(Texts {
            case: format!(in alloc;
                "{BUSES}mpc.gen = [\n{units}\n];\nmpc.branch = [\n{branches}\n];\n"
            )?,
            shift: format!(in alloc; "branch,bus,factor\n{shift}")?,
            loss: format!(in alloc; "branch,outage,factor\n{loss}")?,
            outages: format!(in alloc; "branch\n{outages}")?,
            offers: format!(in alloc; "unit,side,mw,price\n{offers}")?,
            reserves: format!(in alloc; "kind,unit,mw,price\n{reserves}")?,
            penalties: format!(in alloc; "branch,limit,price,excess\n{penalties}")?,
            lost: format!(in alloc; "unit,taker,share\n{lost}")?,
        })
    }

    fn tables(&self) -> MarketTables<&[u8]> {
        MarketTables {
            grid: GridTables {
                case: self.case.as_bytes(),
                ptdf: self.shift.as_bytes(),
                lodf: self.loss.as_bytes(),
                contingencies: self.outages.as_bytes(),
            },
            unit_outages: self.lost.as_bytes(),
            offers: self.offers.as_bytes(),
            reserves: self.reserves.as_bytes(),
            offsets: b"branch,mw\n",
            penalties: self.penalties.as_bytes(),
        }
    }
}

/// The market of these records.
pub(crate) fn market_of(alloc: Global, records: &Records) -> Result<Market, Fail> {
    let texts = Texts::new(alloc, records)?;
    Ok(clear_market(alloc, &texts.tables(), PostRating::C, FactorPlaces::Six)?)
}
