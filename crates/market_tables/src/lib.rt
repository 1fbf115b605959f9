//! The tables of a market, whatever stands for each of them: its name, its bytes, its text.
#![tactic(auto)]

ghost use Rattle.std.specs.Prelude.{◌≡◌, vec_items};
ghost use Rattle.market_tables.specs.Tables.{grid_lent, map_grid, map_tables, tables_lent};

/// The case of a network, and the tables that are to fit it. `O` stands for those that may be left out.
#[derive(Clone, Copy, Debug, Drop)]
pub struct GridTables<T, O = T> {
    pub case: T,
    /// The shift factors.
    pub ptdf: T,
    /// The outage factors.
    pub lodf: O,
    /// The branches whose loss the market is to stand.
    pub contingencies: O,
}

/// The tables of a market with limits. `O` stands for those that may be left out.
#[derive(Clone, Copy, Debug, Drop)]
pub struct MarketTables<T, O = T> {
    pub grid: GridTables<T, O>,
    /// The units whose loss the market is to stand, with the shares of those that pick up their output.
    pub unit_outages: O,
    pub offers: T,
    /// What units offer of spinning reserve, and how much is needed.
    pub reserves: O,
    /// The flows that phase shift angles cause.
    pub offsets: O,
    /// What limits give way for.
    pub penalties: O,
}

impl GridTables<Vec<u8>> {
    /// The bytes of each, lent.
    pub fn as_slices(&self) -> GridTables<&[u8]>
        ensures { grid_lent result ≡ map_grid vec_items vec_items self.now }
    {
        GridTables {
            case: self.case.as_slice(),
            ptdf: self.ptdf.as_slice(),
            lodf: self.lodf.as_slice(),
            contingencies: self.contingencies.as_slice(),
        }
    }
}

impl MarketTables<Vec<u8>> {
    /// The bytes of each, lent.
    pub fn as_slices(&self) -> MarketTables<&[u8]>
        ensures { tables_lent result ≡ map_tables vec_items vec_items self.now }
    {
        MarketTables {
            grid: self.grid.as_slices(),
            unit_outages: self.unit_outages.as_slice(),
            offers: self.offers.as_slice(),
            reserves: self.reserves.as_slice(),
            offsets: self.offsets.as_slice(),
            penalties: self.penalties.as_slice(),
        }
    }
}
