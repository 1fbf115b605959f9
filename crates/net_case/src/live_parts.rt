//! The live buses, units and branches of a case.

ghost use Rattle.std.specs.Prelude.{◌≡◌, ◌≢◌, ℕ, ◌<◌, ◌≤◌, pos, ◌≤ℤ◌, ◌==◌, length, map, AllPairs, IfOk, MatchOption};
ghost use Rattle.std.specs.Map.{lookup};
ghost use Rattle.market_data.specs.Scales.{most_lines};
ghost use Rattle.net_case.specs.Networks.{place_of, IsNetUnit, IsNetwork, AreUnits, has_bus, bus_place, branch_place};
ghost use Rattle.net_case.specs.NetworkReading.{place_of_number, unit_within, unit_list_of};

use crate::limits::MOST_BUS_NUMBER;
use case_text::Field;
use indexmap::IndexMap;
use market_data::{MOST_LINES, Unit, UnitList};
use plain_list::{List, Memory};
use record_reading::Why;
use std::alloc::Global;
use std::marker::Model;
use thiserror::Error;

/// A live bus, with its demands as the market keeps them.
pub use market_data::Bus as NetBus;

/// The bus rows by number: the place among the live buses, where the bus is not isolated.
pub type Places = IndexMap<u32, Option<usize>>;

/// Why a case is no network. Rows and columns are counted from 1.
#[derive(Clone, Copy, Debug, PartialEq, Eq, Error)]
pub enum NetFault {
    #[error("{count} rows in {field:?}")]
    TooMany {
        field: Field,
        count: usize,
    },
    #[error("row {row}, column {col} of {field:?}: {why:?}")]
    Cell {
        field: Field,
        row: usize,
        col: usize,
        why: Why,
    },
    #[error("the bus of row {row} stands twice")]
    BusTwice {
        row: usize,
    },
    #[error("no bus of the number in row {row} of {field:?}")]
    NoBus {
        field: Field,
        row: usize,
    },
    #[error("branch row {row} begins and ends at one bus")]
    SameEnds {
        row: usize,
    },
    #[error("no reference bus")]
    NoReference,
    #[error("PMIN of unit {unit} is above its PMAX")]
    MinAboveMax {
        unit: u32,
    },
    #[error("memory was refused")]
    Memory,
}

impl From<Memory> for NetFault {
    ghost use Rattle.net_case.specs.declared.live_parts.NetFault.TheVariants as net_fault;

    ghost from_gives = { λ _ fault. fault ≡ net_fault.Memory };

    fn from(_refused: Memory) -> NetFault {
        NetFault::Memory
    }
}

/// Which rating is the limit of a branch after an outage.
#[derive(Clone, Copy, Debug, PartialEq, Eq)]
pub enum PostRating {
    A,
    B,
    C,
}

/// Whether branch rows are read.
#[derive(Clone, Copy, Debug, PartialEq, Eq)]
pub enum Branches {
    /// They are not even counted, and the network has no branches.
    Skip,
    Read(PostRating),
}

/// A live unit with the bounds of its output, in 10^-9 MW.
#[derive(Clone, Copy, Debug)]
pub struct NetUnit {
    pub row: u32,
    /// The place of its bus among the live buses.
    pub bus: usize,
    pub low: i64,
    pub high: i64,
}

/// A live branch with its limits, in 10^-9 MW.
#[derive(Clone, Copy, Debug)]
pub struct NetBranch {
    pub row: u32,
    /// The places of its buses among the live buses, F_BUS first.
    pub from: usize,
    pub to: usize,
    /// The limit of its flow, where it has one.
    pub base: Option<i64>,
    /// The limit of its flow after an outage, where it has one.
    pub post: Option<i64>,
    /// Whether its phase shift angle is not 0.
    pub shifted: bool,
}

/// The bus row that was noted with this number, where there is one, by its place among the live buses, where it is live.
pub fn noted_place(places: &Places, number: u32) -> Option<Option<usize>>
    ensures { result ≡ lookup (λ other. number == other) places.now.entries }
{
    places.get(&number).copied()
}

/// The same of any whole number.
#[tactic(auto, unfolding(crate::specs::NetworkReading::place_of_number))]
pub fn place_of_number(places: &Places, number: i64) -> Option<Option<usize>>
    ensures { result ≡ place_of_number places.now.entries number }
{
    if 1 <= number && number <= i64::from(MOST_BUS_NUMBER) {
        noted_place(places, number as u32)
    } else {
        None
    }
}

/// The number of a branch row, which is from 1 to the most that there are.
fn row_number(row: i64) -> Option<u32>
    ensures { MatchOption result ((m : ℕ) → 1 ≤ m → m ≤ most_lines → row ≢ pos m) (λ m. row ≡ pos m) }
{
    if 1 <= row && row <= MOST_LINES as i64 {
        Some(row as u32)
    } else {
        None
    }
}

/// The place of the branch of a row, where rows rise.
fn place_of_row(branches: &[NetBranch], row: u32) -> Option<usize>
    requires { AllPairs (λ a b. a < b) (map (λ branch. branch.row) branches.now) }
    ensures { result ≡ place_of (map (λ branch. branch.row) branches.now) (pos row) }
{
    let mut low = 0;
    let mut high = branches.len();
    while low < high {
        let middle = low + (high - low) / 2;
        let here = branches[middle].row;
        if here == row {
            return Some(middle);
        }
        if here < row {
            low = middle + 1;
        } else {
            high = middle;
        }
    }
    None
}

/// The live buses, units and branches of a case, in row order.
#[derive(Drop)]
pub struct Network {
    pub(crate) buses: List<NetBus>,
    pub(crate) units: List<NetUnit>,
    pub(crate) branches: List<NetBranch>,
    pub(crate) reference: usize,
    pub(crate) gen_rows: usize,
    pub(crate) branch_rows: usize,
    pub(crate) places: Places,
}

impl Model for Network {
    ghost use Rattle.net_case.specs.Networks.{LiveNetwork, IsNetwork};

    ghost Value = { LiveNetwork };

    ghost view = { λ n. record {
      buses = n.buses;
      units = n.units;
      branches = n.branches;
      reference = n.reference;
      gen_rows = n.gen_rows;
      branch_rows = n.branch_rows;
      bus_rows = n.places.entries;
    } };

    ghost invariant = { λ n. IsNetwork (record {
      buses = n.buses;
      units = n.units;
      branches = n.branches;
      reference = n.reference;
      gen_rows = n.gen_rows;
      branch_rows = n.branch_rows;
      bus_rows = n.places.entries;
    }) };
}

ghost use Rattle.market_data.specs.Participants.{IsDatum, IsUnit};

/// The unit with its fixed part, the output nearest 0, and its room above and below that.
#[tactic(auto, unfolding(crate::specs::NetworkReading::unit_within))]
fn unit_of(unit: &NetUnit) -> Unit
    requires order { unit.now.low ≤ℤ unit.now.high }
    requires low { IsDatum unit.now.low }
    ensures unit { (buses : ℕ) → IsNetUnit buses unit.now → IsUnit buses result }
    ensures is { result ≡ unit_within unit.now }
{
    let fixed = if unit.low > 0 {
        unit.low
    } else if unit.high < 0 {
        unit.high
    } else {
        0
    };
    Unit {
        row: unit.row,
        bus: unit.bus,
        fixed,
        up: unit.high - fixed,
        down: fixed - unit.low,
    }
}

impl Network {
    /// The live buses.
    pub fn buses(&self) -> &List<NetBus>
        ensures list { result.now ≡ self.now.buses }
        ensures network { IsNetwork self.now }
    {
        &self.buses
    }

    /// The live units.
    pub fn units(&self) -> &List<NetUnit>
        ensures list { result.now ≡ self.now.units }
        ensures network { IsNetwork self.now }
    {
        &self.units
    }

    /// The live branches; none where branch rows were not read.
    pub fn branches(&self) -> &List<NetBranch>
        ensures list { result.now ≡ self.now.branches }
        ensures network { IsNetwork self.now }
    {
        &self.branches
    }

    /// The place among the live buses of the first bus of type 3.
    pub fn reference(&self) -> usize
        ensures place { result ≡ self.now.reference }
        ensures network { IsNetwork self.now }
    {
        self.reference
    }

    /// The number of gen rows, live or not.
    pub fn gen_rows(&self) -> usize
        ensures count { result ≡ self.now.gen_rows }
        ensures network { IsNetwork self.now }
    {
        self.gen_rows
    }

    /// The number of branch rows, live or not; 0 where they were not read.
    pub fn branch_rows(&self) -> usize
        ensures count { result ≡ self.now.branch_rows }
        ensures network { IsNetwork self.now }
    {
        self.branch_rows
    }

    /// Whether a bus row has this number, live or not.
    pub fn has_bus(&self, number: i64) -> bool
        ensures { result ≡ has_bus self.now number }
    {
        place_of_number(&self.places, number).is_some()
    }

    /// The place of the live bus of this number.
    pub fn bus_place(&self, number: i64) -> Option<usize>
        ensures { result ≡ bus_place self.now number }
    {
        match place_of_number(&self.places, number) {
            Some(place) => place,
            None => None,
        }
    }

    /// The place of the live branch of this row.
    pub fn branch_place(&self, row: i64) -> Option<usize>
        ensures { result ≡ branch_place self.now row }
    {
        match row_number(row) {
            Some(row) => place_of_row(self.branches.slice(), row),
            None => None,
        }
    }

    /// The live buses, where nothing else is wanted any more.
    pub fn into_buses(self) -> List<NetBus>
        ensures { result ≡ self.buses }
    {
        self.buses
    }

    /// The number of gen rows and the live units.
    pub fn unit_list(&self, alloc: Global) -> Result<UnitList, Memory>
        ensures units { IfOk result (AreUnits (length self.now.buses)) }
        ensures is { IfOk result (λ list. list ≡ unit_list_of self.now) }
    {
        let mut units = List::new(alloc);
        for unit in self.units.slice() {
            units.push(unit_of(unit))?;
        }
        Ok(UnitList {
            rows: self.gen_rows as u32,
            units,
        })
    }
}
