//! A market whose parts fit together.

use crate::factor_table::{listed_factor, loss_table, table_of};
use crate::outages::{lost_lines, outage_index, place_of_line};
use crate::pickup_table::pickup_table;
use crate::{Block, Bus, FactorPlaces, Line, Parts, Pickup, Reserve, Unit};
use plain_list::{List, Memory};
use std::alloc::Global;
use std::marker::Model;

/// The market of one interval: energy, and spinning reserve where that is cleared together with it.
#[derive(Drop, Debug)]
pub struct Market {
    parts: Parts,
    /// The shift factors: a row of buses for each line.
    shift: Vec<i64>,
    /// The places of the lines that outages lose, as the outages are listed.
    lost: List<usize>,
    /// The place of the outage of each line, where it is lost in one.
    index: Vec<Option<usize>>,
    /// The loss factors for the lines that outages lose: a row of lines for each outage.
    loss: Vec<i64>,
    /// The pickup factors, in 10^-15: a row of lines for each outage of a unit.
    pickup_factors: Vec<i128>,
}

impl Model for Market {
    ghost use Rattle.std.specs.Prelude.{◌≡◌, length};
    ghost use Rattle.market_model.specs.declared.participants.Parts.{Parts};
    ghost use Rattle.market_model.specs.Factors.{factor_in, IsTable};
    ghost use Rattle.market_model.specs.LostLines.{AreLostLines};
    ghost use Rattle.market_model.specs.Market.{IsMarket};
    ghost use Rattle.market_model.specs.PickupTable.{IsPickupTable};

    ghost Value = { Parts };

    ghost view = { λ m. m.parts };

    ghost invariant = { λ m. IsMarket m.parts × IsTable (length m.parts.lines) (length m.parts.buses) (factor_in m.parts.shift) m.shift.items × AreLostLines m.parts m.lost m.index.items m.loss.items × IsPickupTable m.parts m.pickup_factors.items };
}

impl Market {
    ghost use Rattle.std.specs.Prelude.{◌≡◌, ◌<◌, pos, ◌≤ℤ◌, length, true, is_some};
    ghost use Rattle.fraction_theory.specs.Fraction.{over};
    ghost use Rattle.market_data.specs.Participants.{IsDatum};
    ghost use Rattle.market_data.specs.Scales.{pickup_one};
    ghost use Rattle.market_model.specs.Changes.{with_price, with_quantity, with_demand, with_limit, with_need};
    ghost use Rattle.market_model.specs.Dispatch.{unit_at, block_at, line_at};
    ghost use Rattle.market_model.specs.Factors.{factor_in};
    ghost use Rattle.market_model.specs.LimitRows.{limit_of, lost_lines, pickup_factor, place_of_line};
    ghost use Rattle.market_model.specs.Market.{IsMarket};
    ghost use Rattle.market_model.specs.Stairs.{stair_in, offered, room_of};

    /// The live buses, in the order in which they were given.
    pub fn buses(&self) -> &List<Bus>
        ensures list { result.now ≡ self.now.buses }
        ensures market { IsMarket self.now }
    {
        &self.parts.buses
    }

    /// The live units, in the order in which they were given.
    pub fn units(&self) -> &List<Unit>
        ensures list { result.now ≡ self.now.units }
        ensures market { IsMarket self.now }
    {
        &self.parts.units
    }

    /// The blocks of live units, in the order in which they were given.
    pub fn blocks(&self) -> &List<Block>
        ensures list { result.now ≡ self.now.blocks }
        ensures market { IsMarket self.now }
    {
        &self.parts.blocks
    }

    /// The live branches, in the order in which they were given: that of the limit rows.
    pub fn lines(&self) -> &List<Line>
        ensures list { result.now ≡ self.now.lines }
        ensures market { IsMarket self.now }
    {
        &self.parts.lines
    }

    /// The branch rows of the outages, in the order in which they are listed.
    pub fn outages(&self) -> &List<u32>
        ensures list { result.now ≡ self.now.outages }
        ensures market { IsMarket self.now }
    {
        &self.parts.outages
    }

    /// The places of the lines that the outages lose, in the same order.
    pub fn lost_lines(&self) -> &List<usize>
        ensures list { result.now ≡ lost_lines self.now }
        ensures market { IsMarket self.now }
    {
        &self.lost
    }

    /// The place of the unit that each outage of a unit loses, in the order in which these are listed.
    pub fn unit_outages(&self) -> &List<usize>
        ensures list { result.now ≡ self.now.unit_outages }
        ensures market { IsMarket self.now }
    {
        &self.parts.unit_outages
    }

    /// What others pick up then, in the order in which that was given.
    pub fn pickups(&self) -> &List<Pickup>
        ensures list { result.now ≡ self.now.pickups }
        ensures market { IsMarket self.now }
    {
        &self.parts.pickups
    }

    /// What units offer of spinning reserve, in the order in which that was given, and how much is needed.
    pub fn reserve(&self) -> &Reserve
        ensures reserve { result.now ≡ self.now.reserve }
        ensures market { IsMarket self.now }
    {
        &self.parts.reserve
    }

    /// How many decimal places a factor in the tables may have.
    pub fn factor_places(&self) -> FactorPlaces
        ensures { result ≡ self.now.factor_places }
    {
        self.parts.factor_places
    }

    /// The place of the line of a branch row; the number of lines where none has it.
    pub fn place_of_line(&self, row: u32) -> usize
        ensures { result ≡ place_of_line self.now row }
    {
        place_of_line(&self.parts, row)
    }

    /// The shift factor of a line for a bus, both by place, in 10^-9.
    pub fn shift(&self, line: usize, bus: usize) -> i64
        requires line { line < length self.now.lines }
        requires bus { bus < length self.now.buses }
        ensures { result ≡ factor_in self.now.shift line bus }
    {
        self.shift[line * self.parts.buses.len() + bus]
    }

    /// The loss factor of a line for a line that is lost, both by place, in 10^-9. It is read at once where an outage loses that line;
    /// limit rows ask for no other, for which it is looked up in the list.
    pub fn loss(&self, line: usize, lost: usize) -> i64
        requires line { line < length self.now.lines }
        requires lost { lost < length self.now.lines }
        ensures { result ≡ factor_in self.now.loss line lost }
    {
        match self.index[lost] {
            Some(outage) => self.loss[outage * self.parts.lines.len() + line],
            None => listed_factor(self.parts.loss.slice(), line, lost),
        }
    }

    /// What a line takes on of the output of a unit that is lost, by the places of the line and of the outage, in 10^-15.
    pub fn pickup_factor(&self, line: usize, outage: usize) -> i128
        requires line { line < length self.now.lines }
        requires outage { outage < length self.now.unit_outages }
        ensures { pickup_factor self.now line outage ≡ over result pickup_one }
    {
        self.pickup_factors[outage * self.parts.lines.len() + line]
    }

    /// Sets the price of a block, in 10^-6 per MWh.
    pub fn set_price(&mut self, block: usize, price: i64)
        requires block { block < length self.old.blocks }
        requires price { IsDatum price }
        ensures { self.new ≡ with_price self.old block price }
    {
        let old = *self.parts.blocks.at(block);
        self.parts.blocks.set(block, Block { price, ..old });
    }

    /// Sets the quantity of a block, in 10^-9 MW.
    pub fn set_quantity(&mut self, block: usize, mw: i64)
        requires block { block < length self.old.blocks }
        requires least { pos 0 ≤ℤ mw }
        requires room { offered (stair_in (block_at self.old block).unit (block_at self.old block).side (with_quantity self.old block mw).blocks) ≤ℤ room_of (block_at self.old block).side (unit_at self.old (block_at self.old block).unit) }
        ensures { self.new ≡ with_quantity self.old block mw }
    {
        let old = *self.parts.blocks.at(block);
        self.parts.blocks.set(
            block,
            Block {
                quantity: mw,
                ..old
            },
        );
    }

    /// Sets the load of a bus, in 10^-9 MW. Its shunt stays.
    pub fn set_demand(&mut self, bus: usize, pd: i64)
        requires bus { bus < length self.old.buses }
        requires load { IsDatum pd }
        ensures { self.new ≡ with_demand self.old bus pd }
    {
        let old = *self.parts.buses.at(bus);
        self.parts.buses.set(bus, Bus { pd, ..old });
    }

    /// Sets the limit of a line that has one, after an outage or in the base, in 10^-9 MW.
    pub fn set_limit(&mut self, line: usize, post: bool, mw: i64)
        requires line { line < length self.old.lines }
        requires limit { is_some (limit_of post (line_at self.old line)) ≡ true }
        requires least { pos 0 ≤ℤ mw }
        ensures { self.new ≡ with_limit self.old line post mw }
    {
        let old = *self.parts.lines.at(line);
        self.parts.lines.set(line, limited(old, post, mw));
    }

    /// Sets the need of reserve, in 10^-9 MW, where reserve is cleared together with energy.
    pub fn set_need(&mut self, mw: i64)
        requires listed { self.old.reserve.listed ≡ true }
        requires least { pos 0 ≤ℤ mw }
        ensures { self.new ≡ with_need self.old mw }
    {
        self.parts.reserve.need = mw;
    }
}

ghost use Rattle.std.specs.Prelude.{◌≡◌, IfOk};
ghost use Rattle.market_model.specs.Changes.{line_with};
ghost use Rattle.market_model.specs.Market.{IsMarket};

/// A line with another limit.
fn limited(line: Line, post: bool, mw: i64) -> Line
    ensures { result ≡ line_with line post mw }
{
    if post {
        Line {
            post: Some(mw),
            ..line
        }
    } else {
        Line {
            base: Some(mw),
            ..line
        }
    }
}

/// The market of these parts. They are dropped where memory is refused.
pub fn assemble(alloc: Global, parts: Parts) -> Result<Market, Memory>
    requires { IsMarket parts }
    ensures { IfOk result (λ m. m ≡ parts) }
{
    let lines = parts.lines.len();
    let shift = table_of(alloc, parts.shift.slice(), lines, parts.buses.len())?;
    let lost = lost_lines(alloc, &parts)?;
    let index = outage_index(alloc, lines, lost.slice())?;
    let loss = loss_table(alloc, parts.loss.slice(), lines, lost.slice(), &index)?;
    let pickup_factors = pickup_table(alloc, &parts, &shift)?;
    Ok(Market {
        parts,
        shift,
        lost,
        index,
        loss,
        pickup_factors,
    })
}
