//! The lines that outages lose, by place.

ghost use Rattle.std.specs.Prelude.{◌≡◌, ◌≢◌, ◌<◌, length, All, AllPairs, IfOk};
ghost use Rattle.market_model.specs.LimitRows.{lost_lines, place_of_line};
ghost use Rattle.market_model.specs.LostLines.{IsOutageIndex};

use crate::Parts;
use plain_list::{List, Memory};
use std::alloc::Global;

/// The place of the line of a branch row; the number of lines where none has it.
pub(crate) fn place_of_line(parts: &Parts, row: u32) -> usize
    ensures { result ≡ place_of_line parts.now row }
{
    let lines = &parts.lines;
    for place in 0..lines.len() {
        if lines.at(place).row == row {
            return place;
        }
    }
    lines.len()
}

/// The places of the lines that outages lose, as the outages are listed.
pub(crate) fn lost_lines(alloc: Global, parts: &Parts) -> Result<List<usize>, Memory>
    ensures { IfOk result (λ lost. lost ≡ lost_lines parts.now) }
{
    let mut lost = List::new(alloc);
    let outages = parts.outages.slice();
    for outage in outages {
        lost.push(place_of_line(parts, *outage))?;
    }
    Ok(lost)
}

/// The place of the outage of each line, where it is lost in one.
pub(crate) fn outage_index(
    alloc: Global,
    lines: usize,
    lost: &[usize],
) -> Result<Vec<Option<usize>>, Memory>
    requires inside { All (λ line. line < lines) lost.now }
    requires distinct { AllPairs (λ a b. a ≢ b) lost.now }
    ensures { IfOk result (λ index. IsOutageIndex lines lost.now index.items) }
{
    let mut index = match vec![in alloc; None; lines] {
        Ok(index) => index,
        Err(_) => return Err(Memory),
    };
    for (outage, line) in lost.iter().enumerate() {
        index[*line] = Some(outage);
    }
    Ok(index)
}
