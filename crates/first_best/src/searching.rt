// The search: column after column.
ghost use Rattle.std.specs.Prelude.{◌≡◌, ◌++◌, ◌∷◌, [], List, ℕ, IfErr, IfOk, false};
ghost use Rattle.std.specs.List.{Contains};
ghost use Rattle.linear_dict.specs.Dictionaries.{system_in};
ghost use Rattle.simplex_core.specs.Outcomes.{ShowsChoice};
ghost use Rattle.simplex_core.specs.States.{state_of};
ghost use Rattle.simplex_theory.specs.States.{IsSolved};
ghost use Rattle.first_best.specs.Holding.{held_by};
ghost use Rattle.first_best.specs.Outcomes.{GoesFirst, HasSystem, IsFace, IsPairOn};

use crate::holding::{can_not_move, held_besides};
use crate::moving::{Face, moved_first};
use crate::raising::hold_high;
use crate::stop::FirstStop;
use exact_fraction::Exact;
use linear_dict::Dict;
use std::alloc::Global;

/// A face of one column more: as it is, where the column can't move, and without a run, where it stands at its high bound or goes there at
/// once.
fn further<N: Exact>(alloc: Global, face: Face<N>, name: u32) -> Result<Face<N>, FirstStop<N>>
    requires face { (names : List ℕ) × IsFace face.dict names (held_by face.dict.names face.held.items) }
    requires column { Contains face.dict.columns name }
    ensures same { IfOk result (λ next. HasSystem face.dict next.dict) }
    ensures face { (names : List ℕ) → IsFace face.dict names (held_by face.dict.names face.held.items)
        → IfOk result (λ next. IsFace next.dict (names ++ name ∷ []) (held_by next.dict.names next.held.items)) }
    ensures pair { IfErr result (IsPairOn N.value N.bound face.dict) }
{
    if can_not_move(&face.dict, &face.held, name) {
        return Ok(face);
    }
    let Face { mut dict, mut held } = face;
    if hold_high(alloc, &mut dict, &mut held, name)? {
        Ok(Face { dict, held })
    } else {
        moved_first(alloc, Face { dict, held }, name)
    }
}

/// Of the best values of a system, of which a dictionary shows some, those that go first in this order of columns: that have more of the
/// first one in which two of them differ. A column takes one run of the method at most.
pub fn first_of_best<N: Exact>(
    alloc: Global,
    dict: Dict<N>,
    order: &[u32],
) -> Result<Dict<N>, FirstStop<N>>
    requires live { dict.spent ≡ false }
    requires shows { ShowsChoice dict }
    requires solved { IsSolved (system_in dict) (state_of dict) }
    requires columns { (j : ℕ) → Contains order.now j → Contains dict.columns j }
    ensures first { IfOk result (GoesFirst dict order.now) }
    ensures pair { IfErr result (IsPairOn N.value N.bound dict) }
{
    let held = held_besides(alloc, &dict, &[])?;
    let mut face = Face { dict, held };
    for place in 0..order.len() {
        face = further(alloc, face, order[place])?;
    }
    Ok(face.dict)
}
