//! The need of reserve as edits set it.

ghost use Rattle.std.specs.Prelude.{◌≡◌};
ghost use Rattle.market_model.specs.declared.participants.Parts.{Parts};
ghost use Rattle.market_model.specs.Changes.{with_need};
ghost use Rattle.market_model.specs.Frame.{SameFrame};
ghost use Rattle.offer_book.specs.Edits.{step_of};
ghost use Rattle.edit_replay.specs.Replays.{stepped};

use edit_replay::Step;
use market_model::Market;
use offer_book::Edit;

/// How much is needed after an edit: one of the need is accepted where reserve is listed and the number is not below 0.
fn need_edited(market: &Market, need: i64, edit: &Edit) -> i64
    ensures { (m : Parts) → SameFrame market.now m → result ≡ (step_of (with_need m need) edit.now).reserve.need }
{
    match edit {
        Edit::Need { mw } => {
            if market.reserve().listed && *mw >= 0 {
                *mw
            } else {
                need
            }
        }
        Edit::Price { .. } | Edit::Quantity { .. } | Edit::Demand { .. } | Edit::Limit { .. } => {
            need
        }
    }
}

/// How much reserve a market of this frame needs after a step, where it needed so much before, in 10^-9 MW.
pub(crate) fn need_after(market: &Market, need: i64, step: &Step) -> i64
    ensures { (m : Parts) → SameFrame market.now m → result ≡ (stepped (with_need m need) step.now).reserve.need }
{
    match step {
        Step::Edit(edit) => need_edited(market, need, edit),
        Step::Clear => need,
    }
}
