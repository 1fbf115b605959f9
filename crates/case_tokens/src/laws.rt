//! A law of the definitions.

ghost use Rattle.std.specs.Prelude.{ℕ, List, length};
ghost use Rattle.case_tokens.specs.TokenLists.{AreInOrder, token_list};

/// The tokens of a text stand in it in their order.
pub fn spans_in_order()
    ensures { (text : List ℕ) → AreInOrder 0 (length text) (token_list text).tokens }
{}
