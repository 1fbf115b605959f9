//! A law of the definitions.

ghost use Rattle.std.specs.Prelude.{◌≡◌, ℕ, List, Ok};
ghost use Rattle.case_text.specs.Matrices.{CaseMatrices, AreEven};
ghost use Rattle.case_text.specs.Cases.{case_of};

/// The matrices of a case have rows of one width each, which is enough for what they are of.
pub fn matrices_are_even()
    ensures { (bytes : List ℕ) (case : CaseMatrices) → case_of bytes ≡ Ok case → AreEven case }
{}
