//! Laws of the grammar, each the contract of a function that does nothing.

ghost use Rattle.std.specs.Prelude.{◌≡◌, ℕ, List, Ok};
ghost use Rattle.case_text.specs.Matrices.{CaseMatrices};
ghost use Rattle.case_text.specs.Cases.{case_of};
ghost use Rattle.case_grammar.specs.CaseTexts.{IsCaseText};
ghost use Rattle.case_grammar.specs.Worked.{WorkedTexts};

/// What is read as a case is derived as that case.
pub fn read_texts_are_derived()
    ensures { (bytes : List ℕ) (case : CaseMatrices) → case_of bytes ≡ Ok case → IsCaseText bytes case }
{}

/// What is derived as a case is read as that case.
pub fn derived_texts_are_read()
    ensures { (bytes : List ℕ) (case : CaseMatrices) → IsCaseText bytes case → case_of bytes ≡ Ok case }
{}

/// Two derivations of one text give the same matrices.
pub fn one_reading()
    ensures { (bytes : List ℕ) (case other : CaseMatrices) → IsCaseText bytes case → IsCaseText bytes other → case ≡ other }
{}

/// Worked texts are cases with their matrices, and others are none.
pub fn worked_texts()
    ensures { WorkedTexts }
{}
