//! The grammar of a case by productions: which texts are cases, and which matrices they give.
//!
//! `specs` has the productions, each beside its sentence of `docs/FORMATS.md`: `Gaps`, `Values`, `Statements` and `CaseTexts`, with
//! `IsCaseText` as the whole, and `Worked` with worked texts. They know nothing of tokens or of a reader. The laws say that `case_text`
//! reads exactly the texts that they derive, as the matrices that they give.
#![tactic(auto)]

pub mod laws;
