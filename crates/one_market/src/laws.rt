//! Laws of what files stand for, each the contract of a function that does nothing.

ghost use Rattle.std.specs.Prelude.{ℕ, List};
ghost use Rattle.market_data.specs.declared.scales.FactorPlaces.{FactorPlaces};
ghost use Rattle.market_tables.specs.Tables.{GridTexts, MarketTexts};
ghost use Rattle.net_case.specs.declared.live_parts.PostRating.{PostRating};
ghost use Rattle.one_market.specs.OneMarket.{IsOne};
ghost use Rattle.market_inputs.specs.Texts.{IsPool, IsLimited, IsCheck};
ghost use Rattle.command_answers.specs.Inputs.{AreEntitled, IsCertificate, IsCertified, IsFactorWork, IsReplayed};

/// A case and offers stand for one market of `pool` at most, or have one first fault.
pub fn one_pool_market()
    ensures { (case offers : List ℕ) → IsOne (IsPool case offers) }
{}

/// The tables of a market stand for one market of `clear` at most, or have one first fault.
pub fn one_clear_market()
    ensures { (rating : PostRating) (places : FactorPlaces) (texts : MarketTexts) → IsOne (IsLimited rating places texts) }
{}

/// With a table of edits they stand for one market of `replay` and one list of its steps at most, or have one first fault.
pub fn one_replay()
    ensures { (rating : PostRating) (places : FactorPlaces) (texts : MarketTexts) (edits : List ℕ) → IsOne (IsReplayed rating places texts edits) }
{}

/// With a table of edits and a certificate they stand for one market of `verify`, as the edits leave it, and one certificate at most, or have
/// one first fault.
pub fn one_verification()
    ensures { (most : ℕ) (rating : PostRating) (places : FactorPlaces) (texts : MarketTexts) (edits certificate : List ℕ) → IsOne (IsCertified most rating places texts edits certificate) }
{}

/// With a table of transmission rights they stand for one market of `rights` and one list of rights at most, or have one first fault.
pub fn one_rights_market()
    ensures { (rating : PostRating) (places : FactorPlaces) (texts : MarketTexts) (rights : List ℕ) → IsOne (AreEntitled rating places texts rights) }
{}

/// A text stands for one certificate of `migrate` at most, or has one fault, whatever the bound of its numbers.
pub fn one_certificate()
    ensures { (most : ℕ) (certificate : List ℕ) → IsOne (IsCertificate most certificate) }
{}

/// A case and its tables stand for one thing at most that a check works on, or have one first fault.
pub fn one_check()
    ensures { (places : FactorPlaces) (texts : GridTexts) → IsOne (IsCheck places texts) }
{}

/// A case and a table of outages stand for one thing at most of which tables of factors are made, or have one first fault.
pub fn one_factor_work()
    ensures { (case contingencies : List ℕ) → IsOne (IsFactorWork case contingencies) }
{}
