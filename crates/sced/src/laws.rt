//! What every run of the program means for those who read what it prints: laws that follow from what `run` promises, each the contract of a
//! function that does nothing.

ghost use Rattle.sced.specs.Headline.{LawOfAnswered, LawOfAsked, LawOfBounds, LawOfCauses, LawOfCertificate, LawOfCheck, LawOfCleared, LawOfComplete, LawOfCutShort, LawOfFactorCheck, LawOfFactors, LawOfFaults, LawOfFirstDispatch, LawOfFirstPrices, LawOfInfeasible, LawOfLastCertificate, LawOfMake, LawOfMigrate, LawOfMissing, LawOfOneDispatch, LawOfOneSetOfPrices, LawOfOutside, LawOfRange, LawOfReplay, LawOfRights, LawOfRoundTrip, LawOfSurplus, LawOfVerify};

use factor_laws::laws::{
    loss_tables_are_explained, loss_tables_are_read_back, loss_tables_are_short,
    shift_tables_are_explained, shift_tables_are_read_back, shift_tables_are_short,
};
use market_model::laws::{reserve_is_paid_for_the_need, surplus_is_not_negative};
use one_dispatch::laws::one_goes_first;
use rights_test::laws::payments_are_covered;
use settled_answer::laws::{no_price_passes, prices_are_first};
use settled_replay::laws::one_report;

/// A run that puts a text was asked for nothing that the program does, for work on what the files stand for, for a ring, or on files with
/// a first fault.
pub fn asked()
    ensures { LawOfAsked }
{}

/// What is printed as cleared balances, is within the offers of energy and of reserve, meets every limit of the base and after every
/// listed outage of the market as edited, up to its excess, whose penalty its welfare bears, has the reserve that is needed within the
/// rooms of the units, and has the greatest welfare of all dispatches that do; its prices are those of its duals, which support it, its
/// surplus is the sum of its rents, and reserve is paid its price for the need.
pub fn cleared()
    ensures { LawOfCleared }
{
    reserve_is_paid_for_the_need();
}

/// What is printed as cleared is of the best dispatches the one that goes first: none that is worth as much accepts more of the first block,
/// or of the first offer of reserve, at which the two differ.
pub fn first_dispatch()
    ensures { LawOfFirstDispatch }
{}

/// What two runs print of one market as cleared is one dispatch, with one reserve, one flow of each row and one welfare, by whichever bits each
/// counts, and whatever was cleared before.
pub fn one_dispatch()
    ensures { LawOfOneDispatch }
{
    one_goes_first();
}

/// What is printed as cleared has the first of the prices that support its dispatch, or a number passed the bound that the words ask for on the way to
/// these; where none does, whichever choice of basic variables a clear ends with, they are first.
pub fn first_prices()
    ensures { LawOfFirstPrices }
{
    prices_are_first();
    no_price_passes();
}

/// What two runs print of one market as cleared is the same in dispatch, duals, bus prices, welfare and settlement, where both have first prices,
/// by whichever bits each counts, and whatever was cleared before.
pub fn one_set_of_prices()
    ensures { LawOfOneSetOfPrices }
{
    one_report();
}

/// The surplus that a pool, a clear or a replay prints is not negative, where the fixed offset of each row that has a printed price above 0 is within its limits.
pub fn surplus()
    ensures { LawOfSurplus }
{
    surplus_is_not_negative();
}

/// Where infeasible is printed no dispatch qualifies, and the printed duals show it with the printed bound.
pub fn infeasible()
    ensures { LawOfInfeasible }
{}

/// A replay tells of each step, and of it alone, what it came to: an edit what it is judged to, a clear its outcome.
pub fn replay()
    ensures { LawOfReplay }
{}

/// A market that is to be cleared is reported. Where all numbers that may have to be written down fit, what is reported is cleared where
/// some dispatch qualifies, and infeasible where none does.
pub fn complete()
    ensures { LawOfComplete }
{}

/// Each number of what is reported of a clear is within the bound that the words ask for.
pub fn bounds()
    ensures { LawOfBounds }
{}

/// Where range is printed, the two printed numbers are a working pair of the market over rows that are reached, which passes the bound that
/// the words ask for.
pub fn range()
    ensures { LawOfRange }
{}

/// Yes is printed where the certificate is true of the market, and no with the first reason where it is not; else two numbers of the
/// certificate's sums, which pass the bound that the words ask for.
pub fn verify()
    ensures { LawOfVerify }
{}

/// The file that is named for a certificate has that of the outcome that is reported, which is true of the market; or what it had, where
/// there is none.
pub fn certificate()
    ensures { LawOfCertificate }
{}

/// The same of the last clear of a replay.
pub fn last_certificate()
    ensures { LawOfLastCertificate }
{}

/// Of what a clear of a market wrote `verify` says yes against that market, or that numbers are too large.
pub fn round_trip()
    ensures { LawOfRoundTrip }
{}

/// Behind the report of a cleared market, whose dispatch goes first, come whether limits could carry the rights together, with the first limit that they could not, and
/// what each right is paid by the printed bus prices; where they fit, they are paid no more than the surplus.
pub fn rights()
    ensures { LawOfRights }
{
    reserve_is_paid_for_the_need();
    payments_are_covered();
}

/// A certificate of any version that is read is written in the version of today, and is read back as the same certificate.
pub fn migrate()
    ensures { LawOfMigrate }
{}

/// The residuals of the tables are told, and whether they are within what rounding explains.
pub fn check()
    ensures { LawOfCheck }
{}

/// Tables of factors that are made have the factors nearest to the exact ones, and the files that are named for them have their texts, which
/// are read as the same tables; or the reason why none are made is told, and no file is touched.
pub fn factors()
    ensures { LawOfFactors }
{
    shift_tables_are_read_back();
    loss_tables_are_read_back();
}

/// `check` reads the tables that were made, with the case and the outages of which they were, and says that all is within what rounding
/// explains.
pub fn factor_check()
    ensures { LawOfFactorCheck }
{
    factors();
    shift_tables_are_explained();
    loss_tables_are_explained();
    loss_tables_are_read_back();
    shift_tables_are_short();
    loss_tables_are_short();
}

/// The first fault of the files is told exactly where there is one, and no file is touched then; its status comes else only for an edit
/// that is refused, and for tables of factors that are not made.
pub fn faults()
    ensures { LawOfFaults }
{}

/// A ring has the worth and the surplus of an answer that is best, first and priced, or two of its numbers that pass 127 bits.
pub fn make()
    ensures { LawOfMake }
{
    reserve_is_paid_for_the_need();
}

/// No file is touched but those that the words name for writing.
pub fn outside()
    ensures { LawOfOutside }
{}

/// Where no failed call is counted a run puts a text, with a status that comes with one, unless memory was refused.
pub fn answered()
    ensures { LawOfAnswered }
{}

/// A run ends for a failed read, write or put only where one is counted that the words ask for; else no such count moves.
pub fn causes()
    ensures { LawOfCauses }
{}

/// What a run leaves that ended for a failed call or for want of memory: nothing, or a beginning of what is right to tell. Where a write
/// failed, that file is as it was or has a beginning of its bytes, those before it are whole, and every other is as it was; where only the
/// put failed, all are whole.
pub fn cut_short()
    ensures { LawOfCutShort }
{}

/// Where a file that the words name for reading is not there, nothing is told.
pub fn missing()
    ensures { LawOfMissing }
{}
