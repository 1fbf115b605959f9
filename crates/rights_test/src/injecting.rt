//! What rights put in at each bus.

ghost use Rattle.std.specs.Prelude.{◌≡◌, ◌≤ℤ◌, pos, true, length, map, All, ◌==◌, IfOk, IfErr, if◌then◌else◌};
ghost use Rattle.fraction_theory.specs.Fraction.{whole, ◌-ℚ◌};
ghost use Rattle.exact_fraction.specs.declared.Op.TheVariants as Op;
ghost use Rattle.market_model.specs.Dispatch.{places, zero};
ghost use Rattle.market_model.specs.NamedSums.{IsRefusal, IsRefusedIn};
ghost use Rattle.market_model.specs.Rights.{rights_injection, rights_injection_terms, begin_terms};
ghost use Rattle.market_model.specs.SumTables.{IsRefusedAmong};
ghost use Rattle.market_model.specs.Valued.{passed_at};
ghost use Rattle.fraction_theory.specs.Sums.{total};
ghost use Rattle.rights_test.specs.Fits.{RightsInjectionSum};

use exact_fraction::{Exact, Passed, exact_difference};
use market_model::{TransmissionRight, datum, with_part};

/// The MW of a right as a number.
#[tactic(auto, using(market_data::proofs::Data::datum_read))]
pub(crate) fn mw_of<N: Exact>(right: &TransmissionRight) -> N
    requires { pos 0 ≤ℤ right.now.mw }
    ensures { N.value result ≡ whole right.now.mw }
{
    datum(right.mw)
}

/// A sum less the MW of a right, where these count.
fn less_end<N: Exact>(sum: N, right: &TransmissionRight, belongs: bool) -> Result<N, Passed<N>>
    requires { pos 0 ≤ℤ right.now.mw }
    ensures left { IfOk result (λ left. N.value left ≡ N.value sum -ℚ (if belongs then whole right.now.mw else zero)) }
    ensures belongs { IfErr result (λ _. belongs ≡ true) }
    ensures stops { IfErr result (λ passed. IsRefusal Op.Minus (N.value sum) (whole right.now.mw) N.bound (passed_at N.value passed)) }
{
    if belongs {
        exact_difference(sum, mw_of(right))
    } else {
        Ok(sum)
    }
}

/// What the rights that begin at a bus put in there.
fn begun_at<N: Exact>(rights: &[TransmissionRight], bus: usize) -> Result<N, Passed<N>>
    requires { All (λ t. pos 0 ≤ℤ t.mw) rights.now }
    ensures sum { IfOk result (λ mw. N.value mw ≡ total (begin_terms rights.now bus)) }
    ensures stops { IfErr result (λ passed. IsRefusedIn (rights_injection_terms rights.now bus) N.bound (passed_at N.value passed)) }
{
    let mut mw: N = datum(0);
    for right in rights {
        mw = with_part(mw, mw_of(right), right.from == bus)?;
    }
    Ok(mw)
}

/// The same less what those that end there take out.
fn put_at<N: Exact>(rights: &[TransmissionRight], bus: usize) -> Result<N, Passed<N>>
    requires { All (λ t. pos 0 ≤ℤ t.mw) rights.now }
    ensures sum { IfOk result (λ mw. N.value mw ≡ rights_injection rights.now bus) }
    ensures stops { IfErr result (λ passed. IsRefusedIn (rights_injection_terms rights.now bus) N.bound (passed_at N.value passed)) }
{
    let mut mw: N = begun_at(rights, bus)?;
    for right in rights {
        mw = less_end(mw, right, right.to == bus)?;
    }
    Ok(mw)
}

/// Puts in what rights put in at each of so many buses, in 10^-9 MW.
pub(crate) fn put_rights<N: Exact>(
    rights: &[TransmissionRight],
    out: &mut [N],
) -> Result<(), Passed<N>>
    requires { All (λ t. pos 0 ≤ℤ t.mw) rights.now }
    ensures count { length out.new ≡ length out.old }
    ensures injections { IfOk result (λ _. map N.value out.new ≡ map (rights_injection rights.now) (places (length out.old))) }
    ensures stops { IfErr result (λ passed. IsRefusedAmong (RightsInjectionSum (length out.old) rights.now) N.bound (passed_at N.value passed)) }
{
    for (bus, mw) in out.iter_mut().enumerate() {
        *mw = put_at(rights, bus)?;
    }
    Ok(())
}
