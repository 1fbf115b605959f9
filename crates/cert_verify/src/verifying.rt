//! The verdict on a certificate.

ghost use Rattle.std.specs.Prelude.{◌≡◌, IfOk, IfErr};
ghost use Rattle.cert_format.specs.Certificates.{RowsAreDistinct, cert_at};
ghost use Rattle.cert_verify.specs.Certificates.{first_reason};
ghost use Rattle.cert_verify.specs.Reasons.{places_reason, verdict_of};
ghost use Rattle.cert_verify.specs.Stops.{IsVerifyStop};

use crate::against::{against_farkas, against_optimal};
use crate::certified::{CertifiedDispatch, CertifiedDuals};
use crate::{Reason, Verdict, VerifyStop};
use cert_format::Cert;
use exact_fraction::Exact;
use market_data::FactorPlaces;
use market_model::Market;
use std::alloc::Global;

/// What is told where this is the first reason, or there is none.
fn told(reason: Option<Reason>) -> Verdict
    ensures { result ≡ verdict_of reason }
{
    match reason {
        None => Verdict::Yes,
        Some(reason) => Verdict::No(reason),
    }
}

/// Whether factors had other places than those of the market.
fn other_places(market: &Market, places: FactorPlaces) -> Option<Reason>
    ensures { result ≡ places_reason market.now places }
{
    if places.count() == market.factor_places().count() {
        None
    } else {
        Some(Reason::Places)
    }
}

/// Whether a certificate holds of a market: that its factors had as many places as the market's, and that its dispatch is feasible and its duals support it, or that its duals show that no
/// dispatch is feasible. Numbers are as in certificates: MW in 10^-9, and prices in 10^-6 per MWh, or plain numbers in duals of the second
/// kind. No row is named twice.
///
/// The first reason against it is told, in the order of [`Reason`]. Rows and units of the certificate are gone through in its own order,
/// limits and rooms in that of the market, and blocks and offers in theirs. So numbers are too large only where no reason holds that comes before their sum. The
/// definitions are the market's own: nothing of a way to a best dispatch is looked at.
pub fn verify<N: Exact>(
    alloc: Global,
    market: &Market,
    cert: &Cert<N>,
) -> Result<Verdict, VerifyStop<N>>
    requires { RowsAreDistinct (cert_at N.value cert.now) }
    ensures verdict { IfOk result (λ verdict. verdict ≡ verdict_of (first_reason market.now (cert_at N.value cert.now))) }
    ensures stops { IfErr result (IsVerifyStop N.value market.now N.bound (cert_at N.value cert.now)) }
{
    if let Some(reason) = other_places(market, cert.places()) {
        return Ok(Verdict::No(reason));
    }
    match cert {
        Cert::Optimal {
            blocks,
            energy,
            limits,
            places: _,
            reserve,
        } => {
            let dispatch = CertifiedDispatch::new(blocks.slice(), reserve);
            let prices = reserve.as_ref().map(|cleared| &cleared.duals);
            let duals = CertifiedDuals::new(*energy, limits.slice(), prices);
            let reason = against_optimal(alloc, market, &dispatch, &duals)?;
            Ok(told(reason))
        }
        Cert::Farkas {
            energy,
            limits,
            places: _,
            reserve,
        } => {
            let duals = CertifiedDuals::new(*energy, limits.slice(), reserve.as_ref());
            let reason = against_farkas(alloc, market, &duals)?;
            Ok(told(reason))
        }
    }
}
