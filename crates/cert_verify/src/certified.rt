//! What a certificate tells, lent by its parts.

ghost use Rattle.std.specs.Prelude.{◌≡◌, map, option_map};
ghost use Rattle.std.specs.Option.{option_copied};
ghost use Rattle.market_model.specs.Valued.{dual_at};
ghost use Rattle.cert_format.specs.Certificates.{cleared_reserve_at, reserve_duals_at};
ghost use Rattle.cert_verify.specs.Certificates.{dispatched, named_duals};
ghost use Rattle.cert_verify.specs.Certified.{certified_dispatch, certified_duals};

use cert_format::{ClearedReserve, ReserveDuals};
use exact_fraction::Exact;
use market_model::{Dual, RoomDual, datum};

/// The accepted MW of each block and of each offer of reserve.
#[derive(Clone, Copy)]
pub(crate) struct CertifiedDispatch<'a, N> {
    pub(crate) blocks: &'a [N],
    pub(crate) quantities: &'a [N],
}

impl<'a, N: Exact> CertifiedDispatch<'a, N> {
    /// Without a part on reserve none is accepted.
    pub(crate) fn new(blocks: &'a [N], reserve: &'a Option<ClearedReserve<N>>) -> Self
        ensures { certified_dispatch N.value result ≡ dispatched (map N.value blocks.now) (option_map (cleared_reserve_at N.value) reserve.now) }
    {
        let quantities = match reserve {
            None => &[],
            Some(cleared) => cleared.quantities.slice(),
        };
        CertifiedDispatch { blocks, quantities }
    }
}

/// The price of energy and of each limit that is named; and the price of reserve, and of each room that is named.
#[derive(Clone, Copy)]
pub(crate) struct CertifiedDuals<'a, N> {
    pub(crate) energy: N,
    pub(crate) limits: &'a [Dual<N>],
    pub(crate) reserve_price: N,
    pub(crate) rooms: &'a [RoomDual<N>],
}

impl<'a, N: Exact> CertifiedDuals<'a, N> {
    /// Without a part on reserve its prices are 0.
    pub(crate) fn new(
        energy: N,
        limits: &'a [Dual<N>],
        reserve: Option<&'a ReserveDuals<N>>,
    ) -> Self
        ensures limits { result.limits.now ≡ limits.now }
        ensures duals { certified_duals N.value result ≡ named_duals (N.value energy) (map (dual_at N.value) limits.now) (option_map (reserve_duals_at N.value) (option_copied reserve.entry)) }
    {
        match reserve {
            None => CertifiedDuals {
                energy,
                limits,
                reserve_price: datum(0),
                rooms: &[],
            },
            Some(duals) => CertifiedDuals {
                energy,
                limits,
                reserve_price: duals.price,
                rooms: duals.rooms.slice(),
            },
        }
    }
}
