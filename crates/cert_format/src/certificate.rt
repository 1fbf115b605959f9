//! Certificates, and why a text is none.

ghost use Rattle.std.specs.Prelude.{◌≡◌};
ghost use Rattle.cert_format.specs.Certificates.{places_of};

use market_data::FactorPlaces;
use market_model::{Dual, List, Memory, RoomDual};
use thiserror::Error;

/// The price of reserve, and the prices of rooms by unit. They are in 10^-6 per MWh with a best dispatch, and plain numbers where they show
/// that no dispatch is feasible.
#[derive(Drop, Debug)]
pub struct ReserveDuals<N> {
    pub price: N,
    pub rooms: List<RoomDual<N>>,
}

/// The accepted MW of each offer of reserve, in 10^-9, with the prices that support them.
#[derive(Drop, Debug)]
pub struct ClearedReserve<N> {
    pub quantities: List<N>,
    pub duals: ReserveDuals<N>,
}

/// What shows that a clear came to what it did. Quantities are in 10^-9 MW. The prices of an optimal dispatch are in 10^-6 per MWh;
/// duals that show that no dispatch is feasible are plain numbers. Both tell how many places the factors of the market had. They have a part
/// on reserve where the market lists it, and none where it is of energy alone.
#[derive(Drop, Debug)]
pub enum Cert<N> {
    /// A best dispatch, the accepted MW of each block, with the prices that support it.
    Optimal {
        blocks: List<N>,
        energy: N,
        limits: List<Dual<N>>,
        places: FactorPlaces,
        reserve: Option<ClearedReserve<N>>,
    },
    /// Duals that show that no dispatch is feasible.
    Farkas {
        energy: N,
        limits: List<Dual<N>>,
        places: FactorPlaces,
        reserve: Option<ReserveDuals<N>>,
    },
}

impl<N> Cert<N> {
    /// How many places the factors of the market had.
    pub fn places(&self) -> FactorPlaces
        ensures { result ≡ places_of self.now }
    {
        match self {
            Cert::Optimal { places, .. } => *places,
            Cert::Farkas { places, .. } => *places,
        }
    }
}

/// The parts of a certificate's text, in the order in which they are looked at.
#[derive(Clone, Copy, PartialEq, Eq, Debug)]
pub enum Key {
    /// The text is no JSON object.
    Json,
    Version,
    Kind,
    Energy,
    Blocks,
    Limits,
    Places,
    Reserve,
    /// A member of another name.
    Extra,
}

/// Why a text is no certificate.
#[derive(Clone, Copy, PartialEq, Eq, Debug, Error)]
pub enum CertFault {
    /// The first part that is not in the grammar.
    #[error("no certificate by its {key:?}")]
    Key { key: Key },
    #[error("memory was refused")]
    Memory,
}

impl From<Memory> for CertFault {
    ghost use Rattle.cert_format.specs.declared.certificate.CertFault.TheVariants as fault;

    ghost from_gives = { λ _ e. e ≡ fault.Memory };

    fn from(_refused: Memory) -> CertFault {
        CertFault::Memory
    }
}
