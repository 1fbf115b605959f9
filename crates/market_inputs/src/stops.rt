//! Why the files come to no market and to no check.

ghost use Rattle.std.specs.Prelude.{◌≡◌};
ghost use Rattle.market_inputs.specs.Stops.{table_stop_of};

use case_text::{CaseFault, CostsFault};
use cert_format::CertFault;
use edit_table::StepFault;
use factor_tables::TableFault;
use net_case::NetFault;
use net_paths::PathStop;
use offer_book::{OfferFault, ReserveFault};
use outage_list::{OutageFault, UnitOutageFault};
use plain_list::Memory;
use refusal_text::{Input, Refusal};
use rights_test::RightsFault;

/// Why nothing was made of the files.
#[derive(Debug, Drop)]
pub enum InputStop {
    Refused(Refusal),
    Memory,
}

impl From<Memory> for InputStop {
    ghost use Rattle.market_inputs.specs.declared.stops.InputStop.TheVariants as why;

    ghost from_gives = { λ _ stop. stop ≡ why.Memory };

    fn from(_refused: Memory) -> InputStop {
        InputStop::Memory
    }
}

impl From<CaseFault> for InputStop {
    ghost use Rattle.market_inputs.specs.Stops.{case_stop};

    ghost from_gives = { λ fault stop. stop ≡ case_stop fault };

    fn from(fault: CaseFault) -> InputStop {
        match fault {
            CaseFault::Memory => InputStop::Memory,
            _ => InputStop::Refused(Refusal::Case(fault)),
        }
    }
}

impl From<CostsFault> for InputStop {
    ghost use Rattle.market_inputs.specs.Stops.{costs_stop};

    ghost from_gives = { λ fault stop. stop ≡ costs_stop fault };

    fn from(fault: CostsFault) -> InputStop {
        match fault {
            CostsFault::Text {
                fault: CaseFault::Memory,
            } => InputStop::Memory,
            _ => InputStop::Refused(Refusal::Costs(fault)),
        }
    }
}

impl From<NetFault> for InputStop {
    ghost use Rattle.market_inputs.specs.Stops.{net_stop};

    ghost from_gives = { λ fault stop. stop ≡ net_stop fault };

    fn from(fault: NetFault) -> InputStop {
        match fault {
            NetFault::Memory => InputStop::Memory,
            _ => InputStop::Refused(Refusal::Network(fault)),
        }
    }
}

impl From<PathStop> for InputStop {
    ghost use Rattle.market_inputs.specs.Stops.{split_stop};

    ghost from_gives = { λ path stop. stop ≡ split_stop path };

    fn from(path: PathStop) -> InputStop {
        match path {
            PathStop::Split { bus } => InputStop::Refused(Refusal::Split { bus }),
            PathStop::Memory => InputStop::Memory,
        }
    }
}

impl From<OutageFault> for InputStop {
    ghost use Rattle.market_inputs.specs.Stops.{outage_stop};

    ghost from_gives = { λ fault stop. stop ≡ outage_stop fault };

    fn from(fault: OutageFault) -> InputStop {
        match fault {
            OutageFault::Memory => InputStop::Memory,
            _ => InputStop::Refused(Refusal::Outages(fault)),
        }
    }
}

impl From<UnitOutageFault> for InputStop {
    ghost use Rattle.market_inputs.specs.Stops.{unit_outage_stop};

    ghost from_gives = { λ fault stop. stop ≡ unit_outage_stop fault };

    fn from(fault: UnitOutageFault) -> InputStop {
        match fault {
            UnitOutageFault::Memory => InputStop::Memory,
            _ => InputStop::Refused(Refusal::UnitOutages(fault)),
        }
    }
}

impl From<OfferFault> for InputStop {
    ghost use Rattle.market_inputs.specs.Stops.{offer_stop};

    ghost from_gives = { λ fault stop. stop ≡ offer_stop fault };

    fn from(fault: OfferFault) -> InputStop {
        match fault {
            OfferFault::Memory => InputStop::Memory,
            _ => InputStop::Refused(Refusal::Offers(fault)),
        }
    }
}

impl From<ReserveFault> for InputStop {
    ghost use Rattle.market_inputs.specs.Stops.{reserve_stop};

    ghost from_gives = { λ fault stop. stop ≡ reserve_stop fault };

    fn from(fault: ReserveFault) -> InputStop {
        match fault {
            ReserveFault::Memory => InputStop::Memory,
            _ => InputStop::Refused(Refusal::Reserves(fault)),
        }
    }
}

/// A table that its reader refused, or that there was no memory for.
pub(crate) fn table_stop(file: Input, fault: TableFault) -> InputStop
    ensures { result ≡ table_stop_of file fault }
{
    match fault {
        TableFault::Memory => InputStop::Memory,
        _ => InputStop::Refused(Refusal::Table(file, fault)),
    }
}

impl From<RightsFault> for InputStop {
    ghost use Rattle.market_inputs.specs.Stops.{rights_stop};

    ghost from_gives = { λ fault stop. stop ≡ rights_stop fault };

    fn from(fault: RightsFault) -> InputStop {
        match fault {
            RightsFault::Memory => InputStop::Memory,
            _ => InputStop::Refused(Refusal::Rights(fault)),
        }
    }
}

impl From<StepFault> for InputStop {
    ghost use Rattle.market_inputs.specs.Stops.{step_stop};

    ghost from_gives = { λ fault stop. stop ≡ step_stop fault };

    fn from(fault: StepFault) -> InputStop {
        match fault {
            StepFault::Memory => InputStop::Memory,
            _ => InputStop::Refused(Refusal::Edits(fault)),
        }
    }
}

impl From<CertFault> for InputStop {
    ghost use Rattle.market_inputs.specs.Stops.{certificate_stop};

    ghost from_gives = { λ fault stop. stop ≡ certificate_stop fault };

    fn from(fault: CertFault) -> InputStop {
        match fault {
            CertFault::Key { key } => InputStop::Refused(Refusal::Certificate(key)),
            CertFault::Memory => InputStop::Memory,
        }
    }
}
