//! Laws of live networks, each the contract of a function that does nothing.

ghost use Rattle.std.specs.Prelude.{◌≡◌, Ok};
ghost use Rattle.case_text.specs.Matrices.{CaseMatrices};
ghost use Rattle.net_case.specs.Networks.{LiveNetwork};
ghost use Rattle.net_case.specs.NetworkReading.{network_of, unit_list_of};
ghost use Rattle.net_case.specs.declared.live_parts.Branches.{Branches};
ghost use Rattle.network_meaning.specs.LiveNetworks.{IsLiveNetwork};
ghost use Rattle.network_meaning.specs.Rooms.{HaveUnitRooms};
ghost use Rattle.network_meaning.specs.Worked.{WorkedCases};

/// What is read of a case is its live network.
pub fn read_networks_are_live()
    ensures { (read : Branches) (case : CaseMatrices) (network : LiveNetwork) → network_of read case ≡ Ok network → IsLiveNetwork read case network }
{}

/// The live network of a case is read of it.
pub fn live_networks_are_read()
    ensures { (read : Branches) (case : CaseMatrices) (network : LiveNetwork) → IsLiveNetwork read case network → network_of read case ≡ Ok network }
{}

/// A case has one live network at most.
pub fn one_network()
    ensures { (read : Branches) (case : CaseMatrices) (network other : LiveNetwork) → IsLiveNetwork read case network → IsLiveNetwork read case other → network ≡ other }
{}

/// The units of a live network are told with their fixed parts and their room.
pub fn units_have_room()
    ensures { (read : Branches) (case : CaseMatrices) (network : LiveNetwork) → IsLiveNetwork read case network → HaveUnitRooms network (unit_list_of network) }
{}

/// A worked case has its live network, and others have none.
pub fn worked_cases()
    ensures { WorkedCases }
{}
