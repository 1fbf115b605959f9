//! `cert_format`: certificates that are read and written, and the first fault of texts that are none.

use cert_format::{CertFault, Key, from_json, outcome_json, to_json};
use exact_fraction::{Exact, Frac63, Op, Passed};
use market_model::{Dual, Duals, FactorPlaces, Farkas, List, Memory, Outcome, RoomDual, RowId};
use std::alloc::Global;
use std::test::Fail;

/// A dispatch with a limit that binds after an outage.
const OPTIMAL: &str =
    r#"{"blocks":["45000000000/1","15000000000/1"],"energy":"10000000/1","kind":"optimal","limits":[{"branch":2,"down":"0/1","outage":1,"up":"20000000/1"}],"places":6,"version":2}"#;

/// Duals that show that no dispatch is feasible, where factors had nine places.
const FARKAS: &str =
    r#"{"energy":"-1/1","kind":"farkas","limits":[{"branch":2,"down":"0/1","outage":0,"up":"2/1"}],"places":9,"version":2}"#;

/// Limits of one branch in the base and after the losses of two units, of which the last has the greatest row.
const LOST: &str =
    r#"{"energy":"-1/1","kind":"farkas","limits":[{"branch":2,"down":"0/1","outage":0,"up":"2/1"},{"branch":2,"down":"0/1","outage":0,"unit":1,"up":"2/1"},{"branch":2,"down":"0/1","outage":0,"unit":4294967295,"up":"2/1"}],"places":6,"version":2}"#;

/// A dispatch with reserve of two units, of which the first uses up its room.
const WITH_RESERVE: &str =
    r#"{"blocks":["60000000000/1","0/1"],"energy":"13000000/1","kind":"optimal","limits":[],"places":6,"reserve":{"price":"5000000/1","quantities":["40000000000/1","20000000000/1"],"units":[{"dual":"3000000/1","unit":1}]},"version":3}"#;

/// Duals that show that units have not the reserve that is needed.
const SHORT: &str =
    r#"{"energy":"0/1","kind":"farkas","limits":[{"branch":2,"down":"0/1","outage":0,"unit":1,"up":"2/1"}],"places":9,"reserve":{"price":"1/1","units":[{"dual":"1/2","unit":3},{"dual":"1/1","unit":4294967295}]},"version":3}"#;

/// Texts that are no certificates, each with the first part that is not in the grammar.
static FAULTS: [(&str, Key); 45] = [
    ("{", Key::Json),
    ("[]", Key::Json),
    (r#"{"version":1.0}"#, Key::Version),
    (r#"{"version":4,"kind":"best"}"#, Key::Version),
    (r#"{"version":3,"kind":"best"}"#, Key::Kind),
    (r#"{"version":2,"kind":"best"}"#, Key::Kind),
    (r#"{"version":1,"kind":"best"}"#, Key::Kind),
    (r#"{"version":1,"kind":"farkas"}"#, Key::Energy),
    (
        r#"{"version":1,"kind":"farkas","energy":"2/4"}"#,
        Key::Energy,
    ),
    (
        r#"{"version":1,"kind":"farkas","energy":"+1/2"}"#,
        Key::Energy,
    ),
    (
        r#"{"version":1,"kind":"farkas","energy":"01/2"}"#,
        Key::Energy,
    ),
    (
        r#"{"version":1,"kind":"farkas","energy":"-0/1"}"#,
        Key::Energy,
    ),
    (
        r#"{"version":1,"kind":"farkas","energy":"1/0"}"#,
        Key::Energy,
    ),
    (r#"{"version":1,"kind":"farkas","energy":"5"}"#, Key::Energy),
    (
        r#"{"version":1,"kind":"farkas","energy":"170141183460469231731687303715884105728/1"}"#,
        Key::Energy,
    ),
    (
        r#"{"version":1,"kind":"optimal","energy":"1/2","limits":[]}"#,
        Key::Blocks,
    ),
    (
        r#"{"version":1,"kind":"optimal","energy":"1/2","blocks":[1],"limits":[]}"#,
        Key::Blocks,
    ),
    (
        r#"{"version":1,"kind":"farkas","energy":"1/2","blocks":[],"limits":[]}"#,
        Key::Blocks,
    ),
    (
        r#"{"version":1,"kind":"farkas","energy":"1/2","x":0}"#,
        Key::Limits,
    ),
    (
        r#"{"version":1,"kind":"farkas","energy":"1/2","limits":[{"branch":1,"outage":4294967296,"up":"0/1","down":"0/1"}]}"#,
        Key::Limits,
    ),
    (
        r#"{"version":1,"kind":"farkas","energy":"1/2","limits":[{"branch":1,"outage":0,"up":"0/1","down":"0/1","x":0}]}"#,
        Key::Limits,
    ),
    (
        r#"{"version":1,"kind":"farkas","energy":"1/2","limits":[{"branch":1,"outage":0,"up":"0/1","down":"0/1"},{"branch":1,"outage":0,"up":"1/1","down":"0/1"}]}"#,
        Key::Limits,
    ),
    (
        r#"{"version":2,"kind":"farkas","energy":"1/2","limits":[{"branch":1,"outage":0,"unit":0,"up":"0/1","down":"0/1"}]}"#,
        Key::Limits,
    ),
    (
        r#"{"version":2,"kind":"farkas","energy":"1/2","limits":[{"branch":1,"outage":0,"unit":4294967296,"up":"0/1","down":"0/1"}]}"#,
        Key::Limits,
    ),
    (
        r#"{"version":2,"kind":"farkas","energy":"1/2","limits":[{"branch":1,"outage":0,"unit":3,"up":"0/1","down":"0/1"},{"branch":1,"outage":0,"unit":3,"up":"1/1","down":"0/1"}]}"#,
        Key::Limits,
    ),
    (
        r#"{"version":1,"kind":"farkas","energy":"1/2","limits":[{"branch":1,"outage":0,"unit":3,"up":"0/1","down":"0/1"}]}"#,
        Key::Limits,
    ),
    (
        r#"{"version":1,"kind":"farkas","energy":"1/2","limits":[],"x":0}"#,
        Key::Extra,
    ),
    (
        r#"{"version":1,"kind":"optimal","energy":"1/2","blocks":[],"limits":[],"x":0}"#,
        Key::Extra,
    ),
    (
        r#"{"version":1,"kind":"farkas","energy":"1/2","limits":[],"places":6}"#,
        Key::Extra,
    ),
    (
        r#"{"version":2,"kind":"farkas","energy":"1/2","places":6}"#,
        Key::Limits,
    ),
    (
        r#"{"version":2,"kind":"farkas","energy":"1/2","limits":[],"x":0}"#,
        Key::Places,
    ),
    (
        r#"{"version":2,"kind":"farkas","energy":"1/2","limits":[],"places":7}"#,
        Key::Places,
    ),
    (
        r#"{"version":2,"kind":"optimal","energy":"1/2","blocks":[],"limits":[],"places":"6"}"#,
        Key::Places,
    ),
    (
        r#"{"version":2,"kind":"optimal","energy":"1/2","blocks":[],"limits":[],"places":9,"x":0}"#,
        Key::Extra,
    ),
    (
        r#"{"version":2,"kind":"farkas","energy":"1/2","limits":[],"places":6,"reserve":{"price":"1/1","units":[]}}"#,
        Key::Extra,
    ),
    (
        r#"{"version":3,"kind":"farkas","energy":"1/2","limits":[],"reserve":0}"#,
        Key::Places,
    ),
    (
        r#"{"version":3,"kind":"farkas","energy":"1/2","limits":[],"places":6}"#,
        Key::Reserve,
    ),
    (
        r#"{"version":3,"kind":"farkas","energy":"1/2","limits":[],"places":6,"reserve":{"price":"2/2","units":[]}}"#,
        Key::Reserve,
    ),
    (
        r#"{"version":3,"kind":"farkas","energy":"1/2","limits":[],"places":6,"reserve":{"price":"1/1"}}"#,
        Key::Reserve,
    ),
    (
        r#"{"version":3,"kind":"farkas","energy":"1/2","limits":[],"places":6,"reserve":{"price":"1/1","quantities":[],"units":[]}}"#,
        Key::Reserve,
    ),
    (
        r#"{"version":3,"kind":"farkas","energy":"1/2","limits":[],"places":6,"reserve":{"price":"1/1","units":[{"dual":"1/1","unit":4294967296}]}}"#,
        Key::Reserve,
    ),
    (
        r#"{"version":3,"kind":"farkas","energy":"1/2","limits":[],"places":6,"reserve":{"price":"1/1","units":[{"dual":"1/1","unit":1,"x":0}]}}"#,
        Key::Reserve,
    ),
    (
        r#"{"version":3,"kind":"optimal","energy":"1/2","blocks":[],"limits":[],"places":6,"reserve":{"price":"1/1","units":[]}}"#,
        Key::Reserve,
    ),
    (
        r#"{"version":3,"kind":"optimal","energy":"1/2","blocks":[],"limits":[],"places":6,"reserve":{"price":"1/1","quantities":["1"],"units":[]}}"#,
        Key::Reserve,
    ),
    (
        r#"{"version":3,"kind":"optimal","energy":"1/2","blocks":[],"limits":[],"places":6,"reserve":{"price":"1/1","quantities":[],"units":[]},"x":0}"#,
        Key::Extra,
    ),
];

/// Whether a text is written anew so.
fn is_rewritten(alloc: Global, text: &str, want: &str) -> Result<bool, CertFault> {
    let cert = from_json(alloc, text.as_bytes())?;
    match to_json(alloc, &cert) {
        Ok(written) => Ok(written.as_slice() == want.as_bytes()),
        Err(Memory) => Err(CertFault::Memory),
    }
}

#[test]
fn writes_what_it_reads(rt: HostRuntime) -> Result<(), Fail> {
    for text in [OPTIMAL, FARKAS, LOST, WITH_RESERVE, SHORT] {
        assert!(rt; is_rewritten(rt.alloc(), text, text)?, "{text}");
    }
    Ok(())
}

/// Why a text is no certificate.
fn fault_of(alloc: Global, text: &str) -> Option<CertFault> {
    match from_json(alloc, text.as_bytes()) {
        Ok(_) => None,
        Err(fault) => Some(fault),
    }
}

#[test]
fn tells_the_first_fault(rt: HostRuntime) -> Result<(), Fail> {
    for (text, key) in &FAULTS {
        assert_eq!(rt;
            fault_of(rt.alloc(), text),
            Some(CertFault::Key { key: *key })
        );
    }
    Ok(())
}

/// A text of the first version, which is of six places, is written as one of the second.
#[test]
fn reads_the_greatest_and_any_order(rt: HostRuntime) -> Result<(), Fail> {
    let text = r#" {"version" : 1, "limits":[], "kind":"farkas",
        "energy":"-170141183460469231731687303715884105727/170141183460469231731687303715884105726"} "#;
    let written =
        r#"{"energy":"-170141183460469231731687303715884105727/170141183460469231731687303715884105726","kind":"farkas","limits":[],"places":6,"version":2}"#;
    assert!(rt; is_rewritten(rt.alloc(), text, written)?);
    Ok(())
}

/// The certificate of an outcome.
fn written(
    alloc: Global,
    places: FactorPlaces,
    listed: bool,
    outcome: Outcome<Frac63>,
) -> Result<Option<Vec<u8>>, Memory> {
    outcome_json(alloc, places, listed, &outcome)
}

/// Whether the certificate of an outcome is written so.
fn is_written(
    alloc: Global,
    places: FactorPlaces,
    listed: bool,
    outcome: Outcome<Frac63>,
    want: &str,
) -> Result<bool, Memory> {
    match written(alloc, places, listed, outcome)? {
        Some(written) => Ok(written.as_slice() == want.as_bytes()),
        None => Ok(false),
    }
}

/// Duals that show that no dispatch is feasible, with these of limits and of rooms.
fn infeasible(
    energy: i32,
    reserve: i32,
    limits: List<Dual<Frac63>>,
    rooms: List<RoomDual<Frac63>>,
) -> Outcome<Frac63> {
    Outcome::Infeasible(Farkas {
        duals: Duals {
            energy: Frac63::of_parts(i64::from(energy), 1),
            limits,
            reserve: Frac63::of_parts(i64::from(reserve), 1),
            rooms,
        },
        bound: Frac63::of_parts(-10, 1),
    })
}

/// The limit of branch 2 in the base.
fn one_limit(alloc: Global) -> Result<List<Dual<Frac63>>, Memory> {
    let mut limits = List::new(alloc);
    limits.push(Dual {
        row: RowId {
            branch: 2,
            outage: 0,
            unit: 0,
        },
        up: Frac63::of_parts(2, 1),
        down: Frac63::of_parts(0, 1),
    })?;
    Ok(limits)
}

/// The room of unit 3.
fn one_room(alloc: Global) -> Result<List<RoomDual<Frac63>>, Memory> {
    let mut rooms = List::new(alloc);
    rooms.push(RoomDual {
        unit: 3,
        price: Frac63::of_parts(1, 2),
    })?;
    Ok(rooms)
}

/// Whether an outcome whose numbers are too large has no certificate.
fn has_none_of_range(alloc: Global) -> Result<bool, Memory> {
    let range = Outcome::Range(Passed {
        op: Op::Plus,
        left: Frac63::of_parts(1, 1),
        right: Frac63::of_parts(2, 1),
    });
    Ok(written(alloc, FactorPlaces::Six, true, range)?.is_none())
}

#[test]
fn writes_outcomes(rt: HostRuntime) -> Result<(), Fail> {
    let alloc = rt.alloc();
    assert!(rt; has_none_of_range(alloc)?);
    let limits = one_limit(alloc)?;
    let farkas = infeasible(-1, 0, limits, List::new(alloc));
    assert!(rt; is_written(alloc, FactorPlaces::Nine, false, farkas, FARKAS)?);
    Ok(())
}

/// The outcome of reserve that is short, where it is listed.
const LISTED: &str =
    r#"{"energy":"0/1","kind":"farkas","limits":[],"places":6,"reserve":{"price":"1/1","units":[{"dual":"1/2","unit":3}]},"version":3}"#;

/// The same where it is not.
const UNLISTED: &str = r#"{"energy":"0/1","kind":"farkas","limits":[],"places":6,"version":2}"#;

/// Whether the certificate of that outcome is written so.
fn is_short(alloc: Global, listed: bool, want: &str) -> Result<bool, Memory> {
    let rooms = one_room(alloc)?;
    let farkas = infeasible(0, 1, List::new(alloc), rooms);
    is_written(alloc, FactorPlaces::Six, listed, farkas, want)
}

/// The part on reserve is written where that is listed, of any market.
#[test]
fn writes_what_is_listed(rt: HostRuntime) -> Result<(), Fail> {
    assert!(rt; is_short(rt.alloc(), true, LISTED)?);
    assert!(rt; is_short(rt.alloc(), false, UNLISTED)?);
    Ok(())
}
