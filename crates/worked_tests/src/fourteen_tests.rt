//! Tables that are made of a network too large for exact fractions, as they were made outside in fractions of any size; and which of its
//! three units of one cost is served.

use command_answers::{Status, Told, factors_told, pool_told};
use market_data::FactorPlaces;
use std::process::Abort;
use std::test::Fail;

/// The IEEE system of fourteen buses.
pub(crate) const CASE: &str = "function mpc = ieee_fourteen_bus
mpc.version = '2';
mpc.baseMVA = 100;
mpc.bus = [
1 3 0 0 0 0 1 1 0 0 1 1.06 0.94;
2 2 21.7 0 0 0 1 1 0 0 1 1.06 0.94;
3 2 94.2 0 0 0 1 1 0 0 1 1.06 0.94;
4 1 47.8 0 0 0 1 1 0 0 1 1.06 0.94;
5 1 7.6 0 0 0 1 1 0 0 1 1.06 0.94;
6 2 11.2 0 0 0 1 1 0 0 1 1.06 0.94;
7 1 0 0 0 0 1 1 0 0 1 1.06 0.94;
8 2 0 0 0 0 1 1 0 0 1 1.06 0.94;
9 1 29.5 0 0 19 1 1 0 0 1 1.06 0.94;
10 1 9 0 0 0 1 1 0 0 1 1.06 0.94;
11 1 3.5 0 0 0 1 1 0 0 1 1.06 0.94;
12 1 6.1 0 0 0 1 1 0 0 1 1.06 0.94;
13 1 13.5 0 0 0 1 1 0 0 1 1.06 0.94;
14 1 14.9 0 0 0 1 1 0 0 1 1.06 0.94;
];
mpc.gen = [
1 0 0 0 0 1 100 1 332.4 0;
2 0 0 0 0 1 100 1 140 0;
3 0 0 0 0 1 100 1 100 0;
6 0 0 0 0 1 100 1 100 0;
8 0 0 0 0 1 100 1 100 0;
];
mpc.branch = [
1 2 0 0.05917 0 70 120 120 0 0 1 -360 360;
1 5 0 0.22304 0 70 110 110 0 0 1 -360 360;
2 3 0 0.19797 0 60 70 70 0 0 1 -360 360;
2 4 0 0.17632 0 55 65 65 0 0 1 -360 360;
2 5 0 0.17388 0 45 55 55 0 0 1 -360 360;
3 4 0 0.17103 0 50 60 60 0 0 1 -360 360;
4 5 0 0.04211 0 60 75 75 0 0 1 -360 360;
4 7 0 0.20912 0 35 45 45 0.978 0 1 -360 360;
4 9 0 0.55618 0 25 30 30 0.969 0 1 -360 360;
5 6 0 0.25202 0 45 50 50 0.932 0 1 -360 360;
6 11 0 0.1989 0 15 20 20 0 0 1 -360 360;
6 12 0 0.25581 0 15 20 20 0 0 1 -360 360;
6 13 0 0.13027 0 25 30 30 0 0 1 -360 360;
7 8 0 0.17615 0 60 70 70 0 0 1 -360 360;
7 9 0 0.11001 0 30 50 50 0 0 1 -360 360;
9 10 0 0.0845 0 15 25 25 0 0 1 -360 360;
9 14 0 0.27038 0 20 25 25 0 0 1 -360 360;
10 11 0 0.19207 0 15 20 20 0 0 1 -360 360;
12 13 0 0.19988 0 10 15 15 0 0 1 -360 360;
13 14 0 0.34802 0 12 16 16 0 0 1 -360 360;
];
";

/// The factors of the first branch. They begin the table.
const FIRST_BRANCH: &str =
    "branch,bus,factor\n1,1,0\n1,2,-0.838019\n1,3,-0.746512\n1,4,-0.667457\n1,5,-0.610585\n1,6,-0.629143\n1,7,-0.657253\n1,8,-0.657253\n1,9,-0.651765\n1,10,-0.647744\n1,11,-0.638606\n1,12,-0.630931\n1,13,-0.632327\n1,14,-0.643266\n2,1,0\n";

/// The table of the factors where the first branch is lost.
const FIRST_LOST: &str =
    "branch,outage,factor\n2,1,1\n3,1,-0.168846\n4,1,-0.353359\n5,1,-0.477795\n6,1,-0.168846\n7,1,-0.493344\n8,1,-0.018225\n9,1,-0.010636\n10,1,0.028861\n11,1,0.01738\n12,1,0.002553\n13,1,0.008929\n14,1,0\n15,1,-0.018225\n16,1,-0.01738\n17,1,-0.011482\n18,1,-0.01738\n19,1,0.002553\n20,1,0.011482\n";

/// The entries of its inverse pass 127 bits, so nothing but a guess makes these.
/// Compares what is told of the tables.
fn compare(rt: &impl Abort, told: &Told) {
    assert_eq!(rt; told.status, Status::Done);
    let text = told.text.as_slice();
    assert_eq!(rt; text, b"shift records 280\noutage records 19\n".as_slice());
    let shift = told.outputs.ptdf.as_deref().unwrap_or(b"".as_slice());
    assert!(rt; shift.starts_with(FIRST_BRANCH.as_bytes()));
    let loss = told.outputs.lodf.as_deref().unwrap_or(b"".as_slice());
    assert_eq!(rt; loss, FIRST_LOST.as_bytes());
}

#[test]
fn makes_tables_of_fourteen_buses(rt: HostRuntime) -> Result<(), Fail> {
    let told = factors_told(
        rt.alloc(),
        CASE.as_bytes(),
        b"branch\n1\n",
        true,
        FactorPlaces::Six,
    )?;
    compare(&rt, &told);
    Ok(())
}

/// Of 259 MW unit 1 makes 166.2; 92.8 are left for the three units of one cost, which are served by their records.
const IN_ORDER: &str =
    "block 1 sell 1 mw 83.1\nblock 1 sell 2 mw 83.1\nblock 3 sell 1 mw 50\nblock 4 sell 1 mw 42.8\nblock 5 sell 1 mw 0\nunit 1 mw 166.2 paid 6731.1\nunit 2 mw 0 paid 0\nunit 3 mw 50 paid 2025\nunit 4 mw 42.8 paid 1733.4\nunit 5 mw 0 paid 0\nload 1 mw 0 pays 0\nload 2 mw 21.7 pays 878.85\nload 3 mw 94.2 pays 3815.1\nload 4 mw 47.8 pays 1935.9\nload 5 mw 7.6 pays 307.8\nload 6 mw 11.2 pays 453.6\nload 7 mw 0 pays 0\nload 8 mw 0 pays 0\nload 9 mw 29.5 pays 1194.75\nload 10 mw 9 pays 364.5\nload 11 mw 3.5 pays 141.75\nload 12 mw 6.1 pays 247.05\nload 13 mw 13.5 pays 546.75\nload 14 mw 14.9 pays 603.45\nsurplus 0\n";

/// The same with their records in the other order.
const TURNED: &str =
    "block 1 sell 1 mw 83.1\nblock 1 sell 2 mw 83.1\nblock 5 sell 1 mw 50\nblock 4 sell 1 mw 42.8\nblock 3 sell 1 mw 0\nunit 1 mw 166.2 paid 6731.1\nunit 2 mw 0 paid 0\nunit 3 mw 0 paid 0\nunit 4 mw 42.8 paid 1733.4\nunit 5 mw 50 paid 2025\nload 1 mw 0 pays 0\nload 2 mw 21.7 pays 878.85\nload 3 mw 94.2 pays 3815.1\nload 4 mw 47.8 pays 1935.9\nload 5 mw 7.6 pays 307.8\nload 6 mw 11.2 pays 453.6\nload 7 mw 0 pays 0\nload 8 mw 0 pays 0\nload 9 mw 29.5 pays 1194.75\nload 10 mw 9 pays 364.5\nload 11 mw 3.5 pays 141.75\nload 12 mw 6.1 pays 247.05\nload 13 mw 13.5 pays 546.75\nload 14 mw 14.9 pays 603.45\nsurplus 0\n";

#[test]
fn serves_units_of_one_cost_by_their_records(rt: HostRuntime) -> Result<(), Fail> {
    for (offers, end) in [
        (
            b"unit,side,mw,price\n1,sell,83.1,23.58\n1,sell,83.1,30.73\n3,sell,50,40.5\n4,sell,50,40.5\n5,sell,50,40.5\n",
            IN_ORDER,
        ),
        (
            b"unit,side,mw,price\n1,sell,83.1,23.58\n1,sell,83.1,30.73\n5,sell,50,40.5\n4,sell,50,40.5\n3,sell,50,40.5\n",
            TURNED,
        ),
    ] {
        let pooled = pool_told(rt.alloc(), CASE.as_bytes(), offers)?;
        assert!(rt; pooled.text.ends_with(end.as_bytes()));
    }
    Ok(())
}
