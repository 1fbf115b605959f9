//! The five-bus system of PJM's training, after F. Li and R. Bo: its files, its report, whose prices are the published ones, a replay
//! with a negative price, and one in which nothing is feasible. These are the texts of `examples/pjm_five_bus`.

use crate::tells::tells;
use command_answers::{Status, clear_told, replay_told};
use market_data::FactorPlaces;
use market_tables::{GridTables, MarketTables};
use net_case::PostRating;
use number_bits::NumberBits;
use std::test::Fail;

const CASE: &[u8] = b"function mpc = pjm_five_bus
% PJM five-bus training system, DC data.
% Buses: 1 A, 2 B, 3 C, 4 D (reference), 5 E. Values as in MATPOWER's case5.
mpc.version = '2';
mpc.baseMVA = 100;
% bus_i type Pd Qd Gs Bs area Vm Va baseKV zone Vmax Vmin
mpc.bus = [
    1  2  0    0  0  0  1  1  0  230  1  1.1  0.9;
    2  1  300  0  0  0  1  1  0  230  1  1.1  0.9;
    3  2  300  0  0  0  1  1  0  230  1  1.1  0.9;
    4  3  400  0  0  0  1  1  0  230  1  1.1  0.9;
    5  2  0    0  0  0  1  1  0  230  1  1.1  0.9;
];
% bus Pg Qg Qmax Qmin Vg mBase status Pmax Pmin
mpc.gen = [
    1  0  0  0  0  1  100  1  40   0;  % 1 Alta
    1  0  0  0  0  1  100  1  170  0;  % 2 Park City
    3  0  0  0  0  1  100  1  520  0;  % 3 Solitude
    4  0  0  0  0  1  100  1  200  0;  % 4 Sundance
    5  0  0  0  0  1  100  1  600  0;  % 5 Brighton
];
% fbus tbus r x b rateA rateB rateC ratio angle status angmin angmax
mpc.branch = [
    1  2  0  0.0281  0  400  400  400  0  0  1  -360  360;  % 1 A-B
    1  4  0  0.0304  0  0    0    0    0  0  1  -360  360;  % 2 A-D
    1  5  0  0.0064  0  0    0    0    0  0  1  -360  360;  % 3 A-E
    2  3  0  0.0108  0  0    0    0    0  0  1  -360  360;  % 4 B-C
    3  4  0  0.0297  0  0    0    0    0  0  1  -360  360;  % 5 C-D
    4  5  0  0.0297  0  240  240  240  0  0  1  -360  360;  % 6 D-E
];
";

const PTDF: &[u8] = b"branch,bus,factor
1,1,0.193917
1,2,-0.475895
1,3,-0.348989
1,5,0.159538
2,1,0.437588
2,2,0.258343
2,3,0.189451
2,5,0.36001
3,1,0.368495
3,2,0.217552
3,3,0.159538
3,5,-0.519548
4,1,0.193917
4,2,0.524105
4,3,-0.348989
4,5,0.159538
5,1,0.193917
5,2,0.524105
5,3,0.651011
5,5,0.159538
6,1,-0.368495
6,2,-0.217552
6,3,-0.159538
6,5,-0.480452
";

const OFFERS: &[u8] = b"unit,side,mw,price
1,sell,40,14
2,sell,170,15
3,sell,520,30
4,sell,200,40
5,sell,600,10
";

const REPORT: &[u8] = b"cleared
welfare -17479.897231033859538:111134/160457
energy 39.942726:14218/160457
bus 1 price 16.977383:55969/160457 congestion -22.965342:118706/160457
bus 2 price 26.384451:13263/14587 congestion -13.558274:28782/160457
bus 3 price 30 congestion -9.942726:14218/160457
bus 4 price 39.942726:14218/160457 congestion 0
bus 5 price 10 congestion -29.942726:14218/160457
block 1 sell 1 mw 40
block 2 sell 1 mw 170
block 3 sell 1 mw 323.494861551:111193/160457
block 4 sell 1 mw 0
block 5 sell 1 mw 466.505138448:49264/160457
limit 6 base flow -240 up 0 down 62.321992:129656/160457 rent 14957.278273930087188:75084/160457
unit 1 mw 40 paid 679.095333952398461:143323/160457
unit 2 mw 170 paid 2886.155169297693463:7409/160457
unit 3 mw 323.494861551:111193/160457 paid 9704.845846550789308:6244/160457
unit 4 mw 0 paid 0
unit 5 mw 466.505138448:49264/160457 paid 4665.051384483070230:104890/160457
load 1 mw 0 pays 0
load 2 mw 300 pays 7915.335572770274902:4526/14587
load 3 mw 300 pays 9000
load 4 mw 400 pays 15977.090435443763749:126707/160457
load 5 mw 0 pays 0
surplus 14957.278273930087188:75084/160457
";

const EDITS: &[u8] = b"op,target,side,block,value
price,5,sell,1,-20
limit,1,base,,200
clear,,,,
";

const REPLAY: &[u8] = b"step 1 edit accepted
step 2 edit accepted
step 3 clear
cleared
welfare -353.216250071284317:128941/508527
energy -4.313713:469249/508527
bus 1 price -23.380253:82669/508527 congestion -19.066539:40649/169509
bus 2 price 42.477803:91273/169509 congestion 46.791517:234541/508527
bus 3 price 30 congestion 34.313713:469249/508527
bus 4 price -4.313713:469249/508527 congestion 0
bus 5 price -20 congestion -15.686286:39278/508527
block 1 sell 1 mw 0
block 2 sell 1 mw 0
block 3 sell 1 mw 407.064325001:216473/508527
block 4 sell 1 mw 0
block 5 sell 1 mw 592.935674998:292054/508527
limit 1 base flow 200 up 98.323196:107708/508527 down 0 rent 19664.639242360779270:164710/508527
unit 1 mw 0 paid 0
unit 2 mw 0 paid 0
unit 3 mw 407.064325001:216473/508527 paid 12211.929750042770590:59690/169509
unit 4 mw 0 paid 0
unit 5 mw 592.935674998:292054/508527 paid -11858.713499971486273:50129/508527
load 1 mw 0 pays 0
load 2 mw 300 pays 12743.341061536555581:6757/56503
load 3 mw 300 pays 9000
load 4 mw 400 pays -1725.485569104491993:275689/508527
load 5 mw 0 pays 0
surplus 19664.639242360779270:164710/508527
";

const NARROW: &[u8] = b"op,target,side,block,value
limit,6,base,,60
clear,,,,
";

const INFEASIBLE: &[u8] = b"step 1 edit accepted
step 2 clear
infeasible
bound -43.393200569:55703/120113
energy 1
limit 6 base up 0 down 2:9774/120113
";

#[test]
fn clears_five_buses(rt: HostRuntime) -> Result<(), Fail> {
    let alloc = rt.alloc();
    let grid = GridTables {
        case: CASE,
        ptdf: PTDF,
        lodf: b"branch,outage,factor\n".as_slice(),
        contingencies: b"branch\n".as_slice(),
    };
    let bytes = MarketTables {
        grid,
        unit_outages: b"unit,taker,share\n".as_slice(),
        offers: OFFERS,
        reserves: b"kind,unit,mw,price\n".as_slice(),
        offsets: b"branch,mw\n".as_slice(),
        penalties: b"branch,limit,price,excess\n".as_slice(),
    };
    let cleared = clear_told(
        alloc,
        &bytes,
        PostRating::C,
        FactorPlaces::Six,
        NumberBits::Bits127,
    )?;
    assert!(rt; tells(cleared, Status::Done, REPORT));
    for (edits, status, text) in [
        (EDITS, Status::Done, REPLAY),
        (NARROW, Status::Infeasible, INFEASIBLE),
    ] {
        let replayed = replay_told(
            alloc,
            &bytes,
            PostRating::C,
            FactorPlaces::Six,
            edits,
            NumberBits::Bits127,
        )?;
        assert!(rt; tells(replayed, status, text));
    }
    Ok(())
}
