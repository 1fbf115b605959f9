//! `limb_number` and `limb_division`: worked numbers of several limbs, with values from another program.

use limb_division::{common_divisor, divide};
use limb_number::{add, divide_short, multiply, subtract_multiple};

/// A number of four limbs.
const LONG: [u64; 4] = [
    4712128852136459333,
    6613812840851947673,
    12736496262939004471,
    15523137368101252074,
];

/// A number of three.
const SHORT: [u64; 3] = [12027861843233603113, 9777509567454608800, 2];

/// A number of one.
const FACTOR: u64 = 8589221953160678911;

#[test]
fn sums_and_products(rt: HostRuntime) {
    let mut product = [7; 8];
    multiply(&LONG, &SHORT, &mut product);
    assert_eq!(rt;
        product,
        [
            14590006241017421069,
            4641081496497338026,
            2039529461145575408,
            15889697346362988197,
            14490568507861509337,
            2380668079796052916,
            2,
            0
        ]
    );
    let mut rest = SHORT;
    assert_eq!(rt; subtract_multiple(&mut rest, &SHORT, FACTOR), 2);
    assert_eq!(rt;
        rest,
        [
            12815216698548600402,
            13855320050530958199,
            15162414276240674351
        ]
    );
    let mut sum = [u64::MAX; 4];
    assert!(rt; add(&mut sum, &[1]));
    assert_eq!(rt; sum, [0; 4]);
}

#[test]
fn quotients(rt: HostRuntime) {
    let mut quotient = LONG;
    assert_eq!(rt; divide_short(&mut quotient, FACTOR), 1406547640733030561);
    assert_eq!(rt;
        quotient,
        [
            14419135450083026012,
            6260845176343135147,
            14891705417053569710,
            1
        ]
    );
    let mut rest = LONG;
    divide(&mut rest, &SHORT, &mut quotient);
    assert_eq!(rt; quotient, [9838753690193550796, 6135530763661882043, 0, 0]);
    assert_eq!(rt; rest, [3369038469080452761, 9888705204321104495, 0, 0]);
}

/// Quotients whose only digit is guessed too great at first, so that the divisor is added back.
#[test]
fn quotients_by_less_than_their_guess(rt: HostRuntime) {
    let mut quotient = [7; 3];
    let mut rest = [0, u64::MAX - 1, 1 << 63];
    divide(&mut rest, &[u64::MAX, 1 << 63], &mut quotient);
    assert_eq!(rt; quotient, [u64::MAX, 0, 0]);
    assert_eq!(rt; rest, [u64::MAX, (1 << 63) - 1, 0]);
    let mut rest = [3, 0, 1 << 63];
    divide(&mut rest, &[1, 0, 1 << 61], &mut quotient);
    assert_eq!(rt; quotient, [3, 0, 0]);
    assert_eq!(rt; rest, [0, 0, 1 << 61]);
}

/// The numbers of Fibonacci at 720 and at 600 share the one at 120 (Lucas 1876).
#[test]
fn shares_a_number_of_fibonacci(rt: HostRuntime) {
    let mut first = [
        3575784222804384192,
        14189009260982764333,
        894738882582669598,
        1471942844284806880,
        18424361148574677701,
        9528138032211275851,
        8985235402409794091,
        1820446500474439,
    ];
    let mut second = [
        1317549726222168096,
        3543178045047195533,
        10613379879131013057,
        3737542529127836775,
        14807305422365646352,
        5594375324773079287,
        2802727100,
        0,
    ];
    let mut quotient = [0; 8];
    common_divisor(&mut first, &mut second, &mut quotient);
    assert_eq!(rt; first, [4376692037216111008, 290477, 0, 0, 0, 0, 0, 0]);
}
