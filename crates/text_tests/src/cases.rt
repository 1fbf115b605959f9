//! `case_text`: a case that is read, and the faults of texts that are none.

use case_text::{Field, RawCase, read_case};
use std::alloc::{AllocError, Global};
use std::process::Abort;
use std::test::Fail;

/// Texts that are no cases, each behind the fault of it. In a text `$` stands for a line end, `^` for a carriage return, `!` for a tab,
/// and `#` for a first statement on a line of its own.
const FAULTS: &[u8] = b"NoVersion|
NoVersion| !^$$
NoVersion|% comment
NoVersion|;,;$
NoVersion|...$
NoVersion|\xEF\xBB\xBF
Code { line: 1 }|%{
Code { line: 2 }|$%}
Code { line: 1 }|x
Code { line: 1 }|mpc.version = '2';
Code { line: 1 }|function
Code { line: 1 }|function mpc
Code { line: 1 }|function mpc =
NoVersion|function mpc = t
NoVersion|function mpc=t
Code { line: 1 }|function$mpc = t
Code { line: 1 }|function mpc = 5
NoVersion|function mpc = t_1
Code { line: 1 }|function mpc = _t
VersionOne|function [a, b] = t
Code { line: 1 }|function[a, b] = t
VersionOne|function ...$ [a] = t
NoVersion|function ... x$ mpc ...$ = ...$t
Code { line: 1 }|function...$mpc = t
Code { line: 1 }|function mpcx = t
Code { line: 1 }|functions mpc = t
NoVersion|\xEF\xBB\xBFfunction mpc = t
Code { line: 1 }|\xEF\xBB\xBF\xEF\xBB\xBFfunction mpc = t
Code { line: 1 }|function 'mpc' = t
Code { line: 1 }|function mpc = t x
Code { line: 2 }|#function mpc = t
Missing { field: BaseMva }|function mpc = t mpc.version = '2'
Missing { field: BaseMva }|#mpc.version = '2'
Missing { field: BaseMva }|#mpc.version = \"2\"
VersionOne|#mpc.version = '1'
VersionOne|#mpc.version = \"1\";
Code { line: 2 }|#mpc.version = '1' 2
Code { line: 2 }|#mpc.version = 2
Code { line: 2 }|#mpc.version = '3'
Code { line: 2 }|#mpc.version = ['2']
Twice { field: Version }|#mpc.version = '2'$mpc.version = '2'
VersionOne|#mpc.version = '2'$mpc.version = '1'
Code { line: 2 }|#mpc.version = '2'; mpc.version = '3'
Code { line: 2 }|#mpc.version
Code { line: 2 }|#mpc.version =
Code { line: 2 }|#mpc.version = $'2'
Missing { field: BaseMva }|#mpc.version = ...$'2'
Missing { field: BaseMva }|#mpc.version ...$= '2'
Code { line: 2 }|#mpc . version = '2'
Code { line: 2 }|#mpc.1 = 2
Code { line: 2 }|#mpc. = 2
Code { line: 2 }|#mpc.a. = 2
Code { line: 2 }|#mpc = 2
Code { line: 2 }|#mpcx.a = 2
NoVersion|#mpc.a.b_1 = 2
NoVersion|#mpc.version.x = 7
Code { line: 2 }|#mpc.a = 5...
NoVersion|#mpc.a = 5 ...
Code { line: 2 }|#mpc.a = 5x
NoVersion|#mpc.a = -.5e+1
NoVersion|#mpc.a = NaN
Code { line: 2 }|#mpc.a = x
Code { line: 2 }|#mpc.a = 'b
NoVersion|#mpc.a = 'b''c';
Code { line: 2 }|#mpc.a = 5'b'
Code { line: 2 }|#mpc.a = 'b'5
Code { line: 2 }|#mpc.a = 5 6
NoVersion|#mpc.a = 5 % 6
NoVersion|#mpc.a = 5 %{
Code { line: 2 }|#mpc.a = ...$%{$5
Code { line: 3 }|#mpc.a = 5$%{$
Code { line: 2 }|#mpc.a = (5)
Code { line: 2 }|#mpc.a == 5
Code { line: 2 }|#mpc.a, = 5
NoVersion|#mpc.a = []
BadToken { at: 26 }|#mpc.a = [
BadToken { at: 29 }|#mpc.a = [1 2
NoVersion|#mpc.a = [1, 2,]
BadToken { at: 28 }|#mpc.a = [1,,2]
BadToken { at: 26 }|#mpc.a = [,1]
NoVersion|#mpc.a = [;;$;1]
BadToken { at: 28 }|#mpc.a = [1 x]
NoVersion|#mpc.a = [1 'b']
BadToken { at: 26 }|#mpc.a = ['b'1]
BadToken { at: 26 }|#mpc.a = [1'b']
BadToken { at: 26 }|#mpc.a = [1[2]]
BadToken { at: 28 }|#mpc.a = [1 [2]]
BadToken { at: 27 }|#mpc.a = [1}
NoVersion|#mpc.a = {1 [2 3] {'b'}}
BadToken { at: 29 }|#mpc.a = {[1][2]}
BadToken { at: 29 }|#mpc.a = {[1]5}
BadToken { at: 29 }|#mpc.a = {[1]'b'}
NoVersion|#mpc.a = {[1] [2]}
NoVersion|#mpc.a = {[1]...$[2]}
NoVersion|#mpc.a = {{{{{{{{1}}}}}}}}
BadToken { at: 33 }|#mpc.a = {{{{{{{{{
BadToken { at: 28 }|#mpc.a = [1 = 2]
Code { line: 3 }|#mpc.a = [1$%{$2]
BadToken { at: 26 }|#mpc.a = [x$%{$2]
BadToken { at: 26 }|#mpc.a = ['b]
Code { line: 2 }|#mpc.a = [1 2] 3
BadToken { at: 26 }|#mpc.a = [x] 3
Code { line: 2 }|#mpc.a = [1] [2]
Code { line: 2 }|#mpc.a = [1]]
NoVersion|#mpc.a = [1]%2
NoVersion|#mpc.a = { 'a % b'; 'two' }
NoVersion|#mpc.a = [1 ...$2]
Code { line: 2 }|#mpc.baseMVA = '100'
Twice { field: BaseMva }|#mpc.baseMVA = 100$mpc.baseMVA = 100
Code { line: 2 }|#mpc.baseMVA = [100]
Code { line: 2 }|#mpc.bus = 5
Code { line: 2 }|#mpc.bus = { x }
BadToken { at: 28 }|#mpc.bus = ['1']
BadToken { at: 28 }|#mpc.bus = [[1]]
Ragged { field: Bus, row: 2 }|#mpc.bus = [1 2; 3]
Ragged { field: Bus, row: 3 }|#mpc.bus = [1 2$;$3 4$5]
Code { line: 2 }|#mpc.bus = [1 2; 3] x
Narrow { field: Bus }|#mpc.bus = [1 2]
Narrow { field: Gen }|#mpc.gen = [1 2 3 4 5 6 7 8 9]
NoVersion|#mpc.gen = [1 2 3 4 5 6 7 8 9 10]
Narrow { field: Branch }|#mpc.branch = [1 2 3 4 5 6 7 8 9 10]
Twice { field: Bus }|#mpc.bus = []$mpc.bus = [1;2 3]
Missing { field: Gen }|#mpc.version='2',mpc.baseMVA=100;mpc.bus=[]$mpc.branch=[]
Missing { field: Bus }|#mpc.version='2';mpc.baseMVA=100;mpc.gen=[];mpc.branch=[]
Missing { field: Branch }|#mpc.version='2';mpc.baseMVA=100;mpc.bus=[];mpc.gen=[]
BadToken { at: 56 }|#mpc.version = '2';$mpc.branch = [$1 2 0
Code { line: 2 }|#mpc.a = Inf'
Missing { field: BaseMva }|function mpc = t^$mpc.version = '2';^$";

/// The byte that a sign of a row stands for.
fn byte_of(sign: u8) -> u8 {
    match sign {
        b'$' => b'\n',
        b'^' => b'\r',
        b'!' => b'\t',
        byte => byte,
    }
}

/// The text that a row stands for.
fn text_of_row(alloc: Global, row: &[u8]) -> Result<Vec<u8>, AllocError> {
    let mut text = Vec::new(alloc);
    for sign in row {
        if *sign == b'#' {
            text.extend_from_slice(b"function mpc = t\n")?;
        } else {
            text.push(byte_of(*sign))?;
        }
    }
    Ok(text)
}

#[test]
fn tells_faults(rt: HostRuntime) -> Result<(), Fail> {
    let mut rows = 0u64;
    for row in FAULTS.split(|byte| *byte == b'\n') {
        let mut parts = row.splitn(2, |byte| *byte == b'|');
        let (Some(wanted), Some(text)) = (parts.next(), parts.next()) else {
            panic!(&rt; "no row: {row:?}");
        };
        let text = text_of_row(rt.alloc(), text)?;
        let found = match read_case(rt.alloc(), text.as_slice()) {
            Ok(_) => format!(in rt.alloc(); "a case")?,
            Err(fault) => format!(in rt.alloc(); "{fault:?}")?,
        };
        assert_eq!(rt; found.as_bytes(), wanted, "{text:?}");
        rows = rows.wrapping_add(1);
    }
    assert_eq!(rt; rows, 128);
    Ok(())
}

/// Compares rows and cells of the case below.
fn compare(rt: &impl Abort, case: &RawCase<'_>) {
    for (field, rows, width) in [(Field::Bus, 2, 13), (Field::Gen, 0, 0)] {
        assert!(rt; case.rows(field) == rows && case.width(field) == width);
    }
    for (field, row, col, want) in [
        (Field::Bus, 1, 2, b"3".as_slice()),
        (Field::Bus, 2, 13, b"-9e-1"),
        (Field::Branch, 2, 11, b"Inf"),
        (Field::Branch, 3, 1, b""),
    ] {
        assert_eq!(rt; case.cell(field, row, col), want);
    }
}

#[test]
fn reads_a_case(rt: HostRuntime) -> Result<(), Fail> {
    let text = b"\xEF\xBB\xBF%% a case\r
function mpc = t3 % of three buses\r
mpc.version = \"2\"; mpc.baseMVA = 100, mpc.notes = 'a % b';\r
mpc.bus_name = { 'a % b'; 'two'; {'three', [3 3]} };\r
mpc.bus = [ % number type\r
1,3,\t0 0 0 0 1 1 0 230 1 1.1 0.9;\r
2 1 0 0 0 0 1 1 ... 0 and on\r
  0 230 1 1.1 -9e-1, ; ;\r
];\r
mpc.gen = []\r
mpc.gencost = [2 0 0 3 0.1 5 0];\r
mpc.branch = [1 2 0 0.2 0 0 0 0 0 0 1\r
1 2 0 0.1 0 0 0 0 0 0 Inf]\r
";
    let case = read_case(rt.alloc(), text)?;
    compare(&rt, &case);
    Ok(())
}
