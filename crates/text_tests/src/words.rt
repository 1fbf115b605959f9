//! `command_words`: what words ask for, and how each text of help and usage begins.

use command_words::{WordsStop, request_of};
use std::alloc::Global;
use std::test::Fail;

/// What words ask for, or the text that says how the program is used.
fn told_whole(alloc: Global, line: &str) -> Result<String, Fail> {
    let mut words = Vec::new(alloc);
    for word in line.split(' ') {
        words.push(String::from_str(alloc, word)?)?;
    }
    match request_of(alloc, words.as_slice()) {
        Ok(request) => Ok(format!(in alloc; "{request:?}")?),
        Err(WordsStop::Usage(text)) => Ok(text),
        Err(WordsStop::Memory) => Ok(String::from_str(alloc, "memory")?),
    }
}

/// What words ask for, or the first line of the text that says how the program is used.
fn told(alloc: Global, line: &str) -> Result<String, Fail> {
    let text = told_whole(alloc, line)?;
    let first = text.lines().next().unwrap_or("");
    Ok(String::from_str(alloc, first)?)
}

const TABLE: [(&str, &str); 50] = [
    (
        "sced pool --case n.m --offers o.csv",
        "Pool(PoolFiles { case: \"n.m\", offers: \"o.csv\" })",
    ),
    (
        "sced clear --case n.m --ptdf p --offers o --lodf l --contingencies k --unit-outages u --reserves v --offsets s --penalties w --post-rating b --factor-places 9 --number-bits 1023",
        "Clear(ClearFiles { market: MarketFiles { tables: MarketTables { grid: GridTables { case: \"n.m\", ptdf: \"p\", lodf: Some(\"l\"), contingencies: Some(\"k\") }, unit_outages: Some(\"u\"), offers: \"o\", reserves: Some(\"v\"), offsets: Some(\"s\"), penalties: Some(\"w\") }, rating: B, places: Nine, bits: Bits1023 }, certificate: None })",
    ),
    (
        "sced clear --post-rating=a --offers=o --ptdf=p --case=n.m",
        "Clear(ClearFiles { market: MarketFiles { tables: MarketTables { grid: GridTables { case: \"n.m\", ptdf: \"p\", lodf: None, contingencies: None }, unit_outages: None, offers: \"o\", reserves: None, offsets: None, penalties: None }, rating: A, places: Six, bits: Bits127 }, certificate: None })",
    ),
    (
        "sced clear --case n.m --ptdf p --offers o --certificate x",
        "Clear(ClearFiles { market: MarketFiles { tables: MarketTables { grid: GridTables { case: \"n.m\", ptdf: \"p\", lodf: None, contingencies: None }, unit_outages: None, offers: \"o\", reserves: None, offsets: None, penalties: None }, rating: C, places: Six, bits: Bits127 }, certificate: Some(\"x\") })",
    ),
    (
        "sced replay --case n.m --ptdf p --offers o --reserves v --edits e --certificate x --lodf l",
        "Replay(ReplayFiles { market: MarketFiles { tables: MarketTables { grid: GridTables { case: \"n.m\", ptdf: \"p\", lodf: Some(\"l\"), contingencies: None }, unit_outages: None, offers: \"o\", reserves: Some(\"v\"), offsets: None, penalties: None }, rating: C, places: Six, bits: Bits127 }, edits: \"e\", certificate: Some(\"x\") })",
    ),
    (
        "sced verify --case n.m --ptdf p --offers o --reserves=v --certificate x --post-rating b",
        "Verify(VerifyFiles { market: MarketFiles { tables: MarketTables { grid: GridTables { case: \"n.m\", ptdf: \"p\", lodf: None, contingencies: None }, unit_outages: None, offers: \"o\", reserves: Some(\"v\"), offsets: None, penalties: None }, rating: B, places: Six, bits: Bits127 }, edits: None, certificate: \"x\" })",
    ),
    (
        "sced verify --case n.m --ptdf p --offers o --certificate x --edits e",
        "Verify(VerifyFiles { market: MarketFiles { tables: MarketTables { grid: GridTables { case: \"n.m\", ptdf: \"p\", lodf: None, contingencies: None }, unit_outages: None, offers: \"o\", reserves: None, offsets: None, penalties: None }, rating: C, places: Six, bits: Bits127 }, edits: Some(\"e\"), certificate: \"x\" })",
    ),
    (
        "sced check --case n.m --ptdf p --lodf l",
        "Check(CheckFiles { tables: GridTables { case: \"n.m\", ptdf: \"p\", lodf: Some(\"l\"), contingencies: None }, places: Six })",
    ),
    (
        "sced check --case n.m --ptdf p --factor-places=9",
        "Check(CheckFiles { tables: GridTables { case: \"n.m\", ptdf: \"p\", lodf: None, contingencies: None }, places: Nine })",
    ),
    (
        "sced rights --case n.m --ptdf p --offers o --reserves v --rights r",
        "Rights(RightsFiles { market: MarketFiles { tables: MarketTables { grid: GridTables { case: \"n.m\", ptdf: \"p\", lodf: None, contingencies: None }, unit_outages: None, offers: \"o\", reserves: Some(\"v\"), offsets: None, penalties: None }, rating: C, places: Six, bits: Bits127 }, rights: \"r\" })",
    ),
    (
        "sced migrate --certificate a --out b",
        "Migrate(MigrateFiles { certificate: \"a\", out: \"b\", bits: Bits127 })",
    ),
    (
        "sced migrate --number-bits=1023 --certificate a --out b",
        "Migrate(MigrateFiles { certificate: \"a\", out: \"b\", bits: Bits1023 })",
    ),
    (
        "sced verify --case n.m --ptdf p --offers o --certificate x --number-bits 128",
        "error: invalid value '128' for '--number-bits <BITS>'",
    ),
    (
        "sced factors --case n.m --ptdf-out p",
        "Factors(FactorFiles { case: \"n.m\", contingencies: None, ptdf_out: \"p\", lodf_out: None, places: Six })",
    ),
    (
        "sced factors --case n.m --contingencies k --lodf-out l --ptdf-out p --factor-places 9",
        "Factors(FactorFiles { case: \"n.m\", contingencies: Some(\"k\"), ptdf_out: \"p\", lodf_out: Some(\"l\"), places: Nine })",
    ),
    (
        "sced factors --case n.m --lodf-out l",
        "error: the following required arguments were not provided:",
    ),
    (
        "sced factors --case n.m --ptdf p",
        "error: unexpected argument '--ptdf' found",
    ),
    (
        "sced migrate --certificate a",
        "error: the following required arguments were not provided:",
    ),
    (
        "sced rights --case n.m --ptdf p --offers o --rights r --certificate x",
        "error: unexpected argument '--certificate' found",
    ),
    (
        "sced check --case n.m --ptdf p --factor-places 7",
        "error: invalid value '7' for '--factor-places <PLACES>'",
    ),
    ("sced make 4 7", "Make(RingWords { buses: 4, seed: 7 })"),
    (
        "sced make 64 4294967295",
        "Make(RingWords { buses: 64, seed: 4294967295 })",
    ),
    (
        "sced make 16 +007",
        "Make(RingWords { buses: 16, seed: 7 })",
    ),
    ("sced make -- 8 -0", "Make(RingWords { buses: 8, seed: 0 })"),
    ("sced make 5 7", "error: invalid value '5' for '<N>'"),
    (
        "sced make 4 4294967296",
        "error: invalid value '4294967296' for '<SEED>': 4294967296 is not in 0..=4294967295",
    ),
    ("sced make 4 -1", "error: unexpected argument '-1' found"),
    (
        "sced make 4 1e3",
        "error: invalid value '1e3' for '<SEED>': invalid digit found in string",
    ),
    (
        "sced make 4",
        "error: the following required arguments were not provided:",
    ),
    (
        "sced replay --case n.m --ptdf p --offers o",
        "error: the following required arguments were not provided:",
    ),
    (
        "sced verify --case n.m --ptdf p --offers o --edits e",
        "error: the following required arguments were not provided:",
    ),
    (
        "sced clear --case n.m --ptdf p --offers o --edits e",
        "error: unexpected argument '--edits' found",
    ),
    (
        "sced clear --case n.m --ptdf p",
        "error: the following required arguments were not provided:",
    ),
    (
        "sced clear --case n.m --ptdf p --offers o --post-rating d",
        "error: invalid value 'd' for '--post-rating <RATING>'",
    ),
    (
        "sced clear --case n.m --ptdf p --offers o --lodf l --lodf l",
        "error: the argument '--lodf <FILE>' cannot be used multiple times",
    ),
    (
        "sced pool --case n.m --offers o --ptdf p",
        "error: unexpected argument '--ptdf' found",
    ),
    (
        "sced pool --case n.m --offers o --reserves v",
        "error: unexpected argument '--reserves' found",
    ),
    (
        "sced clear --case n.m --ptdf p --offers o --reserves v --reserves v",
        "error: the argument '--reserves <FILE>' cannot be used multiple times",
    ),
    (
        "sced",
        "error: 'sced' requires a subcommand but one was not provided",
    ),
    (
        "sced --help",
        "Clears the market of one interval of an electricity network",
    ),
    (
        "sced --version",
        "sced rattle-kit-13f logic dac8208d650f15bf",
    ),
    (
        "sced pool --help",
        "Clears the market as if no branch had a limit",
    ),
    (
        "sced clear --help",
        "Clears the market within the limits of the branches, before and after outages",
    ),
    (
        "sced replay --help",
        "Edits the market step by step, and clears it where a step says so",
    ),
    (
        "sced verify --help",
        "Tells whether a certificate holds for the market",
    ),
    (
        "sced rights --help",
        "Clears the market, and tells whether transmission rights fit and what they are paid",
    ),
    (
        "sced migrate --help",
        "Writes a certificate anew, in the version of today",
    ),
    (
        "sced check --help",
        "Tells by how much the tables of factors miss the laws of the network",
    ),
    (
        "sced factors --help",
        "Makes tables of shift and outage factors",
    ),
    (
        "sced make --help",
        "Makes a market of buses in a ring, clears it and sums it up",
    ),
];

#[test]
fn words_are_read(rt: HostRuntime) -> Result<(), Fail> {
    for (line, want) in TABLE {
        assert_eq!(rt; told(rt.alloc(), line)?.as_str(), want, "{line}");
    }
    Ok(())
}

/// Help tells the statuses at its end.
#[test]
fn help_tells_the_statuses(rt: HostRuntime) -> Result<(), Fail> {
    let help = told_whole(rt.alloc(), "sced --help")?;
    assert!(rt; help.contains("4 range"), "{help}");
    Ok(())
}

/// The help of each command that reads a market tells of the table of reserve.
#[test]
fn help_tells_of_reserve(rt: HostRuntime) -> Result<(), Fail> {
    for line in [
        "sced clear --help",
        "sced replay --help",
        "sced verify --help",
        "sced rights --help",
    ] {
        let help = told_whole(rt.alloc(), line)?;
        assert!(rt; help.contains("--reserves <FILE>"), "{line}");
    }
    Ok(())
}
