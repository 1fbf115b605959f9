//! What the words of a run ask for.

ghost use Rattle.std.specs.Prelude.{◌≡◌, ◌≢◌, ◌≤◌, codes, map, string_bytes, IfOk, IfErr};
ghost use Rattle.clap.specs.Words.{first_of, found_of, rows_of};
ghost use Rattle.command_words.specs.Words.{AsksNothing, ReadsSeed, bits_of, check_names, factor_names, file_of, grid_names, market_names, places_of, rating_of, size_of};
ghost use Rattle.command_words.specs.Requests.{Asks, names_of_factors, names_of_grid, names_of_market, names_to_check, text_of_name};
ghost use Rattle.market_data.specs.Scales.{IsRingSize};

use crate::command::sced_command;
use clap::ArgMatches;
use clap::error::ErrorKind;
use market_data::FactorPlaces;
use market_tables::{GridTables, MarketTables};
use net_case::PostRating;
use number_bits::NumberBits;
use std::alloc::{AllocError, Global};

/// The numbers of buses that a ring may have.
static SIZES: [&str; 5] = ["4", "8", "16", "32", "64"];

/// The letters of the ratings of a branch.
static RATINGS: [&str; 3] = ["a", "b", "c"];

/// The numbers of places that the factors of tables may have.
static PLACES: [&str; 2] = ["6", "9"];

/// The numbers of bits that the numerators and denominators of numbers may have.
static BITS: [&str; 2] = ["127", "1023"];

/// The names of the two files that `pool` reads.
#[derive(Clone, Copy, Debug)]
pub struct PoolFiles<'a> {
    pub case: &'a str,
    pub offers: &'a str,
}

/// The names of a case and of the tables that are to fit it, where they are named.
pub type GridNames<'a> = GridTables<&'a str, Option<&'a str>>;

/// A case and the tables that are to fit it, and how many places their factors may have.
#[derive(Clone, Copy, Debug)]
pub struct CheckFiles<T, O> {
    pub tables: GridTables<T, O>,
    pub places: FactorPlaces,
}

/// The names of the files that `check` reads, where they are named, and the places of factors.
pub type CheckNames<'a> = CheckFiles<&'a str, Option<&'a str>>;

/// The files of `factors`: the case and the list of outages that it reads, the tables of shift and of outage factors that it writes, and how
/// many places their factors have.
#[derive(Clone, Copy, Debug)]
pub struct FactorFiles<T, O> {
    pub case: T,
    pub contingencies: O,
    pub ptdf_out: T,
    pub lodf_out: O,
    pub places: FactorPlaces,
}

/// The names of these files, where they are named, and the places of factors.
pub type FactorNames<'a> = FactorFiles<&'a str, Option<&'a str>>;

/// The files of a market with limits, the rating that limits a branch after an outage, how many places factors may have, and how many bits
/// numbers may have.
#[derive(Clone, Copy, Debug)]
pub struct MarketFiles<T, O> {
    pub tables: MarketTables<T, O>,
    pub rating: PostRating,
    pub places: FactorPlaces,
    pub bits: NumberBits,
}

/// The names of these files, where they are named, the rating, the places and the bits.
pub type MarketNames<'a> = MarketFiles<&'a str, Option<&'a str>>;

/// The names of the files that `clear` reads, and of the certificate that it writes, where it is
/// named.
#[derive(Clone, Copy, Debug)]
pub struct ClearFiles<'a> {
    pub market: MarketNames<'a>,
    pub certificate: Option<&'a str>,
}

/// The names of the files that `replay` reads, and of the certificate that it writes, where it is
/// named.
#[derive(Clone, Copy, Debug)]
pub struct ReplayFiles<'a> {
    pub market: MarketNames<'a>,
    pub edits: &'a str,
    pub certificate: Option<&'a str>,
}

/// The names of the files that `verify` reads, where they are named.
#[derive(Clone, Copy, Debug)]
pub struct VerifyFiles<'a> {
    pub market: MarketNames<'a>,
    pub edits: Option<&'a str>,
    pub certificate: &'a str,
}

/// The names of the files that `rights` reads, where they are named.
#[derive(Clone, Copy, Debug)]
pub struct RightsFiles<'a> {
    pub market: MarketNames<'a>,
    pub rights: &'a str,
}

/// The names of the certificate that `migrate` reads and of the file that it writes, and how many bits numbers may have.
#[derive(Clone, Copy, Debug)]
pub struct MigrateFiles<'a> {
    pub certificate: &'a str,
    pub out: &'a str,
    pub bits: NumberBits,
}

/// The ring that `make` makes: how many buses it has, of 4, 8, 16, 32 and 64, and the seed of its
/// numbers, of 32 bits.
#[derive(Clone, Copy, Debug)]
pub struct RingWords {
    pub buses: usize,
    pub seed: u64,
}

/// What the words ask for.
#[derive(Clone, Copy, Debug)]
pub enum Request<'a> {
    Pool(PoolFiles<'a>),
    Clear(ClearFiles<'a>),
    Replay(ReplayFiles<'a>),
    Verify(VerifyFiles<'a>),
    Rights(RightsFiles<'a>),
    Check(CheckNames<'a>),
    Factors(FactorNames<'a>),
    Migrate(MigrateFiles<'a>),
    Make(RingWords),
}

/// Why the words ask for nothing.
#[derive(Debug, Drop)]
pub enum WordsStop {
    /// The command refuses them: the text for the user.
    Usage(String),
    Memory,
}

/// The file that an option names.
fn named_file<'a>(matches: &ArgMatches<'a>, option: &str) -> &'a str
    ensures { result.now ≡ file_of option.now (rows_of (found_of matches.now)) }
{
    named_table(matches, option).unwrap_or("")
}

/// The file that an option names, where it is there.
fn named_table<'a>(matches: &ArgMatches<'a>, option: &str) -> Option<&'a str>
    ensures { text_of_name result ≡ first_of option.now (rows_of (found_of matches.now)) }
{
    matches.get_str(option)
}

/// The rating that its option names.
fn named_rating<'a>(matches: &ArgMatches<'a>) -> PostRating
    ensures { result ≡ rating_of (rows_of (found_of matches.now)) }
{
    match named_table(matches, "post-rating") {
        Some("a") => PostRating::A,
        Some("b") => PostRating::B,
        Some("c") => PostRating::C,
        // The command takes no other word.
        Some(_) | None => PostRating::C,
    }
}

/// The number of places that its option tells.
fn named_places<'a>(matches: &ArgMatches<'a>) -> FactorPlaces
    ensures { result ≡ places_of (rows_of (found_of matches.now)) }
{
    match named_table(matches, "factor-places") {
        Some("6") => FactorPlaces::Six,
        Some("9") => FactorPlaces::Nine,
        Some(_) | None => FactorPlaces::Six,
    }
}

/// The number of bits that its option tells.
fn named_bits<'a>(matches: &ArgMatches<'a>) -> NumberBits
    ensures { result ≡ bits_of (rows_of (found_of matches.now)) }
{
    match named_table(matches, "number-bits") {
        Some("127") => NumberBits::Bits127,
        Some("1023") => NumberBits::Bits1023,
        Some(_) | None => NumberBits::Bits127,
    }
}

/// The files that `pool` is to read.
fn pool_files<'a>(matches: &ArgMatches<'a>) -> PoolFiles<'a>
    ensures case { result.case.now ≡ file_of (codes "case") (rows_of (found_of matches.now)) }
    ensures offers { result.offers.now ≡ file_of (codes "offers") (rows_of (found_of matches.now)) }
{
    PoolFiles {
        case: named_file(matches, "case"),
        offers: named_file(matches, "offers"),
    }
}

/// The case and the tables that are to fit it.
fn grid_files<'a>(matches: &ArgMatches<'a>) -> GridNames<'a>
    ensures { names_of_grid result ≡ grid_names (rows_of (found_of matches.now)) }
{
    GridTables {
        case: named_file(matches, "case"),
        ptdf: named_file(matches, "ptdf"),
        lodf: named_table(matches, "lodf"),
        contingencies: named_table(matches, "contingencies"),
    }
}

/// The files that `check` is to read.
fn check_files<'a>(matches: &ArgMatches<'a>) -> CheckNames<'a>
    ensures { names_to_check result ≡ check_names (rows_of (found_of matches.now)) }
{
    CheckFiles {
        tables: grid_files(matches),
        places: named_places(matches),
    }
}

/// The files that `factors` is to read and to write.
fn factor_files<'a>(matches: &ArgMatches<'a>) -> FactorNames<'a>
    ensures { names_of_factors result ≡ factor_names (rows_of (found_of matches.now)) }
{
    FactorFiles {
        case: named_file(matches, "case"),
        contingencies: named_table(matches, "contingencies"),
        ptdf_out: named_file(matches, "ptdf-out"),
        lodf_out: named_table(matches, "lodf-out"),
        places: named_places(matches),
    }
}

/// The files of the market.
fn market_files<'a>(matches: &ArgMatches<'a>) -> MarketNames<'a>
    ensures { names_of_market result ≡ market_names (rows_of (found_of matches.now)) }
{
    MarketFiles {
        tables: MarketTables {
            grid: grid_files(matches),
            unit_outages: named_table(matches, "unit-outages"),
            offers: named_file(matches, "offers"),
            reserves: named_table(matches, "reserves"),
            offsets: named_table(matches, "offsets"),
            penalties: named_table(matches, "penalties"),
        },
        rating: named_rating(matches),
        places: named_places(matches),
        bits: named_bits(matches),
    }
}

/// The files that `clear` is to read and to write.
fn clear_files<'a>(matches: &ArgMatches<'a>) -> ClearFiles<'a>
    ensures market { names_of_market result.market ≡ market_names (rows_of (found_of matches.now)) }
    ensures certificate { text_of_name result.certificate ≡ first_of (codes "certificate") (rows_of (found_of matches.now)) }
{
    ClearFiles {
        market: market_files(matches),
        certificate: named_table(matches, "certificate"),
    }
}

/// The files that `replay` is to read and to write.
fn replay_files<'a>(matches: &ArgMatches<'a>) -> ReplayFiles<'a>
    ensures market { names_of_market result.market ≡ market_names (rows_of (found_of matches.now)) }
    ensures edits { result.edits.now ≡ file_of (codes "edits") (rows_of (found_of matches.now)) }
    ensures certificate { text_of_name result.certificate ≡ first_of (codes "certificate") (rows_of (found_of matches.now)) }
{
    ReplayFiles {
        market: market_files(matches),
        edits: named_file(matches, "edits"),
        certificate: named_table(matches, "certificate"),
    }
}

/// The files that `verify` is to read.
fn verify_files<'a>(matches: &ArgMatches<'a>) -> VerifyFiles<'a>
    ensures market { names_of_market result.market ≡ market_names (rows_of (found_of matches.now)) }
    ensures edits { text_of_name result.edits ≡ first_of (codes "edits") (rows_of (found_of matches.now)) }
    ensures certificate { result.certificate.now ≡ file_of (codes "certificate") (rows_of (found_of matches.now)) }
{
    VerifyFiles {
        market: market_files(matches),
        edits: named_table(matches, "edits"),
        certificate: named_file(matches, "certificate"),
    }
}

/// The files that `rights` is to read.
fn rights_files<'a>(matches: &ArgMatches<'a>) -> RightsFiles<'a>
    ensures market { names_of_market result.market ≡ market_names (rows_of (found_of matches.now)) }
    ensures rights { result.rights.now ≡ file_of (codes "rights") (rows_of (found_of matches.now)) }
{
    RightsFiles {
        market: market_files(matches),
        rights: named_file(matches, "rights"),
    }
}

/// The files that `migrate` is to read and to write, and the bits of numbers.
fn migrate_files<'a>(matches: &ArgMatches<'a>) -> MigrateFiles<'a>
    ensures certificate { result.certificate.now ≡ file_of (codes "certificate") (rows_of (found_of matches.now)) }
    ensures out { result.out.now ≡ file_of (codes "out") (rows_of (found_of matches.now)) }
    ensures bits { result.bits ≡ bits_of (rows_of (found_of matches.now)) }
{
    MigrateFiles {
        certificate: named_file(matches, "certificate"),
        out: named_file(matches, "out"),
        bits: named_bits(matches),
    }
}

/// The number of buses that is given.
fn named_size(matches: &ArgMatches<'_>) -> usize
    ensures given { result ≡ size_of (rows_of (found_of matches.now)) }
    ensures ring { IsRingSize result }
{
    match named_table(matches, "N") {
        Some("8") => 8,
        Some("16") => 16,
        Some("32") => 32,
        Some("64") => 64,
        _ => 4,
    }
}

/// The seed that is given.
fn named_seed(matches: &ArgMatches<'_>) -> u64
    ensures given { ReadsSeed (rows_of (found_of matches.now)) result }
    ensures small { result ≤ 4294967295 }
{
    match matches.get_one::<u32>("SEED") {
        Some(seed) => u64::from(seed),
        None => 0,
    }
}

/// The ring that is to be made.
fn ring_words(matches: &ArgMatches<'_>) -> RingWords
    ensures buses { result.buses ≡ size_of (rows_of (found_of matches.now)) }
    ensures seed { ReadsSeed (rows_of (found_of matches.now)) result.seed }
    ensures ring { IsRingSize result.buses }
    ensures small { result.seed ≤ 4294967295 }
{
    RingWords {
        buses: named_size(matches),
        seed: named_seed(matches),
    }
}

/// Why the words ask for nothing, by the kind of the command's error and the text of it.
fn stop_of(kind: ErrorKind, text: Result<String, AllocError>) -> WordsStop
    ensures usage { kind ≢ ErrorKind.OutOfMemory → IfOk text (λ told. result ≡ WordsStop.Usage told) }
    ensures memory { kind ≡ ErrorKind.OutOfMemory → result ≡ WordsStop.Memory }
    ensures untold { IfErr text (λ _. result ≡ WordsStop.Memory) }
{
    match (kind, text) {
        (ErrorKind::OutOfMemory, _) | (_, Err(_)) => WordsStop::Memory,
        (_, Ok(text)) => WordsStop::Usage(text),
    }
}

/// What the words ask for, or the text that says how the program is used.
pub fn request_of<'a>(alloc: Global, words: &'a [String]) -> Result<Request<'a>, WordsStop>
    ensures asked { IfOk result (Asks (map string_bytes words.entry.now)) }
    ensures refused { IfErr result (λ stop. stop ≢ WordsStop.Memory → AsksNothing (map string_bytes words.entry.now)) }
{
    let command = match sced_command(
        alloc,
        SIZES.as_slice(),
        RATINGS.as_slice(),
        PLACES.as_slice(),
        BITS.as_slice(),
    ) {
        Ok(command) => command,
        Err(_) => return Err(WordsStop::Memory),
    };
    match command.try_get_matches_from(words) {
        Ok(matches) => {
            let (name, inner) = matches.subcommand().unwrap();
            match name {
                "pool" => Ok(Request::Pool(pool_files(inner))),
                "clear" => Ok(Request::Clear(clear_files(inner))),
                "replay" => Ok(Request::Replay(replay_files(inner))),
                "verify" => Ok(Request::Verify(verify_files(inner))),
                "rights" => Ok(Request::Rights(rights_files(inner))),
                "check" => Ok(Request::Check(check_files(inner))),
                "factors" => Ok(Request::Factors(factor_files(inner))),
                "migrate" => Ok(Request::Migrate(migrate_files(inner))),
                _ => Ok(Request::Make(ring_words(inner))),
            }
        }
        Err(error) => Err(stop_of(error.kind(), error.to_string(alloc))),
    }
}
