//! The command that the words of a run are read by.

ghost use Rattle.std.specs.Prelude.{◌≡◌, false, fold, IfOk, codes, pos};
ghost use Rattle.clap.specs.Words.{App, app_of, new_app, rule_of, with_subcommand};
ghost use Rattle.clap.specs.declared.builder.command.Command.TheViews.{out-Command as fields_of};
ghost use Rattle.clap.specs.declared.builder.value_parser.ValueParser.TheVariants.{Names, Signed};
ghost use Rattle.command_words.specs.Words.{check_app, choice_rule, clear_app, factors_app, file_rule, make_app, migrate_app, needs_subcommand, pool_app, replay_app, rights_app, sced_app_over, table_rule, value_rule, verify_app, with_bits, with_file, with_market, with_places, with_table};

use clap::{Arg, Command, value_parser};
use std::alloc::{AllocError, Global};

const CASE: &str = "The network: a case in the form of MATPOWER";

const OFFERS: &str = "The table of what the units offer and bid";

const RESERVES: &str = "The table of what the units offer of spinning reserve, and of the need";

const PTDF: &str = "The table of shift factors";

const LODF: &str = "The table of outage factors";

const CONTINGENCIES: &str = "The list of the branches whose loss the market is to stand";

const UNIT_OUTAGES: &str = "The table of the units whose loss the market is to stand";

const OFFSETS: &str = "The table of the flows that phase shift angles cause";

const PENALTIES: &str = "The table of the limits that give way, and of what that costs";

const POST_RATING: &str = "The rating of a branch after an outage; c where this is left out";

const PLACES: &str = "How many decimal places factors may have; 6 where this is left out";

const BITS: &str =
    "How many bits the numerators and denominators of numbers may have; 127 where this is left out";

const RIGHTS: &str = "The table of transmission rights";

const EDITS: &str = "The table of edits of the market";

const PTDF_OUT: &str = "The file that the table of shift factors is written to";

const LODF_OUT: &str = "The file that the table of outage factors is written to";

const WRITTEN: &str = "The file that the certificate of the last clear is written to";

const READ: &str = "The certificate that is verified";

const MIGRATED: &str = "The certificate that is written anew";

const OUT: &str = "The file that it is written to";

/// The files of a market with limits that must be there.
const MARKET_FILES: [(&str, &str); 3] = [("case", CASE), ("ptdf", PTDF), ("offers", OFFERS)];

/// Those that may be there.
const MARKET_TABLES: [(&str, &str); 6] = [
    ("lodf", LODF),
    ("contingencies", CONTINGENCIES),
    ("unit-outages", UNIT_OUTAGES),
    ("reserves", RESERVES),
    ("offsets", OFFSETS),
    ("penalties", PENALTIES),
];

/// The files of `check` that must be there.
const CHECKED_FILES: [(&str, &str); 2] = [("case", CASE), ("ptdf", PTDF)];

/// Those that may be there.
const CHECKED_TABLES: [(&str, &str); 2] = [("lodf", LODF), ("contingencies", CONTINGENCIES)];

/// The files of `factors` that must be there.
const FACTOR_FILES: [(&str, &str); 2] = [("case", CASE), ("ptdf-out", PTDF_OUT)];

/// Those that may be there.
const FACTOR_TABLES: [(&str, &str); 2] = [("lodf-out", LODF_OUT), ("contingencies", CONTINGENCIES)];

/// The kit that proves and builds the program, as `rt version` prints it.
const VERSION: &str = "rattle-kit-13f logic dac8208d650f15bf";

const STATUSES: &str =
    "Statuses: 0 done, 1 usage, 2 a file is refused, 3 infeasible, 4 range, 5 a read failed, 6 a write failed, 7 no memory, 8 `no`, beyond rounding, or rights that do not fit";

const SIZE: &str = "How many buses the ring has";

const SEED: &str = "The seed of the ring's numbers, from 0 to 4294967295";

/// An option that takes a value, which help calls by this name.
fn named_option<'a>(alloc: Global, name: &'a str, value: &'a str, help: &'a str) -> Arg<'a>
    ensures rule { rule_of result ≡ table_rule name.entry.now }
    ensures local { result.global ≡ false }
{
    Arg::new(alloc, name)
        .long(name)
        .value_name(value)
        .help(help)
}

/// An option that names a file, where it is there.
fn table_option<'a>(alloc: Global, name: &'a str, help: &'a str) -> Arg<'a>
    ensures rule { rule_of result ≡ table_rule name.entry.now }
    ensures local { result.global ≡ false }
{
    named_option(alloc, name, "FILE", help)
}

/// An option that names a file, and must be there.
fn file_option<'a>(alloc: Global, name: &'a str, help: &'a str) -> Arg<'a>
    ensures rule { rule_of result ≡ file_rule name.entry.now }
    ensures local { result.global ≡ false }
{
    table_option(alloc, name, help).required(true)
}

/// An option that takes one of these words.
fn choice_option<'a>(
    alloc: Global,
    name: &'a str,
    value: &'a str,
    help: &'a str,
    choices: &'a [&'a str],
) -> Arg<'a>
    ensures rule { rule_of result ≡ choice_rule name.entry.now choices.entry }
    ensures local { result.global ≡ false }
{
    named_option(alloc, name, value, help).value_parser(choices)
}

/// The value that is one of the sizes of rings.
fn size_value<'a>(alloc: Global, sizes: &'a [&'a str]) -> Arg<'a>
    ensures rule { rule_of result ≡ value_rule (codes "N") (Names sizes.entry) }
    ensures local { result.global ≡ false }
{
    Arg::new(alloc, "N")
        .help(SIZE)
        .required(true)
        .value_parser(sizes)
}

/// The value that is a seed.
fn seed_value<'a>(alloc: Global) -> Arg<'a>
    ensures rule { rule_of result ≡ value_rule (codes "SEED") (Signed (pos 0) (pos 4294967295)) }
    ensures local { result.global ≡ false }
{
    Arg::new(alloc, "SEED")
        .help(SEED)
        .required(true)
        .value_parser(value_parser!(u32))
}

/// A command with one more option that names a file.
fn with_file<'a>(
    alloc: Global,
    command: Command<'a>,
    name: &'a str,
    help: &'a str,
) -> Result<Command<'a>, AllocError>
    requires { (fields_of command).has_globals ≡ false }
    ensures app { IfOk result (λ made. app_of made ≡ with_file (app_of command.entry) name.entry.now) }
    ensures local { IfOk result (λ made. (fields_of made).has_globals ≡ false) }
{
    command.arg(file_option(alloc, name, help))
}

/// A command with one more option that may name a file.
fn with_table<'a>(
    alloc: Global,
    command: Command<'a>,
    name: &'a str,
    help: &'a str,
) -> Result<Command<'a>, AllocError>
    requires { (fields_of command).has_globals ≡ false }
    ensures app { IfOk result (λ made. app_of made ≡ with_table (app_of command.entry) name.entry.now) }
    ensures local { IfOk result (λ made. (fields_of made).has_globals ≡ false) }
{
    command.arg(table_option(alloc, name, help))
}

/// A command with one more option for each of these names and lines of help, which names a file.
fn with_each_file<'a>(
    alloc: Global,
    mut command: Command<'a>,
    options: &[(&'a str, &'a str)],
) -> Result<Command<'a>, AllocError>
    requires { (fields_of command).has_globals ≡ false }
    ensures app { IfOk result (λ made. app_of made ≡ fold (λ app option. with_file app option.0.now) (app_of command.entry) options.entry.now) }
    ensures local { IfOk result (λ made. (fields_of made).has_globals ≡ false) }
{
    for &(name, help) in options {
        command = with_file(alloc, command, name, help)?;
    }
    Ok(command)
}

/// A command with one more option for each of these names and lines of help, which may name a file.
fn with_each_table<'a>(
    alloc: Global,
    mut command: Command<'a>,
    options: &[(&'a str, &'a str)],
) -> Result<Command<'a>, AllocError>
    requires { (fields_of command).has_globals ≡ false }
    ensures app { IfOk result (λ made. app_of made ≡ fold (λ app option. with_table app option.0.now) (app_of command.entry) options.entry.now) }
    ensures local { IfOk result (λ made. (fields_of made).has_globals ≡ false) }
{
    for &(name, help) in options {
        command = with_table(alloc, command, name, help)?;
    }
    Ok(command)
}

/// A command without options, with a line that says what it does.
fn described<'a>(alloc: Global, name: &'a str, about: &'a str) -> Command<'a>
    ensures app { app_of result ≡ new_app name.entry.now }
    ensures local { (fields_of result).has_globals ≡ false }
{
    Command::new(alloc, name).about(about)
}

fn pool_command<'a>(alloc: Global) -> Result<Command<'a>, AllocError>
    ensures app { IfOk result (λ made. app_of made ≡ pool_app) }
    ensures local { IfOk result (λ made. (fields_of made).has_globals ≡ false) }
{
    let command = described(
        alloc,
        "pool",
        "Clears the market as if no branch had a limit",
    );
    let command = with_file(alloc, command, "case", CASE)?;
    with_file(alloc, command, "offers", OFFERS)
}

/// A command with one more option, which tells how many places the factors of tables may have.
fn with_places<'a>(
    alloc: Global,
    command: Command<'a>,
    places: &'a [&'a str],
) -> Result<Command<'a>, AllocError>
    requires { (fields_of command).has_globals ≡ false }
    ensures app { IfOk result (λ made. app_of made ≡ with_places (app_of command.entry) places.entry) }
    ensures local { IfOk result (λ made. (fields_of made).has_globals ≡ false) }
{
    command.arg(choice_option(alloc, "factor-places", "PLACES", PLACES, places))
}

/// A command with one more option, which tells how many bits numbers may have.
fn with_bits<'a>(
    alloc: Global,
    command: Command<'a>,
    bits: &'a [&'a str],
) -> Result<Command<'a>, AllocError>
    requires { (fields_of command).has_globals ≡ false }
    ensures app { IfOk result (λ made. app_of made ≡ with_bits (app_of command.entry) bits.entry) }
    ensures local { IfOk result (λ made. (fields_of made).has_globals ≡ false) }
{
    command.arg(choice_option(alloc, "number-bits", "BITS", BITS, bits))
}

/// A command with the files of a market with limits, the rating after an outage, the places of factors, and the bits of numbers.
fn with_market<'a>(
    alloc: Global,
    command: Command<'a>,
    ratings: &'a [&'a str],
    places: &'a [&'a str],
    bits: &'a [&'a str],
) -> Result<Command<'a>, AllocError>
    requires { (fields_of command).has_globals ≡ false }
    ensures app { IfOk result (λ made. app_of made ≡ with_market (app_of command.entry) ratings.entry places.entry bits.entry) }
    ensures local { IfOk result (λ made. (fields_of made).has_globals ≡ false) }
{
    let command = with_each_file(alloc, command, &MARKET_FILES)?;
    let command = with_each_table(alloc, command, &MARKET_TABLES)?;
    let command = command.arg(choice_option(alloc, "post-rating", "RATING", POST_RATING, ratings))?;
    let command = with_places(alloc, command, places)?;
    with_bits(alloc, command, bits)
}

fn clear_command<'a>(
    alloc: Global,
    ratings: &'a [&'a str],
    places: &'a [&'a str],
    bits: &'a [&'a str],
) -> Result<Command<'a>, AllocError>
    ensures app { IfOk result (λ made. app_of made ≡ clear_app ratings.entry places.entry bits.entry) }
    ensures local { IfOk result (λ made. (fields_of made).has_globals ≡ false) }
{
    let command = described(
        alloc,
        "clear",
        "Clears the market within the limits of the branches, before and after outages",
    );
    let command = with_market(alloc, command, ratings, places, bits)?;
    with_table(alloc, command, "certificate", WRITTEN)
}

fn replay_command<'a>(
    alloc: Global,
    ratings: &'a [&'a str],
    places: &'a [&'a str],
    bits: &'a [&'a str],
) -> Result<Command<'a>, AllocError>
    ensures app { IfOk result (λ made. app_of made ≡ replay_app ratings.entry places.entry bits.entry) }
    ensures local { IfOk result (λ made. (fields_of made).has_globals ≡ false) }
{
    let command = described(
        alloc,
        "replay",
        "Edits the market step by step, and clears it where a step says so",
    );
    let command = with_market(alloc, command, ratings, places, bits)?;
    let command = with_file(alloc, command, "edits", EDITS)?;
    with_table(alloc, command, "certificate", WRITTEN)
}

fn verify_command<'a>(
    alloc: Global,
    ratings: &'a [&'a str],
    places: &'a [&'a str],
    bits: &'a [&'a str],
) -> Result<Command<'a>, AllocError>
    ensures app { IfOk result (λ made. app_of made ≡ verify_app ratings.entry places.entry bits.entry) }
    ensures local { IfOk result (λ made. (fields_of made).has_globals ≡ false) }
{
    let command = described(
        alloc,
        "verify",
        "Tells whether a certificate holds for the market",
    );
    let command = with_market(alloc, command, ratings, places, bits)?;
    let command = with_table(alloc, command, "edits", EDITS)?;
    with_file(alloc, command, "certificate", READ)
}

fn rights_command<'a>(
    alloc: Global,
    ratings: &'a [&'a str],
    places: &'a [&'a str],
    bits: &'a [&'a str],
) -> Result<Command<'a>, AllocError>
    ensures app { IfOk result (λ made. app_of made ≡ rights_app ratings.entry places.entry bits.entry) }
    ensures local { IfOk result (λ made. (fields_of made).has_globals ≡ false) }
{
    let command = described(
        alloc,
        "rights",
        "Clears the market, and tells whether transmission rights fit and what they are paid",
    );
    let command = with_market(alloc, command, ratings, places, bits)?;
    with_file(alloc, command, "rights", RIGHTS)
}

fn check_command<'a>(alloc: Global, places: &'a [&'a str]) -> Result<Command<'a>, AllocError>
    ensures app { IfOk result (λ made. app_of made ≡ check_app places.entry) }
    ensures local { IfOk result (λ made. (fields_of made).has_globals ≡ false) }
{
    let command = described(
        alloc,
        "check",
        "Tells by how much the tables of factors miss the laws of the network",
    );
    let command = with_each_file(alloc, command, &CHECKED_FILES)?;
    let command = with_each_table(alloc, command, &CHECKED_TABLES)?;
    with_places(alloc, command, places)
}

fn factors_command<'a>(alloc: Global, places: &'a [&'a str]) -> Result<Command<'a>, AllocError>
    ensures app { IfOk result (λ made. app_of made ≡ factors_app places.entry) }
    ensures local { IfOk result (λ made. (fields_of made).has_globals ≡ false) }
{
    let command = described(alloc, "factors", "Makes tables of shift and outage factors");
    let command = with_each_file(alloc, command, &FACTOR_FILES)?;
    let command = with_each_table(alloc, command, &FACTOR_TABLES)?;
    with_places(alloc, command, places)
}

fn migrate_command<'a>(alloc: Global, bits: &'a [&'a str]) -> Result<Command<'a>, AllocError>
    ensures app { IfOk result (λ made. app_of made ≡ migrate_app bits.entry) }
    ensures local { IfOk result (λ made. (fields_of made).has_globals ≡ false) }
{
    let command = described(
        alloc,
        "migrate",
        "Writes a certificate anew, in the version of today",
    );
    let command = with_file(alloc, command, "certificate", MIGRATED)?;
    let command = with_file(alloc, command, "out", OUT)?;
    with_bits(alloc, command, bits)
}

fn make_command<'a>(alloc: Global, sizes: &'a [&'a str]) -> Result<Command<'a>, AllocError>
    ensures app { IfOk result (λ made. app_of made ≡ make_app sizes.entry) }
    ensures local { IfOk result (λ made. (fields_of made).has_globals ≡ false) }
{
    described(
        alloc,
        "make",
        "Makes a market of buses in a ring, clears it and sums it up",
    )
    .arg(size_value(alloc, sizes))?
    .arg(seed_value(alloc))
}

/// A command with one more subcommand, where that could be made.
fn with_subcommand<'a>(
    command: Command<'a>,
    subcommand: Result<Command<'a>, AllocError>,
) -> Result<Command<'a>, AllocError>
    requires command { (fields_of command).has_globals ≡ false }
    requires subcommand { IfOk subcommand (λ made. (fields_of made).has_globals ≡ false) }
    ensures app { (app : App) → IfOk subcommand.entry (λ added. app_of added ≡ app) → IfOk result (λ made. app_of made ≡ with_subcommand (app_of command.entry) app.top) }
    ensures local { IfOk result (λ made. (fields_of made).has_globals ≡ false) }
{
    command.subcommand(subcommand?)
}

/// The program without its subcommands, of which there must be one.
fn bare_command<'a>(alloc: Global) -> Command<'a>
    ensures app { app_of result ≡ needs_subcommand (new_app (codes "sced")) }
    ensures local { (fields_of result).has_globals ≡ false }
{
    described(
        alloc,
        "sced",
        "Clears the market of one interval of an electricity network",
    )
    .version(VERSION)
    .after_help(STATUSES)
    .subcommand_required(true)
    .disable_help_subcommand(true)
}

/// The command of the program, over the lists of the sizes of rings, of the letters of the ratings, and of the numbers of places and of bits.
#[tactic(auto, unfolding(crate::specs::Words::sced_app_over))]
pub fn sced_command<'a>(
    alloc: Global,
    sizes: &'a [&'a str],
    ratings: &'a [&'a str],
    places: &'a [&'a str],
    bits: &'a [&'a str],
) -> Result<Command<'a>, AllocError>
    ensures app { IfOk result (λ made. app_of made ≡ sced_app_over sizes.entry ratings.entry places.entry bits.entry) }
    ensures local { IfOk result (λ made. (fields_of made).has_globals ≡ false) }
{
    let command = with_subcommand(bare_command(alloc), pool_command(alloc))?;
    let command = with_subcommand(command, clear_command(alloc, ratings, places, bits))?;
    let command = with_subcommand(command, replay_command(alloc, ratings, places, bits))?;
    let command = with_subcommand(command, verify_command(alloc, ratings, places, bits))?;
    let command = with_subcommand(command, rights_command(alloc, ratings, places, bits))?;
    let command = with_subcommand(command, check_command(alloc, places))?;
    let command = with_subcommand(command, factors_command(alloc, places))?;
    let command = with_subcommand(command, migrate_command(alloc, bits))?;
    with_subcommand(command, make_command(alloc, sizes))
}
