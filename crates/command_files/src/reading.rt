//! The files that words name, read whole.

ghost use Rattle.std.specs.Prelude.{◌≡◌, map, option_map, vec_items, Some, Err, IfOk, IfErr};
ghost use Rattle.outside_store.specs.Files.{Reads};
ghost use Rattle.market_tables.specs.Tables.{map_grid, map_tables};
ghost use Rattle.command_words.specs.Requests.{names_of_grid, names_of_market};
ghost use Rattle.command_words.specs.Words.{IsGridFile, IsMarketFile};
ghost use Rattle.market_inputs.specs.Files.{most_file};
ghost use Rattle.command_files.specs.Reading.{ReadsGrid, ReadsMarket, ReadsTable, source_of};
ghost use Rattle.command_files.specs.OnlyReads.{IsSilent, OnlyReads};

use command_answers::Status;
use command_words::{GridNames, MarketNames};
use csv_table::header_line;
use factor_tables::{LOSS_HEADER, OFFSET_HEADER, OUTAGE_HEADER, PENALTY_HEADER};
use market_inputs::MOST_FILE;
use market_tables::{GridTables, MarketTables};
use offer_book::RESERVE_HEADER;
use outage_list::UNIT_OUTAGE_HEADER;
use outside_store::{ReadStop, Store};
use std::alloc::Global;

/// The bytes of a named file, cut behind the first too many.
pub fn read_file<S: Store>(alloc: Global, store: &mut S, name: &str) -> Result<Vec<u8>, Status>
    ensures bytes { IfOk result (λ bytes. Reads (S.files store.old) name.now most_file bytes.items) }
    ensures stop { IfErr result IsSilent }
    ensures reads { OnlyReads S.Store store.old store.new (λ file. file ≡ name.now) (result ≡ Err Status.ReadFailed) }
{
    match store.read(alloc, name, MOST_FILE) {
        Ok(bytes) => Ok(bytes),
        Err(ReadStop::Failed) => Err(Status::ReadFailed),
        Err(ReadStop::Memory) => Err(Status::Memory),
    }
}

/// The bytes of a table, which are its header alone where no file is named.
pub fn read_table<S: Store>(
    alloc: Global,
    store: &mut S,
    name: Option<&str>,
    header: &[&str],
) -> Result<Vec<u8>, Status>
    ensures bytes { IfOk result (λ bytes. ReadsTable (S.files store.old) (source_of (map (λ n. n.now) header.now) (option_map (λ n. n.now) name.entry)) bytes.items) }
    ensures stop { IfErr result IsSilent }
    ensures reads { OnlyReads S.Store store.old store.new (λ file. option_map (λ n. n.now) name.entry ≡ Some file) (result ≡ Err Status.ReadFailed) }
{
    match name {
        Some(name) => read_file(alloc, store, name),
        None => match header_line(alloc, header) {
            Ok(bytes) => Ok(bytes),
            Err(_) => Err(Status::Memory),
        },
    }
}

/// The bytes of a case and of its tables.
#[tactic(auto, using(crate::proofs::ReadingLemmas::same_then))]
pub fn read_grid<S: Store>(
    alloc: Global,
    files: &GridNames<'_>,
    store: &mut S,
) -> Result<GridTables<Vec<u8>>, Status>
    ensures bytes { IfOk result (λ grid. ReadsGrid (S.files store.old) (names_of_grid files.now) (map_grid vec_items vec_items grid)) }
    ensures stop { IfErr result IsSilent }
    ensures reads { OnlyReads S.Store store.old store.new (IsGridFile (names_of_grid files.now)) (result ≡ Err Status.ReadFailed) }
{
    let case = read_file(alloc, store, files.case)?;
    let ptdf = read_file(alloc, store, files.ptdf)?;
    let lodf = read_table(alloc, store, files.lodf, LOSS_HEADER)?;
    let contingencies = read_table(alloc, store, files.contingencies, OUTAGE_HEADER)?;
    Ok(GridTables {
        case,
        ptdf,
        lodf,
        contingencies,
    })
}

/// The bytes of the files of a market.
#[tactic(auto, using(crate::proofs::ReadingLemmas::same_then))]
pub fn read_market<S: Store>(
    alloc: Global,
    files: &MarketNames<'_>,
    store: &mut S,
) -> Result<MarketTables<Vec<u8>>, Status>
    ensures bytes { IfOk result (λ tables. ReadsMarket (S.files store.old) (names_of_market files.now) (map_tables vec_items vec_items tables)) }
    ensures stop { IfErr result IsSilent }
    ensures reads { OnlyReads S.Store store.old store.new (IsMarketFile (names_of_market files.now)) (result ≡ Err Status.ReadFailed) }
{
    let grid = read_grid(alloc, &files.tables.grid, store)?;
    let unit_outages = read_table(alloc, store, files.tables.unit_outages, UNIT_OUTAGE_HEADER)?;
    let offers = read_file(alloc, store, files.tables.offers)?;
    let reserves = read_table(alloc, store, files.tables.reserves, RESERVE_HEADER)?;
    let offsets = read_table(alloc, store, files.tables.offsets, OFFSET_HEADER)?;
    let penalties = read_table(alloc, store, files.tables.penalties, PENALTY_HEADER)?;
    Ok(MarketTables {
        grid,
        unit_outages,
        offers,
        reserves,
        offsets,
        penalties,
    })
}
