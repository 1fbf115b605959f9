//! Each command over the files that the words name for it.

ghost use Rattle.std.specs.Prelude.{◌≡◌, option_map, Ok, Err, IfOk, MatchResult};
ghost use Rattle.command_answers.specs.Checking.{TellsCheck};
ghost use Rattle.command_answers.specs.Clearing.{TellsClear};
ghost use Rattle.command_answers.specs.Migrating.{TellsMigration};
ghost use Rattle.command_answers.specs.Replaying.{TellsReplay};
ghost use Rattle.command_answers.specs.Rights.{TellsRights};
ghost use Rattle.command_answers.specs.Status.{IsOfWork};
ghost use Rattle.command_answers.specs.Tellings.{telling_of};
ghost use Rattle.command_answers.specs.Verifying.{TellsVerdict};
ghost use Rattle.command_words.specs.Requests.{names_of_factors, names_of_market, names_to_check};
ghost use Rattle.command_words.specs.Words.{IsCheckFile, IsFactorFile, IsMarketFile, IsPoolFile, IsReplayFile, IsRightsFile, IsVerifyFile};
ghost use Rattle.number_bits.specs.declared.NumberBits.TheVariants as NumberBits;
ghost use Rattle.number_bits.specs.Bits.{most_of};
ghost use Rattle.command_files.specs.OnlyReads.{IsSilent, OnlyReads};
ghost use Rattle.command_files.specs.Standing.{AreCheckFiles, AreClearFiles, AreFactorFiles, ArePoolFiles, AreReplayFiles, AreRightsFiles, AreVerifyFiles, IsMigratedFile, OfFiles, TellsFactorsOf};

use crate::reading::{read_file, read_grid, read_market, read_table};
use command_answers::{
    Status, Told, check_told, clear_told, factors_told, migrate_told, pool_told, replay_told,
    rights_told, verify_told,
};
use command_words::{
    CheckNames, FactorNames, MarketNames, MigrateFiles, PoolFiles, ReplayFiles, RightsFiles,
    VerifyFiles,
};
use edit_table::EDIT_HEADER;
use factor_tables::OUTAGE_HEADER;
use outside_store::Store;
use plain_list::Memory;
use std::alloc::Global;

/// What is told, or the status of want of memory.
pub fn or_memory(told: Result<Told, Memory>) -> Result<Told, Status>
    ensures { MatchResult result (λ made. told ≡ Ok made) (λ status. status ≡ Status.Memory) }
{
    match told {
        Ok(told) => Ok(told),
        Err(Memory) => Err(Status::Memory),
    }
}

/// What the case and the offers come to.
#[tactic(auto, using(crate::proofs::ReadingLemmas::same_then))]
pub fn pool_files<S: Store>(
    alloc: Global,
    files: &PoolFiles<'_>,
    store: &mut S,
) -> Result<Told, Status>
    ensures told { MatchResult result (λ told. IsOfWork told.status) IsSilent }
    ensures right { IfOk result (λ told. OfFiles (S.files store.old) (λ f. ArePoolFiles f files.now.case.now files.now.offers.now) (TellsClear (most_of NumberBits.Bits127)) (telling_of told)) }
    ensures reads { OnlyReads S.Store store.old store.new (IsPoolFile files.now.case.now files.now.offers.now) (result ≡ Err Status.ReadFailed) }
{
    let case = read_file(alloc, store, files.case)?;
    let offers = read_file(alloc, store, files.offers)?;
    or_memory(pool_told(alloc, case.as_slice(), offers.as_slice()))
}

/// What the files of a market come to.
pub fn clear_files<S: Store>(
    alloc: Global,
    files: &MarketNames<'_>,
    store: &mut S,
) -> Result<Told, Status>
    ensures told { MatchResult result (λ told. IsOfWork told.status) IsSilent }
    ensures right { IfOk result (λ told. OfFiles (S.files store.old) (λ f. AreClearFiles f (names_of_market files.now)) (TellsClear (most_of files.now.bits)) (telling_of told)) }
    ensures reads { OnlyReads S.Store store.old store.new (IsMarketFile (names_of_market files.now)) (result ≡ Err Status.ReadFailed) }
{
    let bytes = read_market(alloc, files, store)?;
    let lent = bytes.as_slices();
    or_memory(clear_told(alloc, &lent, files.rating, files.places, files.bits))
}

/// What these come to with a table of edits.
#[tactic(auto, using(crate::proofs::ReadingLemmas::same_then))]
pub fn replay_files<S: Store>(
    alloc: Global,
    files: &ReplayFiles<'_>,
    store: &mut S,
) -> Result<Told, Status>
    ensures told { MatchResult result (λ told. IsOfWork told.status) IsSilent }
    ensures right { IfOk result (λ told. OfFiles (S.files store.old) (λ f. AreReplayFiles f (names_of_market files.now.market) files.now.edits.now) (TellsReplay (most_of files.now.market.bits)) (telling_of told)) }
    ensures reads { OnlyReads S.Store store.old store.new (IsReplayFile (names_of_market files.now.market) files.now.edits.now) (result ≡ Err Status.ReadFailed) }
{
    let bytes = read_market(alloc, &files.market, store)?;
    let edits = read_file(alloc, store, files.edits)?;
    let told = replay_told(
        alloc,
        &bytes.as_slices(),
        files.market.rating,
        files.market.places,
        edits.as_slice(),
        files.market.bits,
    );
    or_memory(told)
}

/// What these come to with a certificate.
#[tactic(auto, using(crate::proofs::ReadingLemmas::same_then))]
pub fn verify_files<S: Store>(
    alloc: Global,
    files: &VerifyFiles<'_>,
    store: &mut S,
) -> Result<Told, Status>
    ensures told { MatchResult result (λ told. IsOfWork told.status) IsSilent }
    ensures right { IfOk result (λ told. OfFiles (S.files store.old) (λ f. AreVerifyFiles f (names_of_market files.now.market) (option_map (λ n. n.now) files.now.edits) files.now.certificate.now) (TellsVerdict (most_of files.now.market.bits)) (telling_of told)) }
    ensures reads { OnlyReads S.Store store.old store.new (IsVerifyFile (names_of_market files.now.market) (option_map (λ n. n.now) files.now.edits) files.now.certificate.now) (result ≡ Err Status.ReadFailed) }
{
    let bytes = read_market(alloc, &files.market, store)?;
    let edits = read_table(alloc, store, files.edits, EDIT_HEADER)?;
    let certificate = read_file(alloc, store, files.certificate)?;
    or_memory(verify_told(
        alloc,
        &bytes.as_slices(),
        files.market.rating,
        files.market.places,
        edits.as_slice(),
        certificate.as_slice(),
        files.market.bits,
    ))
}

/// What these come to with a table of rights.
#[tactic(auto, using(crate::proofs::ReadingLemmas::same_then))]
pub fn rights_files<S: Store>(
    alloc: Global,
    files: &RightsFiles<'_>,
    store: &mut S,
) -> Result<Told, Status>
    ensures told { MatchResult result (λ told. IsOfWork told.status) IsSilent }
    ensures right { IfOk result (λ told. OfFiles (S.files store.old) (λ f. AreRightsFiles f (names_of_market files.now.market) files.now.rights.now) (TellsRights (most_of files.now.market.bits)) (telling_of told)) }
    ensures reads { OnlyReads S.Store store.old store.new (IsRightsFile (names_of_market files.now.market) files.now.rights.now) (result ≡ Err Status.ReadFailed) }
{
    let bytes = read_market(alloc, &files.market, store)?;
    let rights = read_file(alloc, store, files.rights)?;
    let told = rights_told(
        alloc,
        &bytes.as_slices(),
        files.market.rating,
        files.market.places,
        rights.as_slice(),
        files.market.bits,
    );
    or_memory(told)
}

/// What a certificate comes to that is to be written anew.
pub fn migrate_file<S: Store>(
    alloc: Global,
    files: &MigrateFiles<'_>,
    store: &mut S,
) -> Result<Told, Status>
    ensures told { MatchResult result (λ told. IsOfWork told.status) IsSilent }
    ensures right { IfOk result (λ told. OfFiles (S.files store.old) (λ f. IsMigratedFile f files.now.certificate.now files.now.bits) TellsMigration (telling_of told)) }
    ensures reads { OnlyReads S.Store store.old store.new (λ file. file ≡ files.now.certificate.now) (result ≡ Err Status.ReadFailed) }
{
    let certificate = read_file(alloc, store, files.certificate)?;
    or_memory(migrate_told(alloc, certificate.as_slice(), files.bits))
}

/// What the case and its tables come to.
pub fn check_files<S: Store>(
    alloc: Global,
    files: &CheckNames<'_>,
    store: &mut S,
) -> Result<Told, Status>
    ensures told { MatchResult result (λ told. IsOfWork told.status) IsSilent }
    ensures right { IfOk result (λ told. OfFiles (S.files store.old) (λ f. AreCheckFiles f (names_to_check files.now)) TellsCheck (telling_of told)) }
    ensures reads { OnlyReads S.Store store.old store.new (IsCheckFile (names_to_check files.now)) (result ≡ Err Status.ReadFailed) }
{
    let grid = read_grid(alloc, &files.tables, store)?;
    or_memory(check_told(alloc, &grid.as_slices(), files.places))
}

/// What the case and the list of outages come to, of which tables of factors are made.
#[tactic(auto, using(crate::proofs::ReadingLemmas::same_then))]
pub fn factors_files<S: Store>(
    alloc: Global,
    files: &FactorNames<'_>,
    store: &mut S,
) -> Result<Told, Status>
    ensures told { MatchResult result (λ told. IsOfWork told.status) IsSilent }
    ensures right { IfOk result (λ told. OfFiles (S.files store.old) (λ f. AreFactorFiles f (names_of_factors files.now)) (TellsFactorsOf (names_of_factors files.now)) (telling_of told)) }
    ensures reads { OnlyReads S.Store store.old store.new (IsFactorFile (names_of_factors files.now)) (result ≡ Err Status.ReadFailed) }
{
    let case = read_file(alloc, store, files.case)?;
    let outages = read_table(alloc, store, files.contingencies, OUTAGE_HEADER)?;
    or_memory(factors_told(
        alloc,
        case.as_slice(),
        outages.as_slice(),
        files.lodf_out.is_some(),
        files.places,
    ))
}
