//! From words and files to the files that are written and the text that is put.

ghost use Rattle.std.specs.Prelude.{◌≡◌, ◌⊎◌, ℕ, List, [], map, option_map, string_bytes, vec_items, Some, Ok, Err, IfOk, IsErr, MatchResult};
ghost use Rattle.outside_store.specs.Causes.{Still};
ghost use Rattle.outside_store.specs.Sinks.{Took, CountFault};
ghost use Rattle.command_answers.specs.Tellings.{map_outputs, telling_of};
ghost use Rattle.command_words.specs.Words.{NamesFile, NamesToWrite};
ghost use Rattle.sced.specs.Promise.{Runs};
ghost use Rattle.sced.specs.Runs.{Ends, FailsAt, HasText, KeepsWrites, TellsUsage, WritesFor, outside_of};
ghost use Rattle.command_files.specs.OnlyReads.{IsSilent, OnlyReads};
ghost use Rattle.sced.specs.Told.{AnswersTo, IsOutputFile, named_bytes, names_for, written_by};

use command_answers::{Outputs, Status, Told, make_told};
use command_files::{
    check_files, clear_files, factors_files, migrate_file, or_memory, pool_files, replay_files,
    rights_files, verify_files,
};
use command_words::{Request, WordsStop, request_of};
use outside_store::{Failed, Sink, Store};
use std::alloc::Global;

/// What a run comes to before anything is written or put.
#[derive(Drop)]
pub(crate) struct Work<'a> {
    pub told: Told,
    /// The names of the files that its outputs are written to, where the words name them.
    pub files: Outputs<&'a str>,
}

/// What a command comes to, with the files that are named for its outputs.
fn with_files<'a>(told: Result<Told, Status>, files: Outputs<&'a str>) -> Result<Work<'a>, Status>
    ensures { MatchResult result (λ work. (told ≡ Ok work.told) × (names_for work ≡ map_outputs (λ n. n.now) files.entry)) (λ status. told ≡ Err status) }
{
    match told {
        Ok(told) => Ok(Work { told, files }),
        Err(status) => Err(status),
    }
}

/// What the words and the files that they name come to.
#[tactic(auto, using(command_files::proofs::ReadingLemmas::same_files))]
fn asked_work<'a, S: Store>(
    alloc: Global,
    words: &'a [String],
    store: &mut S,
) -> Result<Work<'a>, Status>
    ensures usage { MatchResult result (λ work. TellsUsage (map string_bytes words.entry.now) work.told.status) (TellsUsage (map string_bytes words.entry.now)) }
    ensures told { MatchResult result (λ work. HasText work.told.status) IsSilent }
    ensures answers { IfOk result (λ work. AnswersTo (S.files store.old) (map string_bytes words.entry.now) (telling_of work.told) (written_by work)) }
    ensures named { IfOk result (λ work. (file : List ℕ) → IsOutputFile (names_for work) file → NamesToWrite (map string_bytes words.entry.now) file) }
    ensures reads { OnlyReads S.Store store.old store.new (NamesFile (map string_bytes words.entry.now)) (result ≡ Err Status.ReadFailed) }
{
    let none = Outputs::certified(None);
    match request_of(alloc, words) {
        Ok(Request::Pool(files)) => with_files(pool_files(alloc, &files, store), none),
        Ok(Request::Clear(files)) => with_files(
            clear_files(alloc, &files.market, store),
            Outputs::certified(files.certificate),
        ),
        Ok(Request::Replay(files)) => with_files(
            replay_files(alloc, &files, store),
            Outputs::certified(files.certificate),
        ),
        Ok(Request::Verify(files)) => with_files(verify_files(alloc, &files, store), none),
        Ok(Request::Rights(files)) => with_files(rights_files(alloc, &files, store), none),
        Ok(Request::Check(files)) => with_files(check_files(alloc, &files, store), none),
        Ok(Request::Factors(files)) => with_files(
            factors_files(alloc, &files, store),
            Outputs::tabled(files.ptdf_out, files.lodf_out),
        ),
        Ok(Request::Migrate(files)) => with_files(
            migrate_file(alloc, &files, store),
            Outputs::certified(Some(files.out)),
        ),
        Ok(Request::Make(ring)) => with_files(
            or_memory(make_told(alloc, ring.buses, ring.seed)),
            none,
        ),
        Err(WordsStop::Usage(text)) => Ok(Work {
            told: Told {
                status: Status::Usage,
                text: text.into_bytes(),
                outputs: Outputs::certified(None),
            },
            files: none,
        }),
        Err(WordsStop::Memory) => Err(Status::Memory),
    }
}

/// Writes the bytes that there are to the file that is named for them.
fn keep_output<S: Store>(
    store: &mut S,
    name: Option<&str>,
    bytes: Option<&[u8]>,
) -> Result<(), Failed>
    ensures kept { KeepsWrites (IsErr result) (named_bytes (option_map (λ n. n.now) name.entry) (option_map (λ b. b.now) bytes.entry) []) (S.files store.old) (S.files store.new) }
    ensures writes { WritesFor S.Store store.old store.new (λ file. option_map (λ n. n.now) name.entry ≡ Some file) (IsErr result) }
    ensures reads { Still (S.failed_reads store.old) (S.failed_reads store.new) }
{
    match (name, bytes) {
        (Some(name), Some(bytes)) => store.write(name, bytes),
        _ => Ok(()),
    }
}

/// Writes the outputs that there are to the files that are named for them, one after another.
fn keep<S: Store>(store: &mut S, work: &Work<'_>) -> Result<(), Failed>
    ensures kept { KeepsWrites (IsErr result) (written_by work.now) (S.files store.old) (S.files store.new) }
    ensures writes { WritesFor S.Store store.old store.new (IsOutputFile (names_for work.now)) (IsErr result) }
    ensures reads { Still (S.failed_reads store.old) (S.failed_reads store.new) }
{
    let outputs = &work.told.outputs;
    keep_output(store, work.files.ptdf, outputs.ptdf.as_deref())?;
    keep_output(store, work.files.lodf, outputs.lodf.as_deref())?;
    keep_output(
        store,
        work.files.certificate,
        outputs.certificate.as_deref(),
    )
}

/// Puts the text.
fn put<K: Sink>(out: &mut K, told: &Told) -> Status
    requires { HasText told.now.status }
    ensures status { (result ≡ told.now.status) ⊎ (result ≡ Status.WriteFailed) }
    ensures took { Took (result ≡ Status.WriteFailed) told.now.text.items (K.taken out.old) (K.taken out.new) }
    ensures faults { CountFault (result ≡ Status.WriteFailed) (K.faults out.old) (K.faults out.new) }
{
    match out.put(told.text.as_slice()) {
        Ok(()) => told.status,
        Err(_) => Status::WriteFailed,
    }
}

/// Writes the outputs that there are, and then puts the text.
fn finish<S: Store, K: Sink>(store: &mut S, out: &mut K, work: &Work<'_>) -> Status
    requires { HasText work.now.told.status }
    ensures status { (result ≡ work.now.told.status) ⊎ (result ≡ Status.WriteFailed) }
    ensures ends { Ends (telling_of work.now.told) (written_by work.now) (S.files store.old) (S.files store.new) (K.taken out.old) (K.taken out.new) result }
    ensures cut { ¬ (Still (S.failed_writes store.old) (S.failed_writes store.new)) → K.taken out.new ≡ K.taken out.old }
    ensures reads { Still (S.failed_reads store.old) (S.failed_reads store.new) }
    ensures failed { result ≡ Status.WriteFailed → FailsAt (IsOutputFile (names_for work.now)) (written_by work.now) (outside_of S.Store K.Sink store.old out.old) (outside_of S.Store K.Sink store.new out.new) }
    ensures still { ¬ (result ≡ Status.WriteFailed) → Still (S.failed_writes store.old) (S.failed_writes store.new) × (K.faults out.new ≡ K.faults out.old) }
{
    match keep(store, work) {
        Ok(()) => put(out, &work.told),
        Err(Failed) => Status::WriteFailed,
    }
}

/// Runs the command that the words ask for, over the files of a store: writes what it comes to for files that are named for it, and puts
/// its text.
///
/// The whole text is made first and put once. What the contract means in its users' words, `laws` says.
pub fn run<S: Store, K: Sink>(alloc: Global, words: &[String], store: &mut S, out: &mut K) -> Status
    ensures runs { Runs (map string_bytes words.entry.now) (outside_of S.Store K.Sink store.old out.old) (outside_of S.Store K.Sink store.new out.new) result }
{
    match asked_work(alloc, words, store) {
        Ok(work) => finish(store, out, &work),
        Err(status) => status,
    }
}
