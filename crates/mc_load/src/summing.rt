//! Adds up the readers' answers, and checks them if there is a single writer.
ghost use Rattle.std.specs.Prelude.{ℕ, ◌≡◌, ◌*◌, ◌+◌, ◌≤◌, ◌<◌, Some, length, slice_index_or, vec_len};
ghost use Rattle.mc_words.specs.Places.{IsWidth};
ghost use Rattle.mc_words.specs.Readers.{most_readers};
ghost use Rattle.mc_words.specs.Shapes.{IsShape};
ghost use Rattle.mc_load.specs.Loads.{AreTrue, Reports, history_after, is_absent, is_busy, is_found, total_of};
ghost use Rattle.mc_load.specs.Lookups.{one_shard};
ghost use Rattle.mc_load.specs.Inside.Handles.{AreAllTold, cache_of};
ghost use Rattle.mc_load.specs.Inside.Workers.{AreReadersOf, AreWhole, HasWritten, HaveAllGot, HaveAllNoted, HaveEnded, IsWriting, answers_of};

use crate::asked::Load;
use crate::handle::Handle;
use crate::reader_thread::ReaderThread;
use crate::report::{Report, Tally};
use crate::writer_thread::WriterThread;
use mc_cache::Writer;
use mc_check::Checker;
use std::alloc::Global;

/// How many answers of all readers have each kind.
pub(crate) fn answers_of<const V: usize>(
    load: Load,
    reader_threads: &[ReaderThread<'_, V>],
) -> Report
    requires few { length reader_threads.now ≤ most_readers }
    requires noted { HaveAllNoted load reader_threads.now }
    ensures lookups { result.lookups ≡ length reader_threads.now * load.lookups }
    ensures sum { result.found + result.absent + result.busy ≡ result.lookups }
    ensures found { result.found ≡ total_of is_found (answers_of reader_threads.now) }
    ensures absent { result.absent ≡ total_of is_absent (answers_of reader_threads.now) }
    ensures busy { result.busy ≡ total_of is_busy (answers_of reader_threads.now) }
{
    let _load = load;
    let mut report = Report::none(0, 0);
    for n in 0..reader_threads.len() {
        report.add(Tally::of(reader_threads[n].records.as_slice()), 0);
    }
    report
}

/// How many answers of one reader are wrong. The writer has ended.
fn check_reader<const V: usize>(
    writer: &mut Writer<V>,
    checker: &Checker<'_, V>,
    thread: ReaderThread<'_, V>,
) -> u64
    requires of { cache_of thread.handle ≡ Some writer.old.of }
    requires told { AreAllTold V thread.handle thread.records.items }
    requires history { checker.now ≡ history_after V writer.old.of.layout.shape writer.old.acts }
    ensures writer { writer.new ≡ writer.old }
    ensures wrong { result ≡ 0 }
    ensures told { AreTrue (history_after V writer.old.of.layout.shape writer.old.acts) thread.entry.records.items }
{
    let ReaderThread {
        handle,
        records,
        ..
    } = thread;
    let Handle::Cache(mut held) = handle else {
        unreachable!();
    };
    let cache = held.cache;
    held.reader.catch_up(cache, writer);
    checker.check(records.as_slice())
}

/// How many answers of all readers are wrong. The writer has ended.
fn check_readers<const V: usize>(
    writer: &mut Writer<V>,
    checker: &Checker<'_, V>,
    mut reader_threads: Vec<ReaderThread<'_, V>>,
) -> u64
    requires of { AreReadersOf writer.old.of reader_threads.items }
    requires told { (n : ℕ) (d : ReaderThread V) → n < length reader_threads.items → AreAllTold V (slice_index_or reader_threads.items n d).handle (slice_index_or reader_threads.items n d).records.items }
    requires history { checker.now ≡ history_after V writer.old.of.layout.shape writer.old.acts }
    ensures wrong { result ≡ 0 }
    ensures told { (n : ℕ) (d : ReaderThread V) → n < length reader_threads.entry.items →
        AreTrue (history_after V writer.old.of.layout.shape writer.old.acts) (slice_index_or reader_threads.entry.items n d).records.items }
{
    let mut wrong = 0;
    while let Some(thread) = reader_threads.pop() {
        wrong += check_reader(writer, checker, thread);
    }
    wrong
}

/// Checks every reader's answers against the history, and adds them up.
pub(crate) fn report_of<const V: usize>(
    alloc: Global,
    load: Load,
    writer_thread: WriterThread<'_, V>,
    reader_threads: Vec<ReaderThread<'_, V>>,
) -> Report
    requires width { IsWidth V }
    requires shape { IsShape load.shape × (writer_thread.cache.now.layout.shape ≡ load.shape) }
    requires writing { IsWriting V writer_thread.cache.now writer_thread }
    requires written { HasWritten V load load.writes writer_thread }
    requires journal { vec_len writer_thread.journal ≤ 2 * load.writes }
    requires len { vec_len reader_threads ≡ load.readers }
    requires few { vec_len reader_threads ≤ most_readers }
    requires of { AreReadersOf writer_thread.cache.now reader_threads.items }
    requires ended { HaveEnded V load reader_threads.items }
    requires noted { HaveAllNoted load reader_threads.items }
    requires got { HaveAllGot (one_shard writer_thread.cache.now) reader_threads.items }
    ensures { Reports V load result }
{
    let WriterThread {
        mut writer,
        journal,
        ..
    } = writer_thread;
    let checker = Checker::sorted(alloc, journal.as_slice());
    let mut report = answers_of(load, reader_threads.as_slice());
    report.writes = u64::from(load.writes);
    report.changes = journal.len() as u64;
    report.wrong = check_readers(&mut writer, &checker, reader_threads);
    report
}
