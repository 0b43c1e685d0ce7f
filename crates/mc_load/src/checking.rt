//! One shard after the other is checked, when all workers have ended.
ghost use Rattle.std.specs.Prelude.{◌≡◌, ◌+◌, ◌*◌, ◌≤◌, ◌<◌, ◌++◌, length, vec_len, vec_capacity};
ghost use Rattle.mc_words.specs.Places.{IsWidth};
ghost use Rattle.mc_words.specs.Shapes.{HasShards};
ghost use Rattle.mc_load.specs.ShardLoads.{IsRightIn, answers_in, most_writers};
ghost use Rattle.mc_load.specs.Inside.Seats.{CanAudit};
ghost use Rattle.mc_load.specs.Inside.Sums.{AreTrueIn, all_tries};
ghost use Rattle.mc_load.specs.Inside.Tries.{HaveTriedWhole};
ghost use Rattle.mc_load.specs.Inside.Workers.{HaveAllNoted, answers_of};

use crate::asked::Load;
use crate::merging::{Share, gather, misplaced, write_history};
use crate::reader_thread::ReaderThread;
use crate::turn_thread::TurnThread;
use crate::turns_ready::Audit;
use mc_check::{Checker, Record};
use std::alloc::Global;

/// Appends the answers about the shard's keys to others. There is room for all.
fn append_answers<const V: usize>(told: &mut Vec<Record<V>>, share: Share, records: &[Record<V>])
    requires width { IsWidth V }
    requires room { vec_len told.old + length records.now ≤ vec_capacity told.old }
    ensures capacity { vec_capacity told.new ≡ vec_capacity told.old }
    ensures items { told.new.items ≡ told.old.items ++ answers_in share.mix share.shards share.shard records.now }
{
    for n in 0..records.len() {
        if share.has(records[n].key) {
            told.push_reserved(records[n]);
        }
    }
}

/// How many answers about the shard's keys are wrong.
fn wrong_answers<const V: usize>(
    load: Load,
    checker: &Checker<'_, V>,
    share: Share,
    reader_threads: &[ReaderThread<'_, V>],
    told: &mut Vec<Record<V>>,
) -> u64
    requires width { IsWidth V }
    requires noted { HaveAllNoted load reader_threads.now }
    requires room { load.lookups ≤ vec_capacity told.old }
    ensures capacity { vec_capacity told.new ≡ vec_capacity told.old }
    ensures right { result ≡ 0 → AreTrueIn share.mix share.shards share.shard checker.now reader_threads.now }
{
    let _load = load;
    let mut wrong: u64 = 0;
    for n in 0..reader_threads.len() {
        told.clear();
        append_answers(told, share, reader_threads[n].records.as_slice());
        wrong = wrong.saturating_add(checker.check(told.as_slice()));
    }
    wrong
}

/// How many answers about a shard's keys are wrong, and how many of its moments, up to the last, have no change or several.
pub(crate) fn check_shard<const V: usize>(
    alloc: Global,
    load: Load,
    share: Share,
    last: u64,
    turn_threads: &[TurnThread<'_, V>],
    reader_threads: &[ReaderThread<'_, V>],
    audit: &mut Audit<V>,
) -> u64
    requires width { IsWidth V }
    requires few { length turn_threads.now ≤ most_writers }
    requires tried { HaveTriedWhole load turn_threads.now }
    requires noted { HaveAllNoted load reader_threads.now }
    requires can { CanAudit V load (length turn_threads.now) audit.old }
    ensures can { CanAudit V load (length turn_threads.now) audit.new }
    ensures right { result ≡ 0 → IsRightIn share.mix share.shards (all_tries turn_threads.now) (answers_of reader_threads.now) last share.shard }
{
    audit.dated.clear();
    gather(load, share, turn_threads, &mut audit.dated);
    audit.dated.sort_unstable_by_key(|change| change.at);
    let misplaced = misplaced(audit.dated.as_slice(), last);
    audit.history.clear();
    write_history(&mut audit.history, audit.dated.as_slice());
    let checker = Checker::sorted(alloc, audit.history.as_slice());
    let wrong = wrong_answers(load, &checker, share, reader_threads, &mut audit.told);
    wrong.saturating_add(misplaced)
}
