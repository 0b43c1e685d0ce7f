//! What came of a load in turns is checked and added up.
ghost use Rattle.std.specs.Prelude.{ℕ, ◌≡◌, ◌+◌, ◌*◌, ◌≤◌, ◌<◌, length, slice_index, slice_index_or, sum_by, vec_len};
ghost use Rattle.mc_words.specs.Places.{IsWidth};
ghost use Rattle.mc_words.specs.Shapes.{HasShards};
ghost use Rattle.mc_shards.specs.Sharded.{Sharded};
ghost use Rattle.mc_load.specs.ShardLoads.{IsRightIn, RunsTurns, most_writers};
ghost use Rattle.mc_load.specs.Inside.Seats.{CanAudit};
ghost use Rattle.mc_load.specs.Inside.Sums.{HasRun, all_tries};
ghost use Rattle.mc_load.specs.Inside.Tries.{HaveTriedWhole};
ghost use Rattle.mc_load.specs.Inside.Workers.{HaveAllNoted, answers_of};

use crate::asked::Load;
use crate::checking::check_shard;
use crate::lasts::last_moments;
use crate::merging::Share;
use crate::reader_thread::ReaderThread;
use crate::summing::answers_of;
use crate::turn_thread::TurnThread;
use crate::turns::{DeskReport, MOST_WRITERS, Turns, TurnsRun};
use crate::turns_ready::{Audit, Seated};
use std::alloc::Global;

/// What came of the tries of all writers, and how many changes their answers report.
fn tries_of<const V: usize>(load: Load, turn_threads: &[TurnThread<'_, V>]) -> (Turns, u64)
    requires few { length turn_threads.now ≤ most_writers }
    requires tried { HaveTriedWhole load turn_threads.now }
    ensures sum { result.0.held + result.0.answered ≡ length turn_threads.now * load.writes }
    ensures few { result.1 ≤ 2 * result.0.answered }
    ensures held { result.0.held ≡ sum_by (λ t. t.turns.held) (all_tries turn_threads.now) }
    ensures answered { result.0.answered ≡ sum_by (λ t. t.turns.answered) (all_tries turn_threads.now) }
    ensures changes { result.1 ≡ sum_by (λ t. length t.journal) (all_tries turn_threads.now) }
{
    let _load = load;
    let mut turns = Turns::none();
    let mut changes = 0;
    for n in 0..turn_threads.len() {
        turns.add(turn_threads[n].turns);
        changes += turn_threads[n].journal.len() as u64;
    }
    (turns, changes)
}

/// What came of each writer's tries.
fn turns_of<const V: usize>(load: Load, turn_threads: &[TurnThread<'_, V>]) -> [Turns; MOST_WRITERS]
    requires few { length turn_threads.now ≤ most_writers }
    requires tried { HaveTriedWhole load turn_threads.now }
    ensures sums { (n : ℕ) (d : Turns) → n < length turn_threads.now → (slice_index_or result n d).held + (slice_index_or result n d).answered ≡ load.writes }
    ensures each { (n : ℕ) (d : Turns) (e : TurnThread V) → n < length turn_threads.now → slice_index_or result n d ≡ (slice_index_or turn_threads.now n e).turns }
{
    let mut turns = [Turns::none(); MOST_WRITERS];
    for n in 0..turn_threads.len() {
        turns[n] = turn_threads[n].turns;
    }
    turns
}

/// Checks one shard after the other, whose last moments are these: how much is wrong in all.
fn check_all<const V: usize>(
    alloc: Global,
    load: Load,
    shards: u32,
    lasts: &[u64],
    turn_threads: &[TurnThread<'_, V>],
    reader_threads: &[ReaderThread<'_, V>],
    audit: &mut Audit<V>,
) -> u64
    requires width { IsWidth V }
    requires shards { HasShards shards × (length lasts.now ≡ 256) }
    requires few { length turn_threads.now ≤ most_writers }
    requires tried { HaveTriedWhole load turn_threads.now }
    requires noted { HaveAllNoted load reader_threads.now }
    requires can { CanAudit V load (length turn_threads.now) audit.old }
    ensures right { result ≡ 0 → (n : ℕ) → n < shards →
        IsRightIn load.shape.mix shards (all_tries turn_threads.now) (answers_of reader_threads.now) (slice_index lasts.now n) n }
{
    let mut wrong: u64 = 0;
    for shard in 0..shards {
        let share = Share {
            mix: load.shape.mix,
            shards,
            shard,
        };
        let last = lasts[shard as usize];
        let found = check_shard(
            alloc,
            load,
            share,
            last,
            turn_threads,
            reader_threads,
            audit,
        );
        wrong = wrong.saturating_add(found);
    }
    wrong
}

/// Checks the answers of all workers, shard by shard, and adds them up.
pub(crate) fn run_of<const V: usize>(
    alloc: Global,
    load: Load,
    shards: u32,
    seated: Seated<'_, V>,
) -> TurnsRun
    requires width { IsWidth V }
    requires run { (s : Sharded) × HasRun s load shards (vec_len seated.turn_threads) seated }
    ensures { RunsTurns V load shards (vec_len seated.entry.turn_threads) result }
{
    let Seated {
        turn_threads,
        mut reader_threads,
        mut audit,
    } = seated;
    let turn_threads = turn_threads.as_slice();
    let lasts = last_moments(load, shards, turn_threads, &mut reader_threads);
    let reader_threads = reader_threads.as_slice();
    let wrong = check_all(
        alloc,
        load,
        shards,
        &lasts,
        turn_threads,
        reader_threads,
        &mut audit,
    );
    let answers = answers_of(load, reader_threads);
    let (turns, changes) = tries_of(load, turn_threads);
    let report = DeskReport {
        lookups: answers.lookups,
        found: answers.found,
        absent: answers.absent,
        busy: answers.busy,
        calls: turns.held + turns.answered,
        held: turns.held,
        answered: turns.answered,
        changes,
        wrong,
    };
    TurnsRun {
        report,
        turns: turns_of(load, turn_threads),
    }
}
