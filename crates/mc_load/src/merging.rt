//! The changes of one shard that the answers of several writers report, in the order in which they were made.
ghost use Rattle.std.specs.Prelude.{◌≡◌, ◌==◌, ◌+◌, ◌*◌, ◌≤◌, ◌++◌, length, vec_len, vec_capacity};
ghost use Rattle.mc_words.specs.Keys.{shard_of};
ghost use Rattle.mc_words.specs.Places.{IsWidth};
ghost use Rattle.mc_words.specs.Shapes.{HasShards};
ghost use Rattle.mc_load.specs.Dates.{AreMoments, changes_of};
ghost use Rattle.mc_load.specs.ShardLoads.{most_writers};
ghost use Rattle.mc_load.specs.Turns.{changes_in, journals_in};
ghost use Rattle.mc_load.specs.Inside.Sums.{all_tries};
ghost use Rattle.mc_load.specs.Inside.Tries.{HaveTriedWhole};

use crate::asked::Load;
use crate::dated::Dated;
use crate::turn_thread::TurnThread;
use mc_cache::{Change, Mix};
use mc_check::key_of;

/// Which keys a shard has.
#[derive(Clone, Copy)]
pub(crate) struct Share {
    pub(crate) mix: Mix,
    /// How many shards there are.
    pub(crate) shards: u32,
    pub(crate) shard: u32,
    ghost many: { HasShards shards },
}

impl Share {
    /// Whether the key is one of them.
    pub(crate) fn has(self, key: u64) -> bool
        ensures { result ≡ (shard_of self.mix self.shards key == self.shard) }
    {
        self.mix.shard(key, self.shards) == self.shard
    }
}

/// Appends the changes of the shard's keys to others. There is room for all.
fn append<const V: usize>(all: &mut Vec<Dated<V>>, share: Share, journal: &[Dated<V>])
    requires width { IsWidth V }
    requires room { vec_len all.old + length journal.now ≤ vec_capacity all.old }
    ensures len { vec_len all.new ≤ vec_len all.old + length journal.now }
    ensures capacity { vec_capacity all.new ≡ vec_capacity all.old }
    ensures items { all.new.items ≡ all.old.items ++ changes_in share.mix share.shards share.shard journal.now }
{
    for n in 0..journal.len() {
        if share.has(key_of(&journal[n].change)) {
            all.push_reserved(journal[n]);
        }
    }
}

/// Writes the changes of the shard that the answers of all writers report into one list.
pub(crate) fn gather<const V: usize>(
    load: Load,
    share: Share,
    turn_threads: &[TurnThread<'_, V>],
    all: &mut Vec<Dated<V>>,
)
    requires width { IsWidth V }
    requires few { length turn_threads.now ≤ most_writers }
    requires tried { HaveTriedWhole load turn_threads.now }
    requires empty { vec_len all.old ≡ 0 }
    requires room { 2 * load.writes * length turn_threads.now ≤ vec_capacity all.old }
    ensures len { vec_len all.new ≤ 2 * load.writes * length turn_threads.now }
    ensures capacity { vec_capacity all.new ≡ vec_capacity all.old }
    ensures items { all.new.items ≡ all.old.items ++ journals_in share.mix share.shards share.shard (all_tries turn_threads.now) }
{
    let _load = load;
    for n in 0..turn_threads.len() {
        append(all, share, turn_threads[n].journal.as_slice());
    }
}

/// How many moments up to the last are missing or repeated, or are beyond it. The changes are in the order of their moments.
pub(crate) fn misplaced<const V: usize>(all: &[Dated<V>], last: u64) -> u64
    ensures right { result ≡ 0 → AreMoments all.now × (last ≡ length all.now) }
    ensures none { AreMoments all.now → last ≡ length all.now → result ≡ 0 }
{
    let mut wrong: u64 = 0;
    let mut moment: u64 = 0;
    for n in 0..all.len() {
        let at = all[n].at;
        if at > moment {
            wrong = wrong.saturating_add(at - moment - 1);
            moment = at;
        } else {
            wrong = wrong.saturating_add(1);
        }
    }
    wrong.saturating_add(last.abs_diff(moment))
}

/// Writes the changes without their moments. There is room for them.
pub(crate) fn write_history<const V: usize>(history: &mut Vec<Change<V>>, all: &[Dated<V>])
    requires width { IsWidth V }
    requires room { vec_len history.old + length all.now ≤ vec_capacity history.old }
    ensures len { vec_len history.new ≡ vec_len history.old + length all.now }
    ensures capacity { vec_capacity history.new ≡ vec_capacity history.old }
    ensures items { history.new.items ≡ history.old.items ++ changes_of all.now }
{
    for n in 0..all.len() {
        history.push_reserved(all[n].change);
    }
}
