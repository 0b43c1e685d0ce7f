//! The changes of a history in the order of their keys.
ghost use Rattle.std.specs.Prelude.{ℕ, ◌≡◌, ◌≤◌, List, length, IfOk};
ghost use Rattle.std.specs.List.Sorted.{IsNonDecreasingBy};
ghost use Rattle.mc_words.specs.declared.history.Change.{Change};
ghost use Rattle.mc_check.specs.Inside.Last.{IsLast};
ghost use Rattle.mc_check.specs.Inside.Mentions.{AreMentionsOf, IsBound, MentionAll, rank, rank_of};

use crate::last::key_of;
use mc_words::Change;
use std::alloc::{AllocError, Global};

/// The key of one change of a history.
#[derive(Clone, Copy)]
pub(crate) struct Mention {
    key: u64,
    /// How many changes there were before it.
    moment: u64,
}

/// Mentions are sorted by key, and those of one key by moment.
fn rank(key: u64, moment: u64) -> u128
    ensures { result ≡ rank key moment }
{
    (u128::from(key) << 64) | u128::from(moment)
}

/// A mention of each change, in the order of time.
fn mentions_in_time<const V: usize>(
    alloc: Global,
    history: &[Change<V>],
) -> Result<Vec<Mention>, AllocError>
    ensures { IfOk result (λ ms. MentionAll history.now ms.items) }
{
    let mut mentions = Vec::with_capacity(alloc, history.len())?;
    for n in 0..history.len() {
        let key = key_of(&history[n]);
        let moment = n as u64;
        mentions.push(Mention { key, moment })?;
    }
    Ok(mentions)
}

/// A mention of each change, sorted.
pub(crate) fn mentions_of<const V: usize>(
    alloc: Global,
    history: &[Change<V>],
) -> Result<Vec<Mention>, AllocError>
    ensures { IfOk result (λ ms. AreMentionsOf history.now ms.items) }
{
    let mut mentions = mentions_in_time(alloc, history)?;
    mentions.sort_unstable_by_key(|mention| rank(mention.key, mention.moment));
    Ok(mentions)
}

/// How many of the sorted mentions come before this place in their order.
fn count_before(mentions: &[Mention], bound: u128) -> usize
    ensures within { result ≤ length mentions.now }
    ensures bound { IsNonDecreasingBy rank_of mentions.now → IsBound mentions.now bound result }
{
    mentions.partition_point(|mention| rank(mention.key, mention.moment) < bound)
}

/// The last change of the key among the first `moment` changes of the history that these mentions index.
pub(crate) fn last_mention(mentions: &[Mention], key: u64, moment: usize) -> Option<usize>
    ensures { (V : ℕ) (h : List (Change V)) → AreMentionsOf h mentions.now → moment ≤ length h → IsLast h key moment result }
{
    let count = count_before(mentions, rank(key, moment as u64));
    if count == 0 {
        return None;
    }
    let last = mentions[count - 1];
    if last.key == key {
        Some(last.moment as usize)
    } else {
        None
    }
}
