//! How many answers are wrong.
ghost use Rattle.std.specs.Prelude.{◌≡◌, ◌≤◌, length};
ghost use Rattle.std.specs.Bool.{Decides};
ghost use Rattle.mc_words.specs.History.{IsTrueAnswer};
ghost use Rattle.mc_words.specs.Places.{IsWidth};
ghost use Rattle.mc_check.specs.Wrong.{AreWrong};
ghost use Rattle.mc_check.specs.Inside.Last.{IsLast};

use crate::last::last_change;
use crate::mentions::{Mention, last_mention, mentions_of};
use crate::record::{Record, is_true, moment_of};
use mc_words::Change;
use std::alloc::Global;
use std::marker::Model;

/// Checks records against one history. Contracts see it as this history.
#[derive(Drop)]
pub struct Checker<'h, const V: usize> {
    history: &'h [Change<V>],
    mentions: Option<Vec<Mention>>,
}

impl<'h, const V: usize> Model for Checker<'h, V> {
    ghost use Rattle.std.specs.Prelude.{List, IfSome};
    ghost use Rattle.mc_words.specs.declared.history.Change.{Change};
    ghost use Rattle.mc_words.specs.Places.{IsWidth};
    ghost use Rattle.mc_check.specs.Inside.Mentions.{AreMentionsOf};

    ghost Value = { List (Change V) };

    ghost view = { λ c. c.history.now };

    ghost invariant = { λ c. IsWidth V × IfSome c.mentions (λ ms. AreMentionsOf c.history.now ms.items) };
}

impl<'h, const V: usize> Checker<'h, V> {
    /// A checker that looks for a record's last change from the record's moment backwards. It takes no memory.
    pub fn scanning(history: &'h [Change<V>]) -> Checker<'h, V>
        requires { IsWidth V }
        ensures { result ≡ history.now }
    {
        Checker {
            history,
            mentions: None,
        }
    }

    /// A checker that finds a record's last change in a logarithmic number of steps. Without memory for the sorted changes, it scans.
    pub fn sorted(alloc: Global, history: &'h [Change<V>]) -> Checker<'h, V>
        requires { IsWidth V }
        ensures { result ≡ history.now }
    {
        Checker {
            history,
            mentions: mentions_of(alloc, history).ok(),
        }
    }

    /// The last change of the key among the first `moment` changes.
    fn last(&self, key: u64, moment: usize) -> Option<usize>
        requires { moment ≤ length self.now }
        ensures { IsLast self.now key moment result }
    {
        match &self.mentions {
            Some(mentions) => last_mention(mentions.as_slice(), key, moment),
            None => last_change(self.history, key, moment),
        }
    }

    /// Whether the answer is what the map held after the changes that it names.
    fn is_true(&self, told: &Record<V>) -> bool
        ensures { Decides result (IsTrueAnswer self.now told.now.key told.now.reply) }
    {
        let moment = moment_of(&told.reply);
        if moment > self.history.len() as u64 {
            return false;
        }
        let last = self.last(told.key, moment as usize);
        is_true(self.history, told, last)
    }

    /// The number of wrong records.
    pub fn check(&self, records: &[Record<V>]) -> u64
        ensures { AreWrong self.now records.now result }
    {
        let mut wrong = 0;
        for n in 0..records.len() {
            if !self.is_true(&records[n]) {
                wrong += 1;
            }
        }
        wrong
    }
}

/// The number of wrong records. It takes no memory. Condition: a value has from 1 to 8 words.
pub fn check<const V: usize>(history: &[Change<V>], records: &[Record<V>]) -> u64
    requires { IsWidth V }
    ensures { AreWrong history.now records.now result }
{
    Checker::scanning(history).check(records)
}
