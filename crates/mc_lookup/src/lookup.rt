//! The reader's machine: one access after the other.
ghost use Rattle.std.specs.Prelude.{◌≡◌, ◌<◌, ◌≤◌, length};
ghost use Rattle.mc_words.specs.Checks.{shape_of};
ghost use Rattle.mc_words.specs.KeyParts.{HasParts};
ghost use Rattle.mc_words.specs.Keys.{tag_of, stripe_of, slot_word};
ghost use Rattle.mc_lookup.specs.Inside.Stages.{slot_at, item_at, word_at, tries_owed};

use crate::stage::Stage;
use mc_theory::Access;
use mc_words::{Checked, KeyParts, Reply};

mod stages;

/// A lookup of one key. Ask it what to read `next`, and give it the word that was read there, until it has its reply.
#[derive(Clone, Copy)]
pub struct Lookup<const V: usize> {
    checked: Checked,
    key: u64,
    /// The word of a slot that names item 0 under the key's tag.
    base: u64,
    parts: KeyParts,
    /// How many tries are left, with the running one only at its start.
    tries: u8,
    version: u64,
    value: [u64; V],
    since: u64,
    stage: Stage,
    reply: Reply<V>,
    ghost some_words: { 1 ≤ V },
    ghost most_words: { V ≤ 8 },
    ghost whole: { length value ≡ V },
    ghost base_is: { base ≡ slot_word (tag_of (shape_of checked) key) 0 },
    ghost parts_are: { HasParts (shape_of checked) key parts },
    ghost slot_in: { slot_at stage < 8 },
    ghost item_in: { item_at stage < (shape_of checked).items },
    ghost word_in: { word_at stage < V },
    ghost tried: { tries_owed stage ≤ tries },
}

impl<const V: usize> Lookup<V> {
    ghost use Rattle.std.specs.Prelude.{◌+◌, ◌*◌, ◌↔◌, ℕ, List, Some, None, IfSome, IsSome};
    ghost use Rattle.mc_words.specs.Places.{IsWidth, payload};
    ghost use Rattle.mc_words.specs.declared.history.Reply.{Reply};
    ghost use Rattle.mc_theory.specs.Lookups.{IsLookup};
    ghost use Rattle.mc_theory.specs.Readings.{Reading};
    ghost use Rattle.mc_theory.specs.Writes.{IsAccess};
    ghost use Rattle.mc_lookup.specs.Machine.{shape_for, stage_of, next_access, reply_now, IsRemainder, Consumes, steps_left};
    ghost use Rattle.mc_theory.specs.declared.access.Access.{Access};

    /// The lookup of a key, with nothing read yet. Condition: a value has from 1 to 8 words.
    pub fn begin(checked: &Checked, key: u64) -> Lookup<V>
        requires { IsWidth V }
        ensures shape { shape_for {V = V} result ≡ shape_of checked.now }
        ensures key { result.key ≡ key }
        ensures left { (rs : List Reading) (reply : Reply V) → IsRemainder {V = V} result rs reply ↔
            IsLookup V (shape_of checked.now) key (shape_of checked.now).tries rs reply }
        ensures steps { steps_left {V = V} result ≡ (shape_of checked.now).tries * (19 + payload V) + 1 }
        ensures running { IsSome (next_access {V = V} result) }
        ensures stage { stage_of {V = V} result ≡ Stage.First }
    {
        let parts = checked.parts(key);
        Lookup {
            checked: *checked,
            key,
            base: checked.slot_word(parts.tag, 0),
            parts,
            tries: checked.shape().tries,
            version: 0,
            value: [0; V],
            since: 0,
            stage: Stage::First,
            reply: Reply::Busy,
        }
    }

    /// The key that is looked up.
    pub fn key(&self) -> u64
        ensures { result ≡ self.now.key }
    {
        self.key
    }

    /// The stripe of the key.
    pub fn stripe(&self) -> u32
        ensures { result ≡ stripe_of (shape_for {V = V} self.now) self.now.key }
    {
        self.parts.stripe
    }

    /// The stage of the lookup.
    pub fn stage(&self) -> Stage
        ensures { result ≡ stage_of {V = V} self.now }
    {
        self.stage
    }

    /// The access that comes next, until the lookup has its reply.
    pub fn next(&self) -> Option<Access>
        ensures next { result ≡ next_access {V = V} self.now }
        ensures range { IfSome result (λ (a : Access). IsAccess V (shape_for {V = V} self.now) a) }
    {
        match self.stage {
            Stage::First | Stage::Last(_, _) => Some(Access::Version(self.parts.stripe)),
            Stage::Slot(j) => Some(Access::Slot(self.place(j))),
            Stage::Key(_, i) => Some(Access::Key(i)),
            Stage::Value(i, count) => Some(Access::Value(i, count + 1)),
            Stage::Stamp(i) => Some(Access::Stamp(i)),
            Stage::Moment(_) => Some(Access::Moment),
            Stage::Mark(i) => Some(Access::Mark(i)),
            Stage::Over => None,
        }
    }

    /// The reply, once nothing is left to read.
    pub fn reply(&self) -> Option<Reply<V>>
        ensures reply { result ≡ reply_now {V = V} self.now }
        ensures over { IsSome result ↔ (next_access {V = V} self.now ≡ None) }
    {
        match self.stage {
            Stage::Over => Some(self.reply),
            _ => None,
        }
    }

    /// Takes the word that the next access read. A mark reads nothing, so its word isn't looked at.
    /// Condition: there is a next access.
    pub fn after(&mut self, word: u64)
        requires { IsSome (next_access {V = V} self.old) }
        ensures { IfSome (next_access {V = V} self.old) (λ (a : Access). Consumes {V = V} self.old a word self.new) }
    {
        match self.stage {
            Stage::First => {
                let _ = self.after_first(word);
            }
            Stage::Slot(j) => {
                let _ = self.after_slot(j, word);
            }
            Stage::Key(j, i) => {
                let _ = self.after_key(j, i, word);
            }
            Stage::Value(i, count) => self.after_value(i, count, word),
            Stage::Stamp(i) => self.after_stamp(i, word),
            Stage::Moment(hit) => self.after_moment(hit, word),
            Stage::Last(hit, at) => {
                let _ = self.after_last(hit, at, word);
            }
            Stage::Mark(i) => self.after_mark(i),
            Stage::Over => {}
        }
    }
}
