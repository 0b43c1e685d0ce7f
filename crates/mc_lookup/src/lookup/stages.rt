//! One method a stage of a lookup. A caller that knows the stage may call it in place of `after`.
ghost use Rattle.std.specs.Prelude.{◌≡◌, ◌+◌, ◌<◌, ℕ, MatchOption, MatchBool, Some, None};
ghost use Rattle.mc_words.specs.Keys.{tag_of, MatchesTag};
ghost use Rattle.mc_lookup.specs.Machine.{shape_for, stage_of, lookup_place, slots_from, values_from, stage_after_try, IsRestart, Consumes};
ghost use Rattle.mc_lookup.specs.Inside.Machine.{Restarts};
ghost use Rattle.mc_theory.specs.declared.access.Access.{Access};
ghost use Rattle.mc_lookup.specs.declared.stage.Stage.{Stage};

use crate::lookup::Lookup;
use crate::stage::Stage;
use mc_words::{Place, Reply};

impl<const V: usize> Lookup<V> {
    /// The place of one of the eight slots. Condition: `j` is below 8.
    pub fn place(&self, j: u8) -> Place
        requires { j < 8 }
        ensures { result ≡ lookup_place {V = V} self.now j }
    {
        if j < 4 {
            Place {
                bucket: self.parts.first,
                slot: j,
            }
        } else {
            Place {
                bucket: self.parts.second,
                slot: j - 4,
            }
        }
    }

    /// The item that the word of a slot names under the key's tag.
    fn met(&self, word: u64) -> Option<u32>
        ensures { MatchesTag (shape_for {V = V} self.now) (tag_of (shape_for {V = V} self.now) self.now.key) word result }
    {
        self.checked.tag_match(self.base, word)
    }

    /// A reading of the version at the start of a try. Whether the try continues: an odd version spoils it.
    /// Condition: the lookup is at its first stage.
    pub fn after_first(&mut self, word: u64) -> bool
        requires { stage_of {V = V} self.old ≡ Stage.First }
        ensures takes { Consumes {V = V} self.old (Access.Version self.old.parts.stripe) word self.new }
        ensures goes { MatchBool result (stage_of {V = V} self.new ≡ Stage.Slot 0) (IsRestart (stage_of {V = V} self.new)) }
    {
        self.stage = Stage::Slot(0);
        self.tries -= 1;
        if word % 2 == 0 {
            self.version = word;
            true
        } else {
            self.try_again();
            false
        }
    }

    /// A reading of one of the eight slots. The item whose key is to be read, if the slot names one under the key's tag.
    /// Condition: the lookup is at slot `j`.
    pub fn after_slot(&mut self, j: u8, word: u64) -> Option<u32>
        requires { stage_of {V = V} self.old ≡ Stage.Slot j }
        ensures takes { Consumes {V = V} self.old (Access.Slot (lookup_place {V = V} self.old j)) word self.new }
        ensures goes { MatchOption result (stage_of {V = V} self.new ≡ slots_from (j + 1)) (λ i. stage_of {V = V} self.new ≡ Stage.Key (j + 1) i) }
    {
        let met = self.met(word);
        self.stage = match met {
            Some(i) => Stage::Key(j + 1, i),
            None => Self::before_slot(j + 1),
        };
        met
    }

    /// The stage at which this slot comes next.
    fn before_slot(j: u8) -> Stage
        ensures { result ≡ slots_from j }
    {
        if j < 8 {
            Stage::Slot(j)
        } else {
            Stage::Moment(None)
        }
    }

    /// A reading of the key of an item. Whether it is the key that is looked up.
    /// Condition: the lookup is at the key of that item, and continues with slot `j`.
    pub fn after_key(&mut self, j: u8, i: u32, word: u64) -> bool
        requires { stage_of {V = V} self.old ≡ Stage.Key j i }
        ensures takes { Consumes {V = V} self.old (Access.Key i) word self.new }
        ensures goes { MatchBool result (stage_of {V = V} self.new ≡ Stage.Value i 0) (stage_of {V = V} self.new ≡ slots_from j) }
    {
        let found = word == self.key;
        self.stage = if found {
            Stage::Value(i, 0)
        } else {
            Self::before_slot(j)
        };
        found
    }

    /// A reading of a word of the value, of which this many were read before.
    /// Condition: the lookup is at that word of the item.
    pub fn after_value(&mut self, i: u32, count: u8, word: u64)
        requires { stage_of {V = V} self.old ≡ Stage.Value i count }
        ensures takes { Consumes {V = V} self.old (Access.Value i (count + 1)) word self.new }
        ensures goes { stage_of {V = V} self.new ≡ values_from V i (count + 1) }
    {
        self.value[count as usize] = word;
        self.stage = if usize::from(count) + 1 < V {
            Stage::Value(i, count + 1)
        } else {
            Stage::Stamp(i)
        };
    }

    /// A reading of the stamp. Condition: the lookup is at the stamp of that item.
    pub fn after_stamp(&mut self, i: u32, word: u64)
        requires { stage_of {V = V} self.old ≡ Stage.Stamp i }
        ensures takes { Consumes {V = V} self.old (Access.Stamp i) word self.new }
        ensures goes { stage_of {V = V} self.new ≡ Stage.Moment (Some i) }
    {
        self.since = word;
        self.stage = Stage::Moment(Some(i));
    }

    /// A reading of the moment. Condition: the lookup is at the moment, with this hit or none.
    pub fn after_moment(&mut self, hit: Option<u32>, word: u64)
        requires { stage_of {V = V} self.old ≡ Stage.Moment hit }
        ensures takes { Consumes {V = V} self.old Access.Moment word self.new }
        ensures goes { stage_of {V = V} self.new ≡ Stage.Last hit word }
    {
        self.stage = Stage::Last(hit, word);
    }

    /// A reading of the version at the end of a try. Whether the try succeeds: another version than the first spoils it.
    /// Condition: the lookup is at its last version, with this hit or none and this moment.
    pub fn after_last(&mut self, hit: Option<u32>, at: u64, word: u64) -> bool
        requires { stage_of {V = V} self.old ≡ Stage.Last hit at }
        ensures takes { Consumes {V = V} self.old (Access.Version self.old.parts.stripe) word self.new }
        ensures goes { MatchBool result (stage_of {V = V} self.new ≡ stage_after_try hit) (IsRestart (stage_of {V = V} self.new)) }
    {
        if word != self.version {
            self.try_again();
            return false;
        }
        match hit {
            Some(i) => {
                self.reply = Reply::Found {
                    value: self.value,
                    at,
                    since: self.since,
                };
                self.stage = Stage::Mark(i);
            }
            None => {
                self.reply = Reply::Absent { at };
                self.stage = Stage::Over;
            }
        }
        true
    }

    /// The mark of the item at which the key was found. Condition: the lookup is at the mark of that item.
    pub fn after_mark(&mut self, i: u32)
        requires { stage_of {V = V} self.old ≡ Stage.Mark i }
        ensures takes { (word : ℕ) → Consumes {V = V} self.old (Access.Mark i) word self.new }
        ensures goes { stage_of {V = V} self.new ≡ Stage.Over }
    {
        self.stage = Stage::Over;
    }

    /// The next try, or `Busy` if none is left.
    fn try_again(&mut self)
        ensures { Restarts {V = V} self.old self.new }
    {
        if self.tries == 0 {
            self.reply = Reply::Busy;
            self.stage = Stage::Over;
        } else {
            self.stage = Stage::First;
        }
    }
}
