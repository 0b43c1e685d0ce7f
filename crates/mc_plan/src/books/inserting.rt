//! How a key that is not there is put: where it finds room, by three steps, each costlier than the one before, how it is stored
//! there, and whose item it takes once a sweep is over.
ghost use Rattle.std.specs.Prelude.{ℕ, ◌≡◌, ◌+◌, ◌*◌, ◌^◌, ◌<◌, ◌≤◌, [], ◌∷◌, List, MatchOption, length};
ghost use Rattle.mc_words.specs.Chains.{IsOccupied};
ghost use Rattle.mc_words.specs.Checks.{shape_of};
ghost use Rattle.mc_words.specs.KeyParts.{HasParts};
ghost use Rattle.mc_words.specs.Places.{IsWidth, word_count};
ghost use Rattle.mc_words.specs.Standing.{IsFree};
ghost use Rattle.mc_theory.specs.States.{State};
ghost use Rattle.mc_plan.specs.Decisions.{acts_of_moves};
ghost use Rattle.mc_plan.specs.Moves.{AreKeys, AreTaken};
ghost use Rattle.mc_plan.specs.Plans.{moves_acts};
ghost use Rattle.mc_search.specs.Paths.{first_place, path_of_room};
ghost use Rattle.mc_search.specs.Readable.{IsFilled};

use crate::answer::{Put, PutError};
use crate::books::Books;
use crate::decision::{Move, Moves, Replacement, Storing, Victim};
use crate::moves::path_moves;
use crate::waiting::Waiting;
use mc_search::{
    OneMove, Pick, Room, find_hole, find_move, is_large, key_at, key_in, moment, place_of, slot_at,
    touch_bucket,
};
use mc_theory::Peek;
use mc_words::{Checked, KeyParts};

// The one move that makes room.
// Condition: the words reach as far as the shape says, each slot is empty or names an item, and the place is occupied.
#[inline(always)]
fn move_of<const V: usize, P: Peek>(checked: &Checked, peek: &mut P, one: OneMove) -> Move
    requires width { IsWidth V }
    requires words { word_count V (shape_of checked.now) ≤ length (P.words peek.old) }
    requires filled { IsFilled (shape_of checked.now) (P.words peek.old) }
    requires taken { IsOccupied (shape_of checked.now) (P.words peek.old) one.from }
    ensures moves { acts_of_moves (result ∷ []) ≡ moves_acts V (shape_of checked.now) (P.words peek.old) (one.from ∷ []) one.hole }
    ensures keys { AreKeys V (shape_of checked.now) (P.words peek.old) (one.from ∷ []) }
    ensures kept { peek.new ≡ peek.old }
{
    let word = slot_at(checked, peek, one.from);
    let key = key_in::<V, P>(checked, peek, word);
    Move {
        key,
        word,
        from: one.from,
        to: one.hole,
    }
}

// Where the key finds room.
impl Books {
    ghost use Rattle.mc_plan.specs.Books.{AreBooksOf, HasRoom, IsLackingKey};
    ghost use Rattle.mc_plan.specs.Deciding.{IsCrowdedOut, IsWithoutPath};

    /// If the table is large and no item is free, loads a word of each bucket that may have the key of the item whose bit is read first: the
    /// put is likely to evict that key, and the processor waits for these words while it still waits for those of the put's own buckets.
    #[inline(always)]
    fn look_ahead<const V: usize, P: Peek>(&self, peek: &mut P)
        requires books { (s : State V) × AreBooksOf V self.now s × (P.words peek.old ≡ s.words) }
        ensures kept { peek.new ≡ peek.old }
    {
        if !is_large(&self.checked) || !self.free.is_empty() {
            return;
        }
        let item = self.free.first_read().unwrap_or(self.hand);
        let key = key_at::<V, P>(&self.checked, peek, item);
        let parts = self.checked.parts(key);
        touch_bucket(&self.checked, peek, parts.first);
        touch_bucket(&self.checked, peek, parts.second);
    }

    /// A hole in one of the key's two buckets.
    /// Condition: `decide` has just answered `Insert` for the key, which has these parts.
    #[inline(always)]
    pub fn near<const V: usize, P: Peek>(&self, peek: &mut P, parts: KeyParts) -> Option<Room>
        requires lacks { (k at : ℕ) × (v : List ℕ) × (s : State V) × IsLackingKey V self.now k v s at ×
            HasParts (shape_of self.now.checked) k parts × (P.words peek.old ≡ s.words) }
        ensures room { (k at : ℕ) (v : List ℕ) (s : State V) → IsLackingKey V self.now k v s at →
            HasParts (shape_of self.now.checked) k parts → P.words peek.old ≡ s.words →
            MatchOption result (IsCrowdedOut V self.now k v s at) (HasRoom V self.now k v s at) }
        ensures kept { peek.new ≡ peek.old }
    {
        self.look_ahead::<V, P>(peek);
        match find_hole(&self.checked, peek, parts) {
            Some(hole) => Some(Room::Hole(hole)),
            None => None,
        }
    }

    /// One move, for a key whose two buckets are full.
    /// Condition: `near` has just found no hole for the key, which has these parts.
    #[inline(always)]
    pub fn by_move<const V: usize, P: Peek>(&self, peek: &mut P, parts: KeyParts) -> Option<Room>
        requires crowded { (k at : ℕ) × (v : List ℕ) × (s : State V) × IsCrowdedOut V self.now k v s at ×
            HasParts (shape_of self.now.checked) k parts × (P.words peek.old ≡ s.words) }
        ensures room { (k at : ℕ) (v : List ℕ) (s : State V) → IsCrowdedOut V self.now k v s at →
            HasParts (shape_of self.now.checked) k parts → P.words peek.old ≡ s.words →
            MatchOption result (IsCrowdedOut V self.now k v s at) (HasRoom V self.now k v s at) }
        ensures kept { peek.new ≡ peek.old }
    {
        match find_move::<V, P>(&self.checked, peek, parts) {
            Some(one) => Some(Room::Move(one)),
            None => None,
        }
    }

    /// A path of moves, for a key whose two buckets are full. `None`: the put is refused.
    /// Condition: `near` has found no hole for the key, which has these parts.
    pub fn by_path<const V: usize, P: Peek>(
        &mut self,
        peek: &mut P,
        parts: KeyParts,
    ) -> Option<Room>
        requires crowded { (k at : ℕ) × (v : List ℕ) × (s : State V) × IsCrowdedOut V self.old k v s at ×
            HasParts (shape_of self.old.checked) k parts × (P.words peek.old ≡ s.words) }
        ensures room { (k at : ℕ) (v : List ℕ) (s : State V) → IsCrowdedOut V self.old k v s at →
            HasParts (shape_of self.old.checked) k parts → P.words peek.old ≡ s.words →
            MatchOption result (IsWithoutPath V self.new k v s) (HasRoom V self.new k v s at) }
        ensures shape { self.new.checked ≡ self.old.checked }
        ensures kept { peek.new ≡ peek.old }
    {
        let far = &mut *self.far;
        if far.finder.far(peek, parts, &mut far.path) {
            Some(Room::Path)
        } else {
            None
        }
    }

    /// The first room of the three steps. `None`: the put is refused.
    /// Condition: as for `near`.
    pub fn room<const V: usize, P: Peek>(&mut self, peek: &mut P, parts: KeyParts) -> Option<Room>
        requires lacks { (k at : ℕ) × (v : List ℕ) × (s : State V) × IsLackingKey V self.old k v s at ×
            HasParts (shape_of self.old.checked) k parts × (P.words peek.old ≡ s.words) }
        ensures room { (k at : ℕ) (v : List ℕ) (s : State V) → IsLackingKey V self.old k v s at →
            HasParts (shape_of self.old.checked) k parts → P.words peek.old ≡ s.words →
            MatchOption result (IsWithoutPath V self.new k v s) (HasRoom V self.new k v s at) }
        ensures shape { self.new.checked ≡ self.old.checked }
        ensures kept { peek.new ≡ peek.old }
    {
        if let Some(room) = self.near::<V, P>(peek, parts) {
            return Some(room);
        }
        if let Some(room) = self.by_move::<V, P>(peek, parts) {
            return Some(room);
        }
        self.by_path::<V, P>(peek, parts)
    }
}

// How it is stored there.
impl Books {
    ghost use Rattle.mc_plan.specs.Books.{HasRoom};
    ghost use Rattle.mc_plan.specs.Deciding.{IsInserted};
    ghost use Rattle.mc_plan.specs.Decisions.{moves_of, storing_told};

    /// The moves of the last key for which a path made room.
    pub fn listed(&self) -> &[Move]
        ensures moves { result.now ≡ self.now.far.value.moves.items }
        ensures few { length result.now ≤ 8 }
    {
        self.far.moves.as_slice()
    }

    /// The answer of the put of a key that is stored so, with the key that was taken out for it.
    /// Condition: it is the last key that was inserted.
    #[inline(always)]
    pub fn told(&self, storing: Storing, evicted: Option<u64>) -> Put
        ensures { result ≡ storing_told self.now.far.value.moves.items storing evicted }
    {
        let moves = match storing.moves {
            Moves::Unneeded => 0,
            Moves::One(_) => 1,
            Moves::Listed => self.far.moves.len() as u8,
        };
        Put::Stored {
            at: storing.at,
            moves,
            evicted,
        }
    }

    /// How a new key is stored that finds this room. The version changes of its moves are counted, and these of the put beside them.
    #[inline(always)]
    pub(crate) fn store<const V: usize, P: Peek>(
        &mut self,
        peek: &mut P,
        room: Room,
        item: u32,
        at: u64,
        changes: u64,
    ) -> Storing
        requires width { IsWidth V }
        requires words { word_count V (shape_of self.old.checked) ≤ length (P.words peek.old) }
        requires filled { IsFilled (shape_of self.old.checked) (P.words peek.old) }
        requires taken { AreTaken (shape_of self.old.checked) (P.words peek.old) (path_of_room self.old.far.value.path room).places.items }
        requires few { changes ≤ 4 }
        requires room { self.old.version_steps < 2 ^ 63 }
        ensures item { result.item ≡ item }
        ensures at { result.at ≡ at }
        ensures place { result.place ≡ first_place (path_of_room self.old.far.value.path room).places.items (path_of_room self.old.far.value.path room).hole }
        ensures moves { acts_of_moves (moves_of self.new.far.value.moves.items result.moves) ≡
            moves_acts V (shape_of self.old.checked) (P.words peek.old) (path_of_room self.old.far.value.path room).places.items (path_of_room self.old.far.value.path room).hole }
        ensures many { length (moves_of self.new.far.value.moves.items result.moves) ≡ length (path_of_room self.old.far.value.path room).places.items }
        ensures keys { AreKeys V (shape_of self.old.checked) (P.words peek.old) (path_of_room self.old.far.value.path room).places.items }
        ensures books { self.new ≡ record self.old {
          version_steps = self.old.version_steps + (2 * length (path_of_room self.old.far.value.path room).places.items + changes);
          far = record self.old.far { value = record self.old.far.value { moves = self.new.far.value.moves } };
        } }
        ensures kept { peek.new ≡ peek.old }
    {
        match room {
            Room::Hole(place) => {
                self.version_steps += changes;
                Storing {
                    item,
                    place,
                    moves: Moves::Unneeded,
                    at,
                }
            }
            Room::Move(one) => {
                let moved = move_of::<V, P>(&self.checked, peek, one);
                self.version_steps += 2 + changes;
                Storing {
                    item,
                    place: one.from,
                    moves: Moves::One(moved),
                    at,
                }
            }
            Room::Path => {
                let far = &mut *self.far;
                path_moves::<V, P>(&self.checked, peek, &far.path, &mut far.moves);
                self.version_steps += 2 * far.moves.len() as u64 + changes;
                Storing {
                    item,
                    place: far.path.first(),
                    moves: Moves::Listed,
                    at,
                }
            }
        }
    }

    /// Decides the put of a key that is not there, where it finds this room. `None`: no item is free, and one is to be searched.
    /// Condition: `near`, `by_move`, `by_path` or `room` has just found it, for a key that `decide` has answered with this `at`. `mixed` is the
    /// key, mixed.
    #[inline(always)]
    pub fn insert<const V: usize, P: Peek>(
        &mut self,
        peek: &mut P,
        key: u64,
        mixed: u64,
        room: Room,
        at: u64,
    ) -> Option<Storing>
        requires room { (v : List ℕ) × (s : State V) × HasRoom V self.old key v s at room × (P.words peek.old ≡ s.words) }
        ensures inserted { (v : List ℕ) (s : State V) → HasRoom V self.old key v s at room → P.words peek.old ≡ s.words →
            IsInserted V self.new key v s room result }
        ensures shape { self.new.checked ≡ self.old.checked }
        ensures kept { peek.new ≡ peek.old }
    {
        let Some(item) = self.free.take_least(mixed) else {
            return None;
        };
        Some(self.store::<V, P>(peek, room, item, at, 2))
    }
}

// Whose item it takes.
impl Books {
    ghost use Rattle.mc_plan.specs.WholeCalls.{Call, PutCall};
    ghost use Rattle.mc_plan.specs.Books.{AreBooksOf, IsPickingFor, IsSweeping};
    ghost use Rattle.mc_plan.specs.Deciding.{IsFinished, IsReplaced};
    ghost use Rattle.mc_plan.specs.Evicting.{IsVictim};
    ghost use Rattle.mc_plan.specs.Inside.Clerks.{IsReplacing};
    ghost use Rattle.mc_search.specs.Items.{IsUsedIn};
    ghost use Rattle.mc_search.specs.Sweeps.{IsOver, Swept};

    /// The key at an item, if a slot names the item: its parts, and its slot.
    /// Condition: the books are those of the table whose words are looked at, but perhaps for the hand.
    #[inline(always)]
    pub fn named<const V: usize, P: Peek>(&self, peek: &mut P, item: u32) -> Option<Victim>
        requires books { (hand : ℕ) × (s : State V) × AreBooksOf V (record self.now { hand = hand }) s × (P.words peek.old ≡ s.words) }
        requires in_items { item < (shape_of self.now.checked).items }
        ensures named { (hand : ℕ) (s : State V) → AreBooksOf V (record self.now { hand = hand }) s → P.words peek.old ≡ s.words →
            MatchOption result (IsFree (shape_of self.now.checked) s.words item) (IsVictim V self.now s item) }
        ensures kept { peek.new ≡ peek.old }
    {
        let key = key_at::<V, P>(&self.checked, peek, item);
        let parts = self.checked.parts(key);
        let Some(place) = place_of::<V, P>(&self.checked, peek, key, parts, item) else {
            return None;
        };
        Some(Victim { key, parts, place })
    }

    /// The key at an item in use. Condition: as for `named`.
    #[inline(always)]
    pub(crate) fn victim<const V: usize, P: Peek>(&self, peek: &mut P, item: u32) -> Victim
        requires books { (hand : ℕ) × (s : State V) × AreBooksOf V (record self.now { hand = hand }) s × (P.words peek.old ≡ s.words) }
        requires in_use { IsUsedIn self.now.free item }
        ensures victim { (hand : ℕ) (s : State V) → AreBooksOf V (record self.now { hand = hand }) s → P.words peek.old ≡ s.words →
            IsVictim V self.now s item result }
        ensures kept { peek.new ≡ peek.old }
    {
        let Some(victim) = self.named::<V, P>(peek, item) else {
            unreachable!();
        };
        victim
    }

    /// Decides how the key at the item is replaced by this one. The room is cut at the old key's slot.
    #[inline(always)]
    fn replace<const V: usize, P: Peek>(
        &mut self,
        peek: &mut P,
        key: u64,
        mixed: u64,
        room: Room,
        item: u32,
    ) -> Replacement
        requires books { (v : List ℕ) × (call : Call) × (s : State V) × (rs : List Swept) × IsReplacing V self.old key v room call s rs item × (P.words peek.old ≡ s.words) }
        ensures replaced { (v : List ℕ) (call : Call) (s : State V) (rs : List Swept) →
            IsReplacing V self.old key v room call s rs item → P.words peek.old ≡ s.words →
            IsReplaced V self.new key v call s rs result }
        ensures shape { self.new.checked ≡ self.old.checked }
        ensures kept { peek.new ≡ peek.old }
    {
        let at = moment(&self.checked, peek) + 2;
        let victim = self.victim::<V, P>(peek, item);
        let left = room.cut_at(victim.place, &mut self.far.path);
        let storing = self.store::<V, P>(peek, left, item, at, 4);
        self.free.hand_on(item, victim.parts.mixed, mixed);
        Replacement { victim, storing }
    }

    /// Decides the rest of a put whose sweep is over.
    /// Condition: the put waits by these books, its sweep is over, and the words are those of its beginning.
    #[inline(always)]
    pub fn finish<const V: usize, P: Peek>(
        &mut self,
        peek: &mut P,
        waiting: &Waiting<V>,
        mixed: u64,
    ) -> Result<Replacement, PutError>
        requires over { (call : Call) × (s : State V) × (rs : List Swept) × IsSweeping V self.old waiting.now call s rs ×
            IsOver (shape_of self.old.checked).items rs × (P.words peek.old ≡ s.words) }
        ensures finished { (call : Call) (s : State V) (rs : List Swept) →
            IsSweeping V self.old waiting.now call s rs → IsOver (shape_of self.old.checked).items rs →
            P.words peek.old ≡ s.words → IsFinished V self.new waiting.now.key waiting.now.value call s rs result }
        ensures shape { self.new.checked ≡ self.old.checked }
        ensures kept { peek.new ≡ peek.old }
    {
        self.hand = waiting.sweep.hand();
        match waiting.sweep.victim() {
            Some(item) => Ok(self.replace::<V, P>(peek, waiting.key, mixed, waiting.room, item)),
            None => Err(PutError::AllRecent),
        }
    }

    /// Decides the rest of a put of this key, whose search by new and proven items is over.
    /// Condition: the put waits by these books, its search is over, and the words are those of its beginning.
    #[inline(always)]
    pub fn finish_picked<const V: usize, P: Peek>(
        &mut self,
        peek: &mut P,
        pick: &Pick,
        key: u64,
        mixed: u64,
        room: Room,
    ) -> Result<Replacement, PutError>
        requires over { (v : List ℕ) × (s : State V) × (rs : List Swept) × IsPickingFor V self.old pick.now key v room s rs ×
            IsOver (shape_of self.old.checked).items rs × (P.words peek.old ≡ s.words) }
        ensures finished { (v : List ℕ) (s : State V) (rs : List Swept) →
            IsPickingFor V self.old pick.now key v room s rs → IsOver (shape_of self.old.checked).items rs →
            P.words peek.old ≡ s.words → IsFinished V self.new key v (PutCall key v) s rs result }
        ensures shape { self.new.checked ≡ self.old.checked }
        ensures kept { peek.new ≡ peek.old }
    {
        match self.free.victim(pick) {
            Some(item) => Ok(self.replace::<V, P>(peek, key, mixed, room, item)),
            None => Err(PutError::AllRecent),
        }
    }
}
