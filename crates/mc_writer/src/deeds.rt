//! The writer's deeds, step by step, and what was decided, deed by deed.
ghost use Rattle.std.specs.Prelude.{◌≡◌, ◌^◌, ◌<◌};
ghost use Rattle.mc_words.specs.Checks.{policy_of};
ghost use Rattle.mc_words.specs.KeyParts.{HasParts};
ghost use Rattle.mc_words.specs.Places.{IsWidth, item_place};
ghost use Rattle.mc_plan.specs.Decisions.{acts_of_moves, filling_acts, moves_of, new_marks, renewal_acts, replacement_acts, storing_acts};
ghost use Rattle.mc_plan.specs.Plans.{value_acts, payload_acts, fill_acts, renew_acts, take_out_acts, move_acts};

use crate::pen::Pen;
use mc_plan::{Books, Move, Moves, Replacement, Storing};
use mc_theory::Deed;
use mc_words::{KeyParts, Place, Policy};

// The condition of each deed is that its acts are due next.
impl<'a, const V: usize> Pen<'a, V> {
    ghost use Rattle.mc_writer.specs.Inside.Pens.{IsDue, HasMade};

    // Writes the words of a value. The items begin at this place.
    #[inline(always)]
    fn write_value(&mut self, items: usize, i: u32, value: &[u64; V])
        requires width { IsWidth V }
        requires items { (items ≡ item_place V self.old.cells.now.layout.shape 0 0) × (items < 2 ^ 40) }
        requires due { IsDue V (value_acts i 1 value.now) self.old }
        ensures made { HasMade V (value_acts i 1 value.now) self.old self.new }
    {
        for j in 0..V {
            self.write_item_from(items, i, j as u8 + 1, value[j]);
        }
    }

    // Writes a value, and after it the stamp: the moment that the put is to have. The items begin at this place. The compiler decides
    // whether it is a call: compiled into each renewal, it takes more instructions.
    fn write_payload(&mut self, items: usize, i: u32, value: &[u64; V], at: u64)
        requires width { IsWidth V }
        requires items { (items ≡ item_place V self.old.cells.now.layout.shape 0 0) × (items < 2 ^ 40) }
        requires due { IsDue V (payload_acts i value.now at) self.old }
        ensures made { HasMade V (payload_acts i value.now at) self.old self.new }
    {
        self.write_value(items, i, value);
        self.write_item_from(items, i, V as u8 + 1, at);
    }

    /// Puts a new value of the key at the item, at the moment `at`.
    #[inline(always)]
    pub(crate) fn renew(&mut self, key: u64, parts: KeyParts, value: &[u64; V], at: u64, i: u32)
        requires width { IsWidth V }
        requires due { IsDue V (renew_acts key value.now at i) self.old }
        requires parts { HasParts self.old.cells.now.layout.shape key parts }
        ensures made { HasMade V (renew_acts key value.now at i) self.old self.new }
    {
        let items = self.cells.items_start();
        // The value and its stamp change only while the version is odd: a lookup that reads words of both values sees the version changed.
        let running = self.open_deed(key, parts, Deed::Renew);
        self.write_payload(items, i, value, at);
        self.count_moment();
        self.close_deed(running);
    }

    /// Puts a key at a free item and in an empty slot of one of its buckets, at the moment `at`.
    #[inline(always)]
    pub(crate) fn fill(
        &mut self,
        key: u64,
        parts: KeyParts,
        value: &[u64; V],
        at: u64,
        i: u32,
        place: Place,
    )
        requires width { IsWidth V }
        requires item { i < self.old.cells.now.layout.shape.items }
        requires due { IsDue V (fill_acts self.old.cells.now.layout.shape key value.now at i place) self.old }
        requires parts { HasParts self.old.cells.now.layout.shape key parts }
        ensures made { HasMade V (fill_acts self.old.cells.now.layout.shape key value.now at i place) self.old self.new }
    {
        let named = self.cells.checked().slot_word(parts.tag, i);
        let items = self.cells.items_start();
        // The key word of a reused item changes only while the new key's version is odd: whoever still reads the item for its
        // old key finds another key there, and whoever looks for the new one looks again.
        let running = self.open_deed(key, parts, Deed::Fill);
        self.write_item_from(items, i, 0, key);
        // Not `write_payload`: a call would save what a fill still needs.
        self.write_value(items, i, value);
        self.write_item_from(items, i, V as u8 + 1, at);
        self.write_slot(place, named);
        // The moment before the version: a lookup that finds the version even reads this moment or a later one.
        self.count_moment();
        self.close_deed(running);
    }

    /// Clears the slot of a key: a removal or an eviction.
    #[inline(always)]
    pub(crate) fn take_out(&mut self, key: u64, parts: KeyParts, deed: Deed, place: Place)
        requires due { IsDue V (take_out_acts key deed place) self.old }
        requires parts { HasParts self.old.cells.now.layout.shape key parts }
        ensures made { HasMade V (take_out_acts key deed place) self.old self.new }
    {
        let running = self.open_deed(key, parts, deed);
        self.write_slot(place, 0);
        self.count_moment();
        self.close_deed(running);
    }

    /// Moves the key with this slot word from one slot to the other.
    pub(crate) fn make_move(&mut self, key: u64, named: u64, from: Place, to: Place)
        requires due { IsDue V (move_acts key named from to) self.old }
        ensures made { HasMade V (move_acts key named from to) self.old self.new }
    {
        let parts = self.cells.parts(key);
        let running = self.open_deed(key, parts, Deed::Move);
        // The new slot first: at no instant is the key in no slot.
        self.write_slot(to, named);
        self.write_slot(from, 0);
        self.close_deed(running);
    }

    /// Makes the moves, one after the other.
    pub(crate) fn make_moves(&mut self, moves: &[Move])
        requires due { IsDue V (acts_of_moves moves.now) self.old }
        ensures made { HasMade V (acts_of_moves moves.now) self.old self.new }
    {
        for m in moves {
            self.make_move(m.key, m.word, m.from, m.to);
        }
    }
}

// What was decided. The condition of each is that its acts are due next.
impl<'a, const V: usize> Pen<'a, V> {
    ghost use Rattle.mc_writer.specs.Inside.Pens.{IsDue, HasMade};

    /// Makes the acts of a renewal, and the mark of its item.
    #[inline(always)]
    pub(crate) fn make_renewal(
        &mut self,
        key: u64,
        parts: KeyParts,
        value: &[u64; V],
        at: u64,
        item: u32,
    )
        requires width { IsWidth V }
        requires due { IsDue V (renewal_acts key value.now at item) self.old }
        requires parts { HasParts self.old.cells.now.layout.shape key parts }
        ensures made { HasMade V (renewal_acts key value.now at item) self.old self.new }
    {
        self.renew(key, parts, value, at, item);
        self.set_mark_unless_set(item);
    }

    // Marks a new key's item, if the policy is CLOCK.
    #[inline(always)]
    fn mark_new(&mut self, policy: Policy, item: u32)
        requires due { IsDue V (new_marks policy item) self.old }
        ensures made { HasMade V (new_marks policy item) self.old self.new }
    {
        match policy {
            Policy::Clock => self.set_mark(item),
            Policy::ScanResistant => {}
        }
    }

    /// Makes the fill, and the mark of its item.
    #[inline(always)]
    pub(crate) fn make_filling(
        &mut self,
        key: u64,
        parts: KeyParts,
        value: &[u64; V],
        at: u64,
        item: u32,
        place: Place,
        policy: Policy,
    )
        requires width { IsWidth V }
        requires item { item < self.old.cells.now.layout.shape.items }
        requires due { IsDue V (filling_acts policy self.old.cells.now.layout.shape key value.now at item place) self.old }
        requires parts { HasParts self.old.cells.now.layout.shape key parts }
        ensures made { HasMade V (filling_acts policy self.old.cells.now.layout.shape key value.now at item place) self.old self.new }
    {
        self.fill(key, parts, value, at, item, place);
        self.mark_new(policy, item);
    }

    // Makes the moves. Of more than one the books have the list.
    #[inline(always)]
    fn make_moves_of(&mut self, books: &Books, moves: Moves)
        requires due { IsDue V (acts_of_moves (moves_of books.now.far.value.moves.items moves)) self.old }
        ensures made { HasMade V (acts_of_moves (moves_of books.now.far.value.moves.items moves)) self.old self.new }
    {
        match moves {
            Moves::Unneeded => {}
            Moves::One(m) => self.make_move(m.key, m.word, m.from, m.to),
            Moves::Listed => self.make_moves(books.listed()),
        }
    }

    /// Makes the moves and the fill, and the mark of its item.
    #[inline(always)]
    pub(crate) fn make_storing(
        &mut self,
        books: &Books,
        key: u64,
        parts: KeyParts,
        value: &[u64; V],
        storing: Storing,
    )
        requires width { IsWidth V }
        requires item { storing.item < self.old.cells.now.layout.shape.items }
        requires due { IsDue V (storing_acts (policy_of books.now.checked) books.now.far.value.moves.items self.old.cells.now.layout.shape key value.now storing) self.old }
        requires parts { HasParts self.old.cells.now.layout.shape key parts }
        ensures made { HasMade V (storing_acts (policy_of books.now.checked) books.now.far.value.moves.items self.old.cells.now.layout.shape key value.now storing) self.old self.new }
    {
        self.make_moves_of(books, storing.moves);
        let policy = books.policy();
        self.make_filling(
            key,
            parts,
            value,
            storing.at,
            storing.item,
            storing.place,
            policy,
        );
    }

    /// Takes the victim out, and makes the moves, the fill and the mark of the put that takes its item.
    #[inline(always)]
    pub(crate) fn make_replacement(
        &mut self,
        books: &Books,
        key: u64,
        parts: KeyParts,
        value: &[u64; V],
        taken: Replacement,
    )
        requires width { IsWidth V }
        requires item { taken.storing.item < self.old.cells.now.layout.shape.items }
        requires due { IsDue V (replacement_acts (policy_of books.now.checked) books.now.far.value.moves.items self.old.cells.now.layout.shape key value.now taken) self.old }
        requires parts { HasParts self.old.cells.now.layout.shape key parts }
        requires victim { HasParts self.old.cells.now.layout.shape taken.victim.key taken.victim.parts }
        ensures made { HasMade V (replacement_acts (policy_of books.now.checked) books.now.far.value.moves.items self.old.cells.now.layout.shape key value.now taken) self.old self.new }
    {
        let victim = taken.victim;
        self.take_out(victim.key, victim.parts, Deed::Evict, victim.place);
        self.make_storing(books, key, parts, value, taken.storing);
    }
}
