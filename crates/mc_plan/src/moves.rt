//! The acts of a move, and the moves of a whole path.
ghost use Rattle.std.specs.Prelude.{ℕ, ◌≡◌, ◌+◌, ◌*◌, ◌≤◌, ◌++◌, length};
ghost use Rattle.arrayvec.specs.ArrayVec.{array_vec_len};
ghost use Rattle.mc_words.specs.Chains.{IsChain};
ghost use Rattle.mc_words.specs.Checks.{shape_of};
ghost use Rattle.mc_words.specs.Places.{IsWidth, word_count};
ghost use Rattle.mc_plan.specs.Decisions.{acts_of_moves};
ghost use Rattle.mc_plan.specs.Moves.{AreTaken, AreKeys, MakesRoom};
ghost use Rattle.mc_plan.specs.Plans.{move_acts, moves_acts};
ghost use Rattle.mc_search.specs.Readable.{IsFilled};

use crate::Plan;
use crate::decision::Move;
use arrayvec::ArrayVec;
use mc_search::{Path, key_in, slot_at};
use mc_theory::{Act, Deed, Peek};
use mc_words::{Checked, Place};

/// Adds the acts that move the key to an empty slot of its other bucket. The new slot is written before the old one
/// is cleared. Condition: the list has room for them: 4 acts of 64.
pub fn add_move(acts: &mut Plan, key: u64, word: u64, from: Place, to: Place)
    requires room { array_vec_len acts.old + 4 ≤ 64 }
    ensures items { acts.new.items ≡ acts.old.items ++ move_acts key word from to }
    ensures many { array_vec_len acts.new ≡ array_vec_len acts.old + 4 }
{
    acts.push(Act::Open(key, Deed::Move));
    acts.push(Act::Slot(to, word));
    acts.push(Act::Slot(from, 0));
    acts.push(Act::Close);
}

/// Lists the moves of a path, in place of those that were listed: the item at its last place moves to the hole, the item at the place
/// before it to the place that became empty, and so on. The first place is empty then.
/// Condition: the words reach as far as the shape says, each slot is empty or names an item, and the path's places are occupied.
pub fn path_moves<const V: usize, P: Peek>(
    checked: &Checked,
    peek: &mut P,
    path: &Path,
    moves: &mut ArrayVec<Move, 8>,
)
    requires width { IsWidth V }
    requires words { word_count V (shape_of checked.now) ≤ length (P.words peek.old) }
    requires filled { IsFilled (shape_of checked.now) (P.words peek.old) }
    requires taken { AreTaken (shape_of checked.now) (P.words peek.old) path.now.places.items }
    ensures moves { acts_of_moves moves.new.items ≡ moves_acts V (shape_of checked.now) (P.words peek.old) path.now.places.items path.now.hole }
    ensures many { length moves.new.items ≡ length path.now.places.items }
    ensures keys { AreKeys V (shape_of checked.now) (P.words peek.old) path.now.places.items }
    ensures kept { peek.new ≡ peek.old }
{
    moves.clear();
    let mut to = path.hole;
    let mut n = path.places.len();
    while n > 0 {
        n -= 1;
        let from = path.places[n];
        let word = slot_at(checked, peek, from);
        let key = key_in::<V, P>(checked, peek, word);
        moves.push(Move {
            key,
            word,
            from,
            to,
        });
        to = from;
    }
}

/// Adds the acts of the moves, in their order. Condition: the list has room for them: 4 acts of 64 a move.
pub fn push_moves(acts: &mut Plan, moves: &[Move])
    requires room { array_vec_len acts.old + 4 * length moves.now ≤ 64 }
    ensures items { acts.new.items ≡ acts.old.items ++ acts_of_moves moves.now }
    ensures many { array_vec_len acts.new ≡ array_vec_len acts.old + 4 * length moves.now }
{
    for m in moves {
        add_move(acts, m.key, m.word, m.from, m.to);
    }
}

/// Adds the acts of the moves of the path. Condition: as for `path_moves`, and the list has at most 32 acts.
pub fn add_moves<const V: usize, P: Peek>(
    checked: &Checked,
    peek: &mut P,
    acts: &mut Plan,
    path: &Path,
)
    requires width { IsWidth V }
    requires words { word_count V (shape_of checked.now) ≤ length (P.words peek.old) }
    requires filled { IsFilled (shape_of checked.now) (P.words peek.old) }
    requires taken { AreTaken (shape_of checked.now) (P.words peek.old) path.now.places.items }
    requires room { array_vec_len acts.old ≤ 32 }
    ensures items { acts.new.items ≡ acts.old.items ++ moves_acts V (shape_of checked.now) (P.words peek.old) path.now.places.items path.now.hole }
    ensures many { array_vec_len acts.new ≡ array_vec_len acts.old + 4 * length path.now.places.items }
    ensures keys { AreKeys V (shape_of checked.now) (P.words peek.old) path.now.places.items }
    ensures kept { peek.new ≡ peek.old }
{
    let mut moves = ArrayVec::new();
    path_moves::<V, P>(checked, peek, path, &mut moves);
    push_moves(acts, moves.as_slice());
}

// Nothing in this repository calls it: it is for those who plan without books.
/// The acts that make room where the path begins, by moving the items at its places, the last one first.
/// Condition: as for `path_moves`, and the path is a chain from some key.
pub fn plan_moves<const V: usize, P: Peek>(checked: &Checked, peek: &mut P, path: &Path) -> Plan
    requires width { IsWidth V }
    requires words { word_count V (shape_of checked.now) ≤ length (P.words peek.old) }
    requires filled { IsFilled (shape_of checked.now) (P.words peek.old) }
    requires chain { (k : ℕ) × IsChain (shape_of checked.now) (P.words peek.old) k path.now.places.items path.now.hole }
    ensures items { result.items ≡ moves_acts V (shape_of checked.now) (P.words peek.old) path.now.places.items path.now.hole }
    ensures law { MakesRoom V (shape_of checked.now) (P.words peek.old) path.now.places.items path.now.hole result.items }
    ensures kept { peek.new ≡ peek.old }
{
    let mut acts = ArrayVec::new();
    add_moves::<V, P>(checked, peek, &mut acts, path);
    acts
}
