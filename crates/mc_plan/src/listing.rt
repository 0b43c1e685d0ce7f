//! What was decided, as the list of its acts.
ghost use Rattle.std.specs.Prelude.{◌≡◌, ◌+◌, ◌<◌, ◌≤◌, ◌++◌, [], List, length};
ghost use Rattle.arrayvec.specs.ArrayVec.{array_vec_len};
ghost use Rattle.mc_words.specs.Checks.{policy_of, shape_of};
ghost use Rattle.mc_words.specs.KeyParts.{HasParts};
ghost use Rattle.mc_words.specs.Places.{IsWidth};
ghost use Rattle.mc_theory.specs.States.{State};
ghost use Rattle.mc_plan.specs.WholeCalls.{Call, IsSweepOf, KeptCall, PutIfCall, RemoveCall, state_after_sweep};
ghost use Rattle.mc_plan.specs.Books.{AreBooksOf, IsLackingKey, IsPlanned, IsSweeping};
ghost use Rattle.mc_plan.specs.Decisions.{acts_of_moves, moves_of, new_marks, removal_acts, renewal_acts, replacement_acts, storing_acts};
ghost use Rattle.mc_plan.specs.Inside.Clerks.{IsStarted};
ghost use Rattle.mc_plan.specs.declared.answer.Answer.TheVariants as answer;
ghost use Rattle.mc_search.specs.Sweeps.{IsOver, Swept};

use crate::Plan;
use crate::answer::{IfError, Put, PutError, Remove, Spent, Why};
use crate::books::Books;
use crate::decision::{Decision, Moves, Removal, Replacement, Storing};
use crate::fill::add_fill;
use crate::moves::{add_move, push_moves};
use crate::renew::add_renew;
use crate::take_out::{add_evict, add_remove};
use crate::waiting::{Start, Waiting};
use mc_theory::{Act, Peek};
use mc_words::{KeyParts, Policy};

/// Adds the acts of a renewal, and the mark of its item.
fn add_renewal<const V: usize>(acts: &mut Plan, key: u64, value: &[u64; V], at: u64, item: u32)
    requires width { IsWidth V }
    requires room { array_vec_len acts.old ≤ 4 }
    ensures items { acts.new.items ≡ acts.old.items ++ renewal_acts key value.now at item }
    ensures fits { array_vec_len acts.new ≤ 64 }
{
    add_renew(acts, key, value, at, item);
    acts.push(Act::Mark(item));
}

/// Adds the acts of the moves. Of more than one the books keep the list.
fn add_moves_of(books: &Books, acts: &mut Plan, moves: Moves)
    requires room { array_vec_len acts.old ≤ 4 }
    ensures items { acts.new.items ≡ acts.old.items ++ acts_of_moves (moves_of books.now.far.value.moves.items moves) }
    ensures few { array_vec_len acts.new ≤ array_vec_len acts.old + 32 }
{
    match moves {
        Moves::Unneeded => {}
        Moves::One(m) => add_move(acts, m.key, m.word, m.from, m.to),
        Moves::Listed => push_moves(acts, books.listed()),
    }
}

/// Adds the mark of a new key's item, if the policy is CLOCK.
fn add_new_mark(acts: &mut Plan, policy: Policy, item: u32)
    requires room { array_vec_len acts.old ≤ 63 }
    ensures items { acts.new.items ≡ acts.old.items ++ new_marks policy item }
    ensures fits { array_vec_len acts.new ≤ 64 }
{
    match policy {
        Policy::Clock => acts.push(Act::Mark(item)),
        Policy::ScanResistant => {}
    }
}

/// Adds the acts of the moves and of the fill, and the mark of its item.
fn add_storing<const V: usize>(
    books: &Books,
    acts: &mut Plan,
    key: u64,
    value: &[u64; V],
    storing: Storing,
)
    requires width { IsWidth V }
    requires room { array_vec_len acts.old ≤ 4 }
    requires item { storing.item < (shape_of books.now.checked).items }
    ensures items { acts.new.items ≡ acts.old.items ++ storing_acts (policy_of books.now.checked) books.now.far.value.moves.items (shape_of books.now.checked) key value.now storing }
    ensures fits { array_vec_len acts.new ≤ 64 }
{
    add_moves_of(books, acts, storing.moves);
    add_fill(
        &books.checked,
        acts,
        key,
        value,
        storing.at,
        storing.item,
        storing.place,
    );
    add_new_mark(acts, books.checked.policy(), storing.item);
}

/// Adds the acts of the eviction, and then those of the put.
fn add_replacement<const V: usize>(
    books: &Books,
    acts: &mut Plan,
    key: u64,
    value: &[u64; V],
    taken: Replacement,
)
    requires width { IsWidth V }
    requires none { acts.old.items ≡ [] }
    requires item { taken.storing.item < (shape_of books.now.checked).items }
    ensures items { acts.new.items ≡ replacement_acts (policy_of books.now.checked) books.now.far.value.moves.items (shape_of books.now.checked) key value.now taken }
    ensures fits { array_vec_len acts.new ≤ 64 }
{
    add_evict(acts, taken.victim.key, taken.victim.place);
    add_storing(books, acts, key, value, taken.storing);
}

/// Adds the acts of a removal that finds its key.
fn add_removal(acts: &mut Plan, key: u64, removal: &Removal)
    requires none { acts.old.items ≡ [] }
    ensures items { acts.new.items ≡ removal_acts key removal.now }
    ensures fits { array_vec_len acts.new ≤ 64 }
{
    if let Removal::TakeOut { place, .. } = *removal {
        add_remove(acts, key, place);
    }
}

/// Lists the acts of the put of a key that is not there.
fn start_insert<const V: usize, P: Peek>(
    books: &mut Books,
    peek: &mut P,
    plan: &mut Plan,
    key: u64,
    parts: KeyParts,
    value: &[u64; V],
    at: u64,
) -> Start
    requires books { (s : State V) × IsLackingKey V books.old key value.now s at × (P.words peek.old ≡ s.words) }
    requires parts { HasParts (shape_of books.old.checked) key parts }
    requires plan { plan.old.items ≡ [] }
    ensures started { (s : State V) → IsLackingKey V books.old key value.now s at → P.words peek.old ≡ s.words →
        IsStarted V books.new plan.new.items key value.now s result }
    ensures fits { array_vec_len plan.new ≤ 64 }
    ensures shape { books.new.checked ≡ books.old.checked }
    ensures kept { peek.new ≡ peek.old }
{
    let Some(room) = books.room::<V, P>(peek, parts) else {
        return Start::Planned(Err(PutError::NoPath));
    };
    match books.insert::<V, P>(peek, key, parts.mixed, room, at) {
        Some(storing) => {
            add_storing(books, plan, key, value, storing);
            Start::Planned(Ok(books.told(storing, None)))
        }
        None => Start::Waits(room),
    }
}

/// Lists the acts of a put, or finds the room of one that waits for an item.
pub(crate) fn start_put<const V: usize, P: Peek>(
    books: &mut Books,
    peek: &mut P,
    plan: &mut Plan,
    key: u64,
    value: &[u64; V],
) -> Start
    requires books { (s : State V) × AreBooksOf V books.old s × (P.words peek.old ≡ s.words) }
    requires plan { plan.old.items ≡ [] }
    ensures started { (s : State V) → AreBooksOf V books.old s → P.words peek.old ≡ s.words → IsStarted V books.new plan.new.items key value.now s result }
    ensures fits { array_vec_len plan.new ≤ 64 }
    ensures shape { books.new.checked ≡ books.old.checked }
    ensures kept { peek.new ≡ peek.old }
{
    let parts = books.checked.parts(key);
    match books.decide::<V, P>(peek, key, parts, value) {
        Decision::Refuse(why) => Start::Planned(Err(why)),
        Decision::Renew { item, at } => {
            add_renewal(plan, key, value, at, item);
            Start::Planned(Ok(Put::Renewed { at }))
        }
        Decision::Insert { at } => start_insert::<V, P>(books, peek, plan, key, parts, value, at),
    }
}

/// Lists the acts of a put that takes no other key's item: one that would wait for an item is refused.
pub(crate) fn start_put_kept<const V: usize, P: Peek>(
    books: &mut Books,
    peek: &mut P,
    plan: &mut Plan,
    key: u64,
    value: &[u64; V],
) -> Result<Put, Why>
    requires books { (s : State V) × AreBooksOf V books.old s × (P.words peek.old ≡ s.words) }
    requires plan { plan.old.items ≡ [] }
    ensures planned { (s : State V) → AreBooksOf V books.old s → P.words peek.old ≡ s.words → IsPlanned V books.new plan.new.items (KeptCall key value.now) s s (answer.Kept result) }
    ensures fits { array_vec_len plan.new ≤ 64 }
    ensures shape { books.new.checked ≡ books.old.checked }
    ensures kept { peek.new ≡ peek.old }
{
    match start_put::<V, P>(books, peek, plan, key, value) {
        Start::Planned(Ok(told)) => Ok(told),
        Start::Planned(Err(refusal)) => Err(Why::of(refusal)),
        Start::Waits(_) => Err(Why::NoItem),
    }
}

/// Lists the acts of a put on a condition.
pub(crate) fn start_put_if<const V: usize, P: Peek>(
    books: &mut Books,
    peek: &mut P,
    plan: &mut Plan,
    key: u64,
    since: u64,
    value: &[u64; V],
) -> Result<u64, IfError>
    requires books { (s : State V) × AreBooksOf V books.old s × (P.words peek.old ≡ s.words) }
    requires plan { plan.old.items ≡ [] }
    ensures planned { (s : State V) → AreBooksOf V books.old s → P.words peek.old ≡ s.words → IsPlanned V books.new plan.new.items (PutIfCall key since value.now) s s (answer.PutIf result) }
    ensures fits { array_vec_len plan.new ≤ 64 }
    ensures shape { books.new.checked ≡ books.old.checked }
    ensures kept { peek.new ≡ peek.old }
{
    let parts = books.checked.parts(key);
    match books.decide_if::<V, P>(peek, key, parts, since, value) {
        Ok(renewal) => {
            add_renewal(plan, key, value, renewal.at, renewal.item);
            Ok(renewal.at)
        }
        Err(why) => Err(why),
    }
}

/// Lists the acts of the rest of a put whose sweep is over.
pub(crate) fn finish_put<const V: usize, P: Peek>(
    books: &mut Books,
    peek: &mut P,
    plan: &mut Plan,
    waiting: Waiting<V>,
) -> Result<Put, PutError>
    requires over { (call : Call) × (s : State V) × (rs : List Swept) × IsSweeping V books.old waiting call s rs ×
        IsOver (shape_of books.old.checked).items rs × (P.words peek.old ≡ s.words) }
    requires plan { plan.old.items ≡ [] }
    ensures planned { (call : Call) (s : State V) (rs : List Swept) → IsSweeping V books.old waiting.entry call s rs →
        IsOver (shape_of books.old.checked).items rs → P.words peek.old ≡ s.words →
        IsPlanned V books.new plan.new.items call s (state_after_sweep V (shape_of books.old.checked) s rs)
        (answer.Put result) × IsSweepOf V (shape_of books.old.checked) (policy_of books.old.checked) s rs (answer.Put result) }
    ensures fits { array_vec_len plan.new ≤ 64 }
    ensures shape { books.new.checked ≡ books.old.checked }
    ensures kept { peek.new ≡ peek.old }
{
    let mixed = books.checked.mixed(waiting.key);
    let taken = books.finish::<V, P>(peek, &waiting, mixed)?;
    add_replacement(books, plan, waiting.key, &waiting.value, taken);
    Ok(books.told(taken.storing, Some(taken.victim.key)))
}

/// Lists the acts of a removal.
pub(crate) fn start_removal<const V: usize, P: Peek>(
    books: &mut Books,
    peek: &mut P,
    plan: &mut Plan,
    key: u64,
) -> Result<Remove, Spent>
    requires books { (s : State V) × AreBooksOf V books.old s × (P.words peek.old ≡ s.words) }
    requires plan { plan.old.items ≡ [] }
    ensures planned { (s : State V) → AreBooksOf V books.old s → P.words peek.old ≡ s.words →
        IsPlanned V books.new plan.new.items (RemoveCall key) s s (answer.Remove result) }
    ensures fits { array_vec_len plan.new ≤ 64 }
    ensures shape { books.new.checked ≡ books.old.checked }
    ensures kept { peek.new ≡ peek.old }
{
    let parts = books.checked.parts(key);
    let removal = books.decide_removal::<V, P>(peek, key, parts);
    add_removal(plan, key, &removal);
    removal.told()
}
