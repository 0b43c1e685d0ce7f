//! The writer's bookkeeping, and its calls as a step machine: which act comes next, and what the call answers.
ghost use Rattle.std.specs.Prelude.{◌≡◌, ◌+◌, ◌*◌, ◌<◌, ◌≤◌, ◌++◌, [], ◌∷◌, ◌↔◌, List, Some, None, IfOk, IfSome, IfNone, IsSome};
ghost use Rattle.mc_words.specs.Checks.{shape_of};
ghost use Rattle.mc_words.specs.Places.{IsWidth};
ghost use Rattle.mc_theory.specs.Acts.{IsAllowedByClock};
ghost use Rattle.mc_theory.specs.Lists.{Made, after_all};
ghost use Rattle.mc_theory.specs.States.{State, opening};
ghost use Rattle.mc_theory.specs.Traces.{HasVersionSteps};

use crate::Plan;
use crate::answer::Answer;
use crate::books::Books;
use crate::listing::{finish_put, start_put, start_put_if, start_put_kept, start_removal};
use crate::waiting::{Start, Waiting};
use arrayvec::ArrayVec;
use mc_theory::{Act, Peek};
use mc_words::{Checked, NoMemory, Policy};
use std::alloc::Global;
use std::mem;

/// How far a clerk is.
#[derive(Drop)]
enum Stage<const V: usize> {
    /// No call runs.
    Idle,
    /// The hand looks for an item for a put.
    Sweeping(Waiting<V>),
    /// The plan is to be made, and then this is the answer.
    Planned(Answer),
}

/// The writer's calls, act by act. It makes no act itself: whoever drives it makes the next one.
#[derive(Drop)]
pub struct Clerk<const V: usize> {
    books: Books,
    stage: Stage<V>,
    plan: Plan,
    /// How many acts of the plan were made.
    made: usize,
}

impl<const V: usize> Clerk<V> {
    ghost use Rattle.mc_theory.specs.declared.act.Act.{Act};
    ghost use Rattle.mc_plan.specs.WholeCalls.{Call, KeptCall, PutCall, PutIfCall, RemoveCall, Answered};
    ghost use Rattle.mc_plan.specs.Clerks.{Knows, IsOn, HasCall, next_act, acts_left, shape_of_clerk};
    ghost use Rattle.mc_plan.specs.Inside.Clerks.{HasEndedSweep};
    ghost use Rattle.mc_search.specs.Sweeps.{Swept, hand_acts};

    /// The clerk of a new table, by CLOCK. Condition: a value has from 1 to 8 words.
    pub fn new(alloc: Global, checked: &Checked) -> Result<Clerk<V>, NoMemory>
        requires width { IsWidth V }
        ensures knows { IfOk result (λ clerk. Knows V clerk (opening V (shape_of checked.now))) }
        ensures shape { IfOk result (λ clerk. shape_of_clerk clerk ≡ shape_of checked.now) }
    {
        let books = Books::new(alloc, &checked.with_policy(Policy::Clock))?;
        Ok(Clerk {
            books,
            stage: Stage::Idle,
            plan: ArrayVec::new(),
            made: 0,
        })
    }

    /// Starts a put. Condition: no call runs, and the clerk knows the table whose words are looked at.
    pub fn put<P: Peek>(&mut self, peek: &mut P, key: u64, value: [u64; V])
        requires { (s : State V) × Knows V self.old s × (P.words peek.old ≡ s.words) }
        ensures on { (s : State V) → Knows V self.old s → P.words peek.old ≡ s.words → IsOn V self.new (PutCall key value.entry) s [] }
        ensures left { acts_left self.new ≤ 2 * (shape_of_clerk self.new).items + 64 }
        ensures shape { shape_of_clerk self.new ≡ shape_of_clerk self.old }
        ensures kept { peek.new ≡ peek.old }
    {
        self.plan.clear();
        self.made = 0;
        self.stage = match start_put::<V, P>(&mut self.books, peek, &mut self.plan, key, &value) {
            Start::Planned(answer) => Stage::Planned(Answer::Put(answer)),
            Start::Waits(room) => { Stage::Sweeping(Waiting::new(&self.books, key, value, room)) }
        };
    }

    /// Starts a put that takes no other key's item: if every item is in use, a new key is refused. Condition: no call runs, and
    /// the clerk knows the table whose words are looked at.
    pub fn put_kept<P: Peek>(&mut self, peek: &mut P, key: u64, value: [u64; V])
        requires { (s : State V) × Knows V self.old s × (P.words peek.old ≡ s.words) }
        ensures on { (s : State V) → Knows V self.old s → P.words peek.old ≡ s.words → IsOn V self.new (KeptCall key value.entry) s [] }
        ensures left { acts_left self.new ≤ 64 }
        ensures shape { shape_of_clerk self.new ≡ shape_of_clerk self.old }
        ensures kept { peek.new ≡ peek.old }
    {
        self.plan.clear();
        self.made = 0;
        let answer = start_put_kept::<V, P>(&mut self.books, peek, &mut self.plan, key, &value);
        self.stage = Stage::Planned(Answer::Kept(answer));
    }

    /// Starts a put on a condition: the key's last put was at the moment `since`. Condition: no call runs, and the clerk knows the
    /// table whose words are looked at.
    pub fn put_if<P: Peek>(&mut self, peek: &mut P, key: u64, since: u64, value: [u64; V])
        requires { (s : State V) × Knows V self.old s × (P.words peek.old ≡ s.words) }
        ensures on { (s : State V) → Knows V self.old s → P.words peek.old ≡ s.words → IsOn V self.new (PutIfCall key since value.entry) s [] }
        ensures left { acts_left self.new ≤ 64 }
        ensures shape { shape_of_clerk self.new ≡ shape_of_clerk self.old }
        ensures kept { peek.new ≡ peek.old }
    {
        self.plan.clear();
        self.made = 0;
        let answer = start_put_if::<V, P>(
            &mut self.books,
            peek,
            &mut self.plan,
            key,
            since,
            &value,
        );
        self.stage = Stage::Planned(Answer::PutIf(answer));
    }

    /// Starts a removal. Condition: no call runs, and the clerk knows the table whose words are looked at.
    pub fn remove<P: Peek>(&mut self, peek: &mut P, key: u64)
        requires { (s : State V) × Knows V self.old s × (P.words peek.old ≡ s.words) }
        ensures on { (s : State V) → Knows V self.old s → P.words peek.old ≡ s.words → IsOn V self.new (RemoveCall key) s [] }
        ensures left { acts_left self.new ≤ 64 }
        ensures shape { shape_of_clerk self.new ≡ shape_of_clerk self.old }
        ensures kept { peek.new ≡ peek.old }
    {
        self.plan.clear();
        self.made = 0;
        let answer = start_removal::<V, P>(&mut self.books, peek, &mut self.plan, key);
        self.stage = Stage::Planned(Answer::Remove(answer));
    }

    /// The act that is to be made next, while one is left.
    pub fn next(&self) -> Option<Act>
        ensures value { result ≡ next_act self.now }
        ensures allowed { (call : Call) (s : State V) (acts : List Made) → IsOn V self.now call s acts →
            IfSome result (λ a. IsAllowedByClock (shape_of_clerk self.now) (after_all (shape_of_clerk self.now) s acts) a ×
            HasVersionSteps (shape_of_clerk self.now).limit
            (after_all (shape_of_clerk self.now) s acts).version_steps a) }
    {
        match &self.stage {
            Stage::Idle => None,
            Stage::Sweeping(waiting) => Some(Act::Hand(waiting.sweep.next()?)),
            Stage::Planned(_) => self.plan.get(self.made).copied(),
        }
    }

    /// Plans the rest of a put whose sweep is over.
    fn go_on<P: Peek>(&mut self, peek: &mut P)
        requires over { (call : Call) × (s : State V) × (rs : List Swept) × HasEndedSweep V self.old call s rs × (P.words peek.old ≡ s.words) }
        ensures on { (call : Call) (s : State V) (rs : List Swept) → HasEndedSweep V self.old call s rs →
            P.words peek.old ≡ s.words → IsOn V self.new call s (hand_acts rs) }
        ensures left { acts_left self.new ≤ 64 }
        ensures shape { shape_of_clerk self.new ≡ shape_of_clerk self.old }
        ensures kept { peek.new ≡ peek.old }
    {
        let stage = mem::replace(&mut self.stage, Stage::Idle);
        if let Stage::Sweeping(waiting) = stage {
            let answer = finish_put::<V, P>(&mut self.books, peek, &mut self.plan, waiting);
            self.stage = Stage::Planned(Answer::Put(answer));
        }
    }

    /// Continues after the next act was made. `word` is the bit that it read, if it was one of the hand.
    /// Condition: there was a next act, and the words are those after it.
    pub fn after<P: Peek>(&mut self, peek: &mut P, word: u64)
        requires { (call : Call) × (s : State V) × (acts : List Made) × (a : Act) × IsOn V self.old call s acts ×
            (next_act self.old ≡ Some a) ×
            (P.words peek.old ≡
            (after_all (shape_of_clerk self.old) s (acts ++ record { act = a; bit = word } ∷ [])).words) }
        ensures on { (call : Call) (s : State V) (acts : List Made) (a : Act) → IsOn V self.old call s acts →
            next_act self.old ≡ Some a →
            P.words peek.old ≡
            (after_all (shape_of_clerk self.old) s (acts ++ record { act = a; bit = word } ∷ [])).words →
            IsOn V self.new call s (acts ++ record { act = a; bit = word } ∷ []) }
        ensures left { acts_left self.new < acts_left self.old }
        ensures shape { shape_of_clerk self.new ≡ shape_of_clerk self.old }
        ensures kept { peek.new ≡ peek.old }
    {
        match &mut self.stage {
            Stage::Sweeping(waiting) => {
                waiting.sweep.after(word);
                if waiting.sweep.next().is_none() {
                    self.go_on(peek);
                }
            }
            Stage::Planned(_) => self.made += 1,
            Stage::Idle => {}
        }
    }

    /// Takes the answer, once no act is left. The call ends with it.
    pub fn answer(&mut self) -> Option<Answer>
        ensures some { IsSome result ↔ (HasCall self.old × (next_act self.old ≡ None)) }
        ensures due { (call : Call) (s : State V) (acts : List Made) → IsOn V self.old call s acts → next_act self.old ≡ None → IsSome result }
        ensures told { IfSome result (λ told. (call : Call) (s : State V) (acts : List Made) →
            IsOn V self.old call s acts → Answered V (shape_of_clerk self.old) call s acts told ×
            Knows V self.new (after_all (shape_of_clerk self.old) s acts)) }
        ensures none { IfNone result (self.new ≡ self.old) }
        ensures shape { shape_of_clerk self.new ≡ shape_of_clerk self.old }
    {
        if self.next().is_some() {
            return None;
        }
        match self.stage {
            Stage::Idle | Stage::Sweeping(_) => None,
            Stage::Planned(answer) => {
                self.stage = Stage::Idle;
                Some(answer)
            }
        }
    }
}
