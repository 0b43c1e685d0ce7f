//! A cache is opened, and its passes are given out; later, more of them.
ghost use Rattle.std.specs.Prelude.{◌≡◌, ◌+◌, ◌*◌, [], All, IfOk, MatchOption, MatchResult, length};
ghost use Rattle.mc_words.specs.Places.{IsWidth};
ghost use Rattle.mc_words.specs.Readers.{HasReaders};
ghost use Rattle.mc_words.specs.Shapes.{HasShards, IsShape};
ghost use Rattle.mc_cache.specs.declared.opening.OpenError.TheVariants as error;
ghost use Rattle.mc_shards.specs.Openings.{GoBy, RefusesShards};
ghost use Rattle.mc_shards.specs.Sharded.{ArePassOf};
ghost use Rattle.mc_shards.specs.Spares.{AreSparesOf};
ghost use Rattle.mc_shards.specs.declared.opening.OpenShardsError.TheVariants.{Open};
ghost use Rattle.mc_door.specs.Loading.{HaveSeenLoads, entries_in};
ghost use Rattle.mc_door.specs.Roles.{role_of};

use crate::entries::entries_of;
use crate::pass_side::PassSide;
use crate::shared::{MoreError, Shared};
use crate::side::{Hand, Side};
use crate::spares::readers_for;
use mc_cache::{OpenError, Shape, Why};
use mc_shards::{
    OpenShardsError, OpenedShards, Pass, Shards, Spares, open_spared, open_spared_with,
};
use mc_words::{MOST_READERS, NoMemory, Policy, can_shard};
use std::alloc::Global;
use std::sync::Arc;

// The first fault of the request, if there is one. It is looked for before memory is taken, so that a lack of memory comes last.
fn check(shape: Shape, shards: u32, passes: u32) -> Result<(), OpenShardsError>
    ensures { MatchResult result (λ _. HasShards shards × IsShape shape × HasReaders passes) (λ e. RefusesShards shape shards passes e) }
{
    if !can_shard(shards) {
        return Err(OpenShardsError::Shards);
    }
    if let Err(why) = shape.check() {
        return Err(OpenShardsError::Open(OpenError::Shape(why)));
    }
    if passes == 0 || passes > MOST_READERS {
        return Err(OpenShardsError::Open(OpenError::Readers));
    }
    Ok(())
}

/// Passes of shards that no handle keeps yet.
#[derive(Drop)]
pub struct NewPasses<const V: usize> {
    pub shared: Arc<Shared<V>, Global>,
    pub passes: Vec<Pass<V>>,
    ghost belongs: { All (ArePassOf shared.value.shards) passes.items },
}

impl<const V: usize> NewPasses<V> {
    ghost use Rattle.mc_door.specs.NewPasses.{HaveSeenNothing, IsLastPass};

    /// One of them, if any is left.
    pub(crate) fn next(&mut self) -> Result<Option<Side<V>>, NoMemory>
        ensures same { self.new.shared.value.shards ≡ self.old.shared.value.shards }
        ensures given { IfOk result (λ given. MatchOption given (self.old.passes.items ≡ [])
            (λ side. IsLastPass self.old.shared.value.shards self.old.passes.items self.new.passes.items (role_of side))) }
    {
        let Some(pass) = self.passes.pop() else {
            return Ok(None);
        };
        let Ok(shared) = Arc::try_clone(&self.shared) else {
            return Err(NoMemory);
        };
        let hand = Hand::Pass(PassSide { shared, pass });
        Ok(Some(Side { hand }))
    }

    // The passes of these shards, in hand, and the spares beside the shards.
    fn of(
        alloc: Global,
        shards: Shards<V>,
        passes: Vec<Pass<V>>,
        spares: Spares<V>,
    ) -> Result<NewPasses<V>, OpenShardsError>
        requires of { All (ArePassOf shards) passes.items }
        requires spares { AreSparesOf shards spares }
        ensures { MatchResult result (λ r. (r.shared.value.shards ≡ shards.entry) × (r.passes.items ≡ passes.entry.items)) (λ e. e ≡ Open error.NoMemory) }
    {
        match Arc::new(alloc, Shared::new(shards, spares)) {
            Ok(shared) => Ok(NewPasses { shared, passes }),
            Err(_) => Err(OpenShardsError::Open(OpenError::NoMemory)),
        }
    }

    /// Opens `shards` shards of this policy, with the requested number of passes.
    #[tactic(auto, using(crate::proofs::NewShards::have_seen_nothing))]
    pub(crate) fn open(
        alloc: Global,
        policy: Policy,
        shape: Shape,
        shards: u32,
        passes: u32,
    ) -> Result<NewPasses<V>, OpenShardsError>
        requires width { IsWidth V }
        ensures refused { MatchResult result (λ r. (r.shared.value.shards.shape ≡ shape) × (length r.shared.value.shards.tables ≡ shards)) (λ e. RefusesShards shape shards passes e) }
        ensures policy { IfOk result (λ r. GoBy policy r.shared.value.shards.tables) }
        ensures passes { IfOk result (λ r. (length r.passes.items ≡ passes) × HasShards shards × IsShape shape × HasReaders passes) }
        ensures fresh { IfOk result (λ r. HaveSeenNothing V r.passes.items) }
    {
        check(shape, shards, passes)?;
        let (opened, given, spares) = open_spared::<V>(
            alloc,
            policy,
            shape,
            shards,
            passes,
            readers_for(passes),
        )?;
        NewPasses::of(alloc, opened, given, spares)
    }

    /// Opens `shards` shards with `count` entries, given one after the other as words. Returns the requested number of passes, and the index
    /// of each entry that was left, with the reason.
    pub(crate) fn open_with(
        alloc: Global,
        policy: Policy,
        shape: Shape,
        shards: u32,
        passes: u32,
        count: usize,
        entries: &[u64],
    ) -> Result<(NewPasses<V>, Vec<(usize, Why)>), OpenShardsError>
        requires width { IsWidth V }
        requires entries { length entries.now ≡ count * (1 + V) }
        ensures refused { MatchResult result (λ r. (r.0.shared.value.shards.shape ≡ shape) × (length r.0.shared.value.shards.tables ≡ shards)) (λ e. RefusesShards shape shards passes e) }
        ensures policy { IfOk result (λ r. GoBy policy r.0.shared.value.shards.tables) }
        ensures passes { IfOk result (λ r. (length r.0.passes.items ≡ passes) × HasShards shards × IsShape shape × HasReaders passes) }
        ensures loaded { IfOk result (λ r. HaveSeenLoads V r.0.shared.value.shards (entries_in V count entries.now) r.1.items r.0.passes.items) }
    {
        check(shape, shards, passes)?;
        let Ok(entries) = entries_of::<V>(alloc, count, entries) else {
            return Err(OpenShardsError::Open(OpenError::NoMemory));
        };
        let all = readers_for(passes);
        let (opened, spares) = open_spared_with::<V>(
            alloc,
            policy,
            shape,
            shards,
            passes,
            all,
            entries.as_slice(),
        )?;
        let OpenedShards {
            shards,
            passes,
            left,
        } = opened;
        let rest = NewPasses::of(alloc, shards, passes, spares)?;
        Ok((rest, left))
    }

    // More passes of the same shards.
    fn more(
        shared: &Arc<Shared<V>, Global>,
        alloc: Global,
        many: usize,
    ) -> Result<NewPasses<V>, MoreError>
        ensures { IfOk result (λ r. (r.shared.value.shards ≡ shared.now.value.shards) × (length r.passes.items ≡ many)) }
    {
        let Ok(shared) = Arc::try_clone(shared) else {
            return Err(MoreError::NoMemory);
        };
        let passes = shared.more(alloc, many)?;
        Ok(NewPasses { shared, passes })
    }
}

impl<const V: usize> Side<V> {
    ghost use Rattle.mc_door.specs.NewPasses.{AreOfSide};

    /// Takes `many` of the spare passes of its shards.
    pub(crate) fn more(&self, alloc: Global, many: usize) -> Result<NewPasses<V>, MoreError>
        ensures { IfOk result (λ r. AreOfSide (role_of self.now) r.shared.value.shards × (length r.passes.items ≡ many)) }
    {
        match &self.hand {
            Hand::Pass(side) => NewPasses::more(&side.shared, alloc, many),
            Hand::Holder(side) => NewPasses::more(&side.shared, alloc, many),
            Hand::Nothing => unreachable!(),
        }
    }
}
