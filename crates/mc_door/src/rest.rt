//! A cache is opened for values of one of eight widths.
ghost use Rattle.std.specs.Prelude.{◌≡◌, ◌+◌, ◌*◌, [], IfOk, MatchOption, MatchResult, length};
ghost use Rattle.mc_words.specs.Places.{IsWidth};
ghost use Rattle.mc_words.specs.Readers.{HasReaders};
ghost use Rattle.mc_words.specs.Shapes.{HasShards, IsShape};
ghost use Rattle.mc_shards.specs.Openings.{GoBy, RefusesShards};
ghost use Rattle.mc_door.specs.AnySides.{role_in, width_of};
ghost use Rattle.mc_door.specs.Loading.{HaveSeenLoads, entries_in};
ghost use Rattle.mc_door.specs.NewPasses.{HaveSeenNothing, IsLastPass, count_on, passes_on, shards_on, width_on};

use crate::any_side::AnySide;
use crate::new_passes::NewPasses;
use crate::widths::{at_width, with_sides};
use mc_cache::{Shape, Why};
use mc_shards::OpenShardsError;
use mc_words::{NoMemory, Policy};
use std::alloc::Global;

/// Passes that no handle keeps yet.
#[derive(Drop)]
pub enum Rest {
    One(NewPasses<1>),
    Two(NewPasses<2>),
    Three(NewPasses<3>),
    Four(NewPasses<4>),
    Five(NewPasses<5>),
    Six(NewPasses<6>),
    Seven(NewPasses<7>),
    Eight(NewPasses<8>),
}

impl Rest {
    /// One of them, if any is left. `Err` only if there is no memory.
    pub fn next(&mut self) -> Result<Option<AnySide>, NoMemory>
        ensures same { (shards_on self.new ≡ shards_on self.old) × (width_on self.new ≡ width_on self.old) }
        ensures given { IfOk result (λ given. MatchOption given (passes_on self.old ≡ [])
            (λ held. (width_of held ≡ width_on self.old) × IsLastPass (shards_on self.old) (passes_on self.old) (passes_on self.new) (role_in held))) }
    {
        macro_rules! given {
            ($sides:ident, $variant:ident) => {
                Ok($sides.next()?.map(AnySide::$variant))
            };
        }
        with_sides!(Rest, self, given)
    }
}

/// Opens `shards` shards of this policy for values of `words` words. `Rest::next` gives the requested number of passes.
pub fn open(
    alloc: Global,
    policy: Policy,
    shape: Shape,
    words: usize,
    shards: u32,
    passes: u32,
) -> Result<Rest, OpenShardsError>
    requires width { IsWidth words }
    ensures refused { MatchResult result (λ r. ((shards_on r).shape ≡ shape) × (length (shards_on r).tables ≡ shards)) (λ e. RefusesShards shape shards passes e) }
    ensures policy { IfOk result (λ r. GoBy policy (shards_on r).tables) }
    ensures rest { IfOk result (λ r. (width_on r ≡ words) × (count_on r ≡ passes) × HasShards shards × IsShape shape × HasReaders passes) }
    ensures fresh { IfOk result (λ r. HaveSeenNothing words (passes_on r)) }
{
    macro_rules! opened {
        ($width:literal, $variant:ident) => {
            Ok(Rest::$variant(NewPasses::<$width>::open(
                alloc, policy, shape, shards, passes,
            )?))
        };
    }
    at_width!(words, opened)
}

/// Opens `shards` shards of this policy for values of `words` words, with `count` entries. They are given one after the other, each as its key and then its
/// value. Returns the index of each entry that was left, with the reason. `Rest::next` gives the requested number of passes.
pub fn open_with(
    alloc: Global,
    policy: Policy,
    shape: Shape,
    words: usize,
    shards: u32,
    passes: u32,
    count: usize,
    entries: &[u64],
) -> Result<(Rest, Vec<(usize, Why)>), OpenShardsError>
    requires width { IsWidth words }
    requires entries { length entries.now ≡ count * (1 + words) }
    ensures refused { MatchResult result (λ r. ((shards_on r.0).shape ≡ shape) × (length (shards_on r.0).tables ≡ shards)) (λ e. RefusesShards shape shards passes e) }
    ensures policy { IfOk result (λ r. GoBy policy (shards_on r.0).tables) }
    ensures rest { IfOk result (λ r. (width_on r.0 ≡ words) × (count_on r.0 ≡ passes) × HasShards shards × IsShape shape × HasReaders passes) }
    ensures loaded { IfOk result (λ r. HaveSeenLoads words (shards_on r.0) (entries_in words count entries.now) r.1.items (passes_on r.0)) }
{
    macro_rules! opened {
        ($width:literal, $variant:ident) => {{
            let (rest, left) = NewPasses::<$width>::open_with(
                alloc, policy, shape, shards, passes, count, entries,
            )?;
            Ok((Rest::$variant(rest), left))
        }};
    }
    at_width!(words, opened)
}
