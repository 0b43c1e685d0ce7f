//! What a thread that writes has in hand: a writer, a pass of a desk, or a pass of shards.
ghost use Rattle.std.specs.Prelude.{◌≡◌};
ghost use Rattle.mc_shards.specs.Sharded.{ArePassOf};

use mc_cache::{Cache, Desk, DeskError, Put, PutError, Reader, Reply, Writer};
use mc_shards::{Pass, Shards};

/// Looks keys up, and tries once for each put.
pub(crate) trait Caller: Send + Drop {
    fn look_up(&mut self, key: u64) -> Reply<4>;

    fn try_put(&mut self, key: u64, value: [u64; 4]) -> Result<Put, DeskError<PutError>>;
}

/// The writer, which needs no turn.
#[derive(Drop)]
pub(crate) struct Alone<'p> {
    pub(crate) cache: &'p Cache<4>,
    pub(crate) writer: Writer<4>,
    ghost belongs: { writer.of ≡ cache.now },
}

impl Caller for Alone<'_> {
    #[inline(always)]
    fn look_up(&mut self, key: u64) -> Reply<4> {
        let cache = self.cache;
        self.writer.get(cache, key)
    }

    #[inline(always)]
    fn try_put(&mut self, key: u64, value: [u64; 4]) -> Result<Put, DeskError<PutError>> {
        let cache = self.cache;
        match self.writer.put(cache, key, value) {
            Ok(put) => Ok(put),
            Err(why) => Err(DeskError::Call(why)),
        }
    }
}

/// A pass, which tries for the turn at a desk.
#[derive(Drop)]
pub(crate) struct AtDesk<'p> {
    pub(crate) cache: &'p Cache<4>,
    pub(crate) desk: &'p Desk<4>,
    pub(crate) pass: Reader<4>,
    ghost belongs: { (desk.now ≡ cache.now) × (pass.of ≡ cache.now) },
}

impl Caller for AtDesk<'_> {
    #[inline(always)]
    fn look_up(&mut self, key: u64) -> Reply<4> {
        let (cache, desk) = (self.cache, self.desk);
        self.pass.get_or_desk(cache, desk, key)
    }

    #[inline(always)]
    fn try_put(&mut self, key: u64, value: [u64; 4]) -> Result<Put, DeskError<PutError>> {
        let (cache, desk) = (self.cache, self.desk);
        desk.try_put(cache, &mut self.pass, key, value)
    }
}

/// A pass of shards.
#[derive(Drop)]
pub(crate) struct InShards<'p> {
    pub(crate) shards: &'p Shards<4>,
    pub(crate) pass: Pass<4>,
    ghost belongs: { ArePassOf shards.now pass },
}

impl Caller for InShards<'_> {
    #[inline(always)]
    fn look_up(&mut self, key: u64) -> Reply<4> {
        let shards = self.shards;
        self.pass.get_or_desk(shards, key)
    }

    #[inline(always)]
    fn try_put(&mut self, key: u64, value: [u64; 4]) -> Result<Put, DeskError<PutError>> {
        let shards = self.shards;
        self.pass.try_put(shards, key, value)
    }
}
