//! Every call, as a pointer to a function of its full signature: that of values of one word, and of words that are in a `World`.
//! The functions only group the calls by crate.
use arrayvec::ArrayVec;
use mc_cache::{Cache, Desk, DeskError, OpenError, Opened, Reader, StillOpen, Writer};
use mc_core::{
    Access, Act, Change, Event, Lookup, Reply, Run, Stepped, Unlawful, World, WorldError,
};
use mc_plan::{Answer, Clerk, Finder, IfError, Path, Peek, Put, PutError, Remove, Spent, Sweep};
use mc_shared::{Cells, ReaderSeat, Words, WriterSeat};
use mc_words::{Checked, NoMemory, Place, Shape, ShapeError};
use std::alloc::Global;

/// `mc_words`: a shape, and the parts and places that follow from it.
pub fn calls_of_words() {
    const _: fn(Shape) -> Result<Checked, ShapeError> = Shape::check;
    const _: fn(&Checked) -> Shape = Checked::shape;
    const _: fn(&Checked, u64) -> u8 = Checked::tag;
    const _: fn(&Checked, u64) -> u32 = Checked::first;
    const _: fn(&Checked, u32, u8) -> u32 = Checked::alt;
    const _: fn(&Checked, u64) -> u32 = Checked::stripe;
    const _: fn(&Checked, u8, u32) -> u64 = Checked::slot_word;
    const _: fn(&Checked, u64) -> Option<(u8, u32)> = Checked::slot_parts;
    const _: fn(&Checked) -> usize = Checked::moment_place;
    const _: fn(&Checked, u32) -> usize = Checked::version_place;
    const _: fn(&Checked, Place) -> usize = Checked::slot_place;
    const _: fn(&Checked, u32, u8) -> usize = Checked::item_place::<1>;
    const _: fn(&Checked, u32) -> usize = Checked::recency_place::<1>;
    const _: fn(&Checked, u32) -> u8 = Checked::recency_bit;
    const _: fn(&Checked) -> usize = Checked::words::<1>;
}

/// `mc_core`: the lookup, access by access; a world, event by event.
pub fn calls_of_core() {
    const _: fn(&Checked, u64) -> Lookup<1> = Lookup::begin;
    const _: fn(&Lookup<1>) -> Option<Access> = Lookup::next;
    const _: fn(&mut Lookup<1>, u64) = Lookup::after;
    const _: fn(&Lookup<1>) -> Option<Reply<1>> = Lookup::reply;
    const _: fn(Global, &Checked, u32) -> Result<World<1>, WorldError> = World::new;
    const _: fn(&mut World<1>, Event) -> Result<Stepped<1>, Unlawful> = World::step;
    const _: for<'a> fn(&'a World<1>) -> &'a [Change<1>] = World::history;
    const _: fn(&World<1>, usize) -> u64 = World::word;
    const _: fn(Global, &mut World<1>, &[Event]) -> Result<Run<1>, NoMemory> = mc_core::run;
}

/// `mc_plan`: where keys are, paths, the sweep, the plans of deeds, and the clerk.
pub fn calls_of_plan() {
    const _: fn(&mut World<1>, usize) -> u64 = <World<1> as Peek>::word;
    const _: fn(&Checked, &mut World<1>, u64) -> Option<(Place, u32)> = mc_plan::find::<
        1,
        World<1>,
    >;
    const _: fn(Global, &Checked, &mut World<1>) -> Result<Vec<(u64, [u64; 1])>, NoMemory> =
        mc_plan::entries;
    const _: fn(Global, &Checked) -> Result<Finder, NoMemory> = Finder::new;
    const _: fn(&mut Finder, &mut World<1>, u64) -> Option<Path> = Finder::path;
    const _: fn(&mut Path, Place) = Path::cut_at;
    const _: fn(u32, u32) -> Sweep = Sweep::start;
    const _: fn(&Sweep) -> Option<u32> = Sweep::next;
    const _: fn(&mut Sweep, u64) = Sweep::after;
    const _: fn(&Sweep) -> Option<u32> = Sweep::victim;
    const _: fn(&Sweep) -> u32 = Sweep::hand;
    const _: fn(&Checked, u64, &[u64; 1], u64, u32, Place) -> ArrayVec<Act, 64> =
        mc_plan::plan_fill;
    const _: fn(u64, &[u64; 1], u64, u32) -> ArrayVec<Act, 64> = mc_plan::plan_renew;
    const _: fn(u64, Place) -> ArrayVec<Act, 64> = mc_plan::plan_remove;
    const _: fn(u64, Place) -> ArrayVec<Act, 64> = mc_plan::plan_evict;
    const _: fn(&Checked, &mut World<1>, &Path) -> ArrayVec<Act, 64> = mc_plan::plan_moves::<
        1,
        World<1>,
    >;
    const _: fn(Global, &Checked) -> Result<Clerk<1>, NoMemory> = Clerk::new;
    const _: fn(&mut Clerk<1>, &mut World<1>, u64, [u64; 1]) = Clerk::put;
    const _: fn(&mut Clerk<1>, &mut World<1>, u64, u64, [u64; 1]) = Clerk::put_if;
    const _: fn(&mut Clerk<1>, &mut World<1>, u64, [u64; 1]) = Clerk::put_kept;
    const _: fn(&mut Clerk<1>, &mut World<1>, u64) = Clerk::remove;
    const _: fn(&Clerk<1>) -> Option<Act> = Clerk::next;
    const _: fn(&mut Clerk<1>, &mut World<1>, u64) = Clerk::after;
    const _: fn(&mut Clerk<1>) -> Option<Answer> = Clerk::answer;
}

/// `mc_shared`: the words that threads share. Each call on seats is one act, one load or one access; a meeting is two loads.
pub fn calls_of_shared() {
    const _: fn(
        Global,
        &Checked,
        u32,
    ) -> Result<(Cells<1>, WriterSeat, Vec<ReaderSeat>), NoMemory> = mc_shared::open;
    const _: fn(&Cells<1>, &mut WriterSeat, Act) -> u64 = mc_shared::perform;
    const _: fn(&Cells<1>, &mut WriterSeat, usize) -> u64 = mc_shared::fetch;
    const _: fn(&Cells<1>, &mut ReaderSeat, Access) -> u64 = mc_shared::read;
    const _: fn(&Cells<1>, &mut ReaderSeat, u32) = mc_shared::mark;
    const _: fn(&Cells<1>, &mut ReaderSeat, &mut WriterSeat) -> u64 = mc_shared::catch;
    const _: fn(Cells<1>, WriterSeat, Vec<ReaderSeat>) -> Words = mc_shared::close;
    const _: fn(&Words, usize) -> u64 = Words::word;
}

/// `mc_cache`: the cache, its writer, its readers, and a desk.
pub fn calls_of_cache() {
    const _: fn(Global, Shape, u32) -> Result<(Cache<1>, Writer<1>, Vec<Reader<1>>), OpenError> =
        mc_cache::open;
    const _: fn(Global, Shape, u32, &[(u64, [u64; 1])]) -> Result<Opened<1>, OpenError> =
        mc_cache::open_with;
    const _: fn(&mut Writer<1>, &Cache<1>, u64, [u64; 1]) -> Result<Put, PutError> = Writer::put;
    const _: fn(&mut Writer<1>, &Cache<1>, u64, u64, [u64; 1]) -> Result<u64, IfError> =
        Writer::put_if;
    const _: fn(&mut Writer<1>, &Cache<1>, u64) -> Result<Remove, Spent> = Writer::remove;
    const _: fn(&mut Writer<1>, &Cache<1>, u64) -> Reply<1> = Writer::get;
    const _: fn(&Writer<1>) -> u64 = Writer::moment;
    const _: fn(&mut Reader<1>, &Cache<1>, u64) -> Reply<1> = Reader::get;
    const _: fn(&mut Reader<1>, &Cache<1>, &mut Writer<1>, u64) -> Reply<1> = Reader::get_beside;
    const _: fn(&mut Reader<1>, &Cache<1>, &mut Writer<1>) -> u64 = Reader::catch_up;
    const _: fn(&mut Reader<1>, &Cache<1>, &Desk<1>, u64) -> Reply<1> = Reader::get_or_desk;
    const _: fn(
        Cache<1>,
        Global,
        Writer<1>,
        Vec<Reader<1>>,
    ) -> Result<Vec<(u64, [u64; 1])>, StillOpen<1>> = Cache::close;
    const _: fn(Writer<1>) -> Desk<1> = Desk::new;
    const _: fn(
        &Desk<1>,
        &Cache<1>,
        &mut Reader<1>,
        u64,
        [u64; 1],
    ) -> Result<Put, DeskError<PutError>> = Desk::try_put;
    const _: fn(
        &Desk<1>,
        &Cache<1>,
        &mut Reader<1>,
        u64,
        u64,
        [u64; 1],
    ) -> Result<u64, DeskError<IfError>> = Desk::try_put_if;
    const _: fn(&Desk<1>, &Cache<1>, &mut Reader<1>, u64) -> Result<Remove, DeskError<Spent>> =
        Desk::try_remove;
    const _: fn(Desk<1>) -> Option<Writer<1>> = Desk::end;
}
