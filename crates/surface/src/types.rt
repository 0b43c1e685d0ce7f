//! Every type whose parts callers name. A function takes each struct apart into its fields, or names each variant of an enum, so that an
//! added one doesn't compile either.
use arrayvec::ArrayVec;
use mc_cache::{Cache, DeskError, OpenError, Opened, Reader, StillOpen, Writer};
use mc_core::{Access, Act, Change, Deed, Done, Event, Reply, Run, Stepped, Unlawful, WorldError};
use mc_plan::{Answer, IfError, Path, Put, PutError, Remove, Spent, Why};
use mc_words::{Mix, NoMemory, Place, Shape, ShapeError};

// `mc_words`

pub fn shape_fields(shape: Shape) -> (u32, u32, u32, u8, u8, u64, Mix) {
    let Shape {
        buckets,
        items,
        stripes,
        depth,
        tries,
        limit,
        mix,
    } = shape;
    (buckets, items, stripes, depth, tries, limit, mix)
}

pub fn mix_variants(mix: Mix) {
    match mix {
        Mix::Plain | Mix::Fmix => {}
    }
}

pub fn shape_error_variants(error: ShapeError) {
    match error {
        ShapeError::Buckets
        | ShapeError::Items
        | ShapeError::Stripes
        | ShapeError::Depth
        | ShapeError::Tries
        | ShapeError::Limit => {}
    }
}

pub fn place_fields(place: Place) -> (u32, u8) {
    let Place { bucket, slot } = place;
    (bucket, slot)
}

const _: NoMemory = NoMemory;

// `mc_core`

pub fn deed_variants(deed: Deed) {
    match deed {
        Deed::Fill | Deed::Renew | Deed::Remove | Deed::Evict | Deed::Move => {}
    }
}

pub fn act_variants(act: Act) {
    match act {
        Act::Open(key, deed) => {
            let _: (u64, Deed) = (key, deed);
        }
        Act::Slot(place, word) => {
            let _: (Place, u64) = (place, word);
        }
        Act::Item(item, number, word) => {
            let _: (u32, u8, u64) = (item, number, word);
        }
        Act::Moment | Act::Close => {}
        Act::Hand(item) => {
            let _: u32 = item;
        }
        Act::Mark(item) => {
            let _: u32 = item;
        }
    }
}

pub fn access_variants(access: Access) {
    match access {
        Access::Version(stripe) => {
            let _: u32 = stripe;
        }
        Access::Slot(place) => {
            let _: Place = place;
        }
        Access::Key(item) => {
            let _: u32 = item;
        }
        Access::Value(item, number) => {
            let _: (u32, u8) = (item, number);
        }
        Access::Stamp(item) => {
            let _: u32 = item;
        }
        Access::Moment => {}
        Access::Mark(item) => {
            let _: u32 = item;
        }
    }
}

pub fn reply_variants(reply: Reply<1>) {
    match reply {
        Reply::Found { value, at, since } => {
            let _: ([u64; 1], u64, u64) = (value, at, since);
        }
        Reply::Absent { at } => {
            let _: u64 = at;
        }
        Reply::Busy => {}
    }
}

pub fn change_variants(change: Change<1>) {
    match change {
        Change::Put(key, value) => {
            let _: (u64, [u64; 1]) = (key, value);
        }
        Change::Remove(key) => {
            let _: u64 = key;
        }
        Change::Evict(key) => {
            let _: u64 = key;
        }
    }
}

pub fn event_variants(event: Event) {
    match event {
        Event::Write(act) => {
            let _: Act = act;
        }
        Event::Begin(reader, key) => {
            let _: (u32, u64) = (reader, key);
        }
        Event::Read(reader) => {
            let _: u32 = reader;
        }
    }
}

pub fn world_error_variants(error: WorldError) {
    match error {
        WorldError::Readers | WorldError::NoMemory => {}
    }
}

pub fn unlawful_variants(unlawful: Unlawful) {
    match unlawful {
        Unlawful::NotLawful
        | Unlawful::NoReader
        | Unlawful::StillRunning
        | Unlawful::Limit
        | Unlawful::NoMemory => {}
    }
}

pub fn stepped_variants(stepped: Stepped<1>) {
    match stepped {
        Stepped::Nothing => {}
        Stepped::Word(word) => {
            let _: u64 = word;
        }
        Stepped::Done(done) => {
            let _: Done<1> = done;
        }
    }
}

pub fn done_fields(done: Done<1>) -> (u32, u64, Reply<1>, u64, u64) {
    let Done {
        reader,
        key,
        reply,
        first,
        last,
    } = done;
    (reader, key, reply, first, last)
}

pub fn run_fields(run: Run<1>) -> (Vec<Done<1>>, Option<(usize, Unlawful)>) {
    let Run { done, stopped } = run;
    (done, stopped)
}

// `mc_plan`

pub fn path_fields(path: Path) -> (ArrayVec<Place, 8>, Place) {
    let Path { places, hole } = path;
    (places, hole)
}

pub fn put_variants(put: Put) {
    match put {
        Put::Stored { at, moves, evicted } => {
            let _: (u64, u8, Option<u64>) = (at, moves, evicted);
        }
        Put::Renewed { at } => {
            let _: u64 = at;
        }
    }
}

pub fn put_error_variants(error: PutError) {
    match error {
        PutError::NoPath | PutError::AllRecent | PutError::Spent => {}
    }
}

pub fn if_error_variants(error: IfError) {
    match error {
        IfError::Spent => {}
        IfError::NotThere { at } => {
            let _: u64 = at;
        }
        IfError::Changed { since } => {
            let _: u64 = since;
        }
    }
}

pub fn why_variants(why: Why) {
    match why {
        Why::NoPath | Why::NoItem | Why::Spent => {}
    }
}

pub fn remove_variants(remove: Remove) {
    match remove {
        Remove::Removed { at } => {
            let _: u64 = at;
        }
        Remove::NotThere { at } => {
            let _: u64 = at;
        }
    }
}

const _: Spent = Spent;

pub fn answer_variants(answer: Answer) {
    match answer {
        Answer::Put(put) => {
            let _: Result<Put, PutError> = put;
        }
        Answer::PutIf(put) => {
            let _: Result<u64, IfError> = put;
        }
        Answer::Remove(remove) => {
            let _: Result<Remove, Spent> = remove;
        }
        Answer::Kept(put) => {
            let _: Result<Put, Why> = put;
        }
    }
}

// `mc_cache`

pub fn open_error_variants(error: OpenError) {
    match error {
        OpenError::Shape(error) => {
            let _: ShapeError = error;
        }
        OpenError::Readers | OpenError::NoMemory => {}
    }
}

pub fn opened_fields(
    opened: Opened<1>,
) -> (Cache<1>, Writer<1>, Vec<Reader<1>>, Vec<(usize, Why)>) {
    let Opened {
        cache,
        writer,
        readers,
        left,
    } = opened;
    (cache, writer, readers, left)
}

pub fn still_open_fields(still: StillOpen<1>) -> (Cache<1>, Writer<1>, Vec<Reader<1>>) {
    let StillOpen {
        cache,
        writer,
        readers,
    } = still;
    (cache, writer, readers)
}

pub fn desk_error_variants(error: DeskError<Spent>) {
    match error {
        DeskError::Held => {}
        DeskError::Call(error) => {
            let _: Spent = error;
        }
    }
}
