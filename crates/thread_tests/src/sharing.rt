//! What threads may share, and what may be handed to one.
use mc_cache::{Cache, Desk, Reader, Writer};
use mc_shards::{Pass, Shards};
use mc_shared::{Cells, ReaderSeat, WriterSeat};

fn is_shared<T: Sync>() {}

fn is_sent<T: Send>() {}

#[test]
fn the_words_are_shared_and_the_seats_are_sent(_rt: HostRuntime) {
    is_shared::<Cells<1>>();
    is_sent::<Cells<1>>();
    is_sent::<WriterSeat>();
    is_sent::<ReaderSeat>();
    is_shared::<Cache<1>>();
    is_sent::<Cache<1>>();
    is_sent::<Writer<1>>();
    is_sent::<Reader<1>>();
    is_shared::<Desk<1>>();
    is_shared::<Shards<1>>();
    is_sent::<Pass<1>>();
}
