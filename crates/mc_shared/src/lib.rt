//! The words of a table that threads share under a rule, and the seats of its writer and its readers.
//!
//! Each step on a seat is one act of the writer or one access of a reader, of the states that `mc_theory` speaks of. The
//! rule says that between any two steps the words are those after the writer's acts, and each reader's record is one of
//! a front of them. Every load, store, `fetch_and` and `fetch_or` on a seat is in `writer_steps`, `reader_steps` and
//! `catch_up`; `touch` loads on none. No call takes a lock, and none but `open` takes memory.
//!
//! ```text
//! let (cells, mut writer, mut readers) = open::<1>(alloc, &checked, 1)?;
//! let running = open_deed(&cells, &mut writer, key, Deed::Fill);
//! write_item(&cells, &mut writer, 0, 0, key);
//! write_item(&cells, &mut writer, 0, 1, 7);
//! write_slot(&cells, &mut writer, place, checked.slot_word(checked.tag(key), 0));
//! count_moment(&cells, &mut writer);
//! close_deed(&cells, &mut writer, running);
//! let at = read(&cells, &mut reader, Access::Moment);    // on a seat out of `readers`, in any thread
//! ```
#![tactic(auto)]

mod catch_up;
mod cells;
pub mod laws;
mod layout;
mod opening;
mod plays;
mod reader_calls;
mod reader_steps;
mod ruled_words;
mod running;
mod seats;
mod words;
mod writer_calls;
mod writer_steps;

pub use cells::{Cells, close, open};
pub use layout::Layout;
pub use plays::{Known, NamesAccess, NamesAct, NamesItem, Ruling};
pub use reader_calls::{catch, mark, mark_unless_set, read, read_at, touch};
pub use running::Running;
pub use seats::{ReaderSeat, WriterSeat};
pub use words::Words;
pub use writer_calls::{
    close_deed, count_moment, fetch, open_deed, open_deed_by, perform, set_mark,
    set_mark_unless_set, turn_hand, turn_hand_unless_clear, write_item, write_item_from,
    write_slot,
};
