//! Events that a generator draws: about half of them fit the deed that runs.
use mc_core::{Act, Deed, Event};
use mc_words::{Checked, Mix, Place, Shape};
use rand_core::Rng;
use rand_pcg::Lcg64Xsh32;

/// Two buckets with few items, or for each fifth seed 32 buckets with more than 64.
fn drawn_size(a: u32, seed: u64) -> (u32, u32) {
    if seed % 5 == 0 {
        (32, 65 + a % 64)
    } else {
        (2, 1 + a % 4)
    }
}

/// A shape whose limit is 40 at most. Its stripes and its size depend on the seed.
pub(crate) fn drawn_shape(rng: &mut Lcg64Xsh32, seed: u64) -> Shape {
    let a = rng.next_u32();
    let (buckets, items) = drawn_size(a >> 4, seed);
    Shape {
        buckets,
        items,
        stripes: match seed % 3 {
            0 => 1,
            1 => 2,
            _ => 64,
        },
        depth: 2,
        tries: 1 + ((a >> 12) % 3) as u8,
        limit: u64::from((a >> 16) % 41),
        mix: if a % 2 == 0 { Mix::Plain } else { Mix::Fmix },
    }
}

/// What the writer is to do next.
#[derive(Clone, Copy)]
enum Task {
    Open,
    WriteKey(u64),
    WriteValue(u64, u32),
    WriteStamp(u64, u32),
    WriteSlot(u64, u32),
    Renew,
    StampAgain(u32),
    CopySlot(u64),
    LeaveSlot(u64),
    ClearSlot(u64),
    Count,
    Close,
}

/// What a generator needs to draw acts that fit: the shape, what is to be done next, where the hand is, and how many changes were made.
#[derive(Clone, Copy)]
pub(crate) struct Writer {
    checked: Checked,
    task: Task,
    hand: u32,
    moment: u64,
}

fn drawn_key(rng: &mut Lcg64Xsh32) -> u64 {
    u64::from(rng.next_u32() % 4)
}

fn drawn_place(rng: &mut Lcg64Xsh32) -> Place {
    let a = rng.next_u32();
    Place {
        bucket: a % 2,
        slot: ((a >> 8) % 4) as u8,
    }
}

fn drawn_deed(rng: &mut Lcg64Xsh32) -> Deed {
    match rng.next_u32() % 8 {
        0 => Deed::Renew,
        1 => Deed::Remove,
        2 => Deed::Evict,
        3 => Deed::Move,
        _ => Deed::Fill,
    }
}

/// Any act.
fn drawn_act(rng: &mut Lcg64Xsh32) -> Act {
    let i = rng.next_u32() % 5;
    match rng.next_u32() % 7 {
        0 => Act::Open(drawn_key(rng), drawn_deed(rng)),
        1 => Act::Slot(drawn_place(rng), u64::from(i)),
        2 => Act::Item(i, (rng.next_u32() % 4) as u8, drawn_key(rng)),
        3 => Act::Moment,
        4 => Act::Close,
        5 => Act::Hand(i),
        _ => Act::Mark(i),
    }
}

impl Writer {
    pub(crate) fn new(checked: &Checked) -> Writer {
        Writer {
            checked: *checked,
            task: Task::Open,
            hand: 0,
            moment: 0,
        }
    }

    /// The word of a slot that names the item for the key.
    fn slot_word(&self, key: u64, item: u32) -> u64 {
        (u64::from(self.checked.tag(key)) << 32) + u64::from(item) + 1
    }

    /// A slot in one of the buckets of the key.
    fn place_for(&self, rng: &mut Lcg64Xsh32, key: u64) -> Place {
        let a = rng.next_u32();
        let first = self.checked.first(key);
        Place {
            bucket: if a % 2 == 0 {
                first
            } else {
                self.checked.alt(first, self.checked.tag(key))
            },
            slot: ((a >> 8) % 4) as u8,
        }
    }

    /// One of the first four items, or of the last four of a table with more.
    fn drawn_item(&self, rng: &mut Lcg64Xsh32) -> u32 {
        let a = rng.next_u32();
        let first = if a & 4 == 0 {
            0
        } else {
            self.checked.shape().items.saturating_sub(4)
        };
        first.saturating_add(a % 4)
    }

    /// An act that fits what is to be done, with items and places that may not.
    fn fitting_act(&self, rng: &mut Lcg64Xsh32) -> Act {
        let i = self.drawn_item(rng);
        match self.task {
            Task::Open => match rng.next_u32() % 4 {
                0 => Act::Hand(self.hand),
                1 => Act::Mark(i),
                _ => Act::Open(drawn_key(rng), drawn_deed(rng)),
            },
            Task::WriteKey(key) => Act::Item(i, 0, key),
            Task::WriteValue(_, item) => Act::Item(item, 1, rng.next_u64()),
            Task::WriteStamp(_, item) | Task::StampAgain(item) => {
                Act::Item(item, 2, self.moment.saturating_add(1))
            }
            Task::WriteSlot(key, item) => {
                Act::Slot(self.place_for(rng, key), self.slot_word(key, item))
            }
            Task::Renew => Act::Item(i, 1, rng.next_u64()),
            Task::CopySlot(key) => Act::Slot(self.place_for(rng, key), self.slot_word(key, i)),
            Task::LeaveSlot(key) | Task::ClearSlot(key) => Act::Slot(self.place_for(rng, key), 0),
            Task::Count => Act::Moment,
            Task::Close => Act::Close,
        }
    }

    /// Takes note of an act that was made.
    fn note(&mut self, act: Act) {
        self.task = match (self.task, act) {
            (_, Act::Open(key, Deed::Fill)) => Task::WriteKey(key),
            (_, Act::Open(_, Deed::Renew)) => Task::Renew,
            (_, Act::Open(key, Deed::Move)) => Task::CopySlot(key),
            (_, Act::Open(key, _)) => Task::ClearSlot(key),
            (Task::WriteKey(key), _) => Task::WriteValue(key, item_of(act)),
            (Task::WriteValue(key, item), _) => Task::WriteStamp(key, item),
            (Task::WriteStamp(key, item), _) => Task::WriteSlot(key, item),
            (Task::Renew, _) => Task::StampAgain(item_of(act)),
            (Task::CopySlot(key), _) => Task::LeaveSlot(key),
            (Task::WriteSlot(_, _) | Task::StampAgain(_) | Task::ClearSlot(_), _) => Task::Count,
            (Task::LeaveSlot(_) | Task::Count, _) => Task::Close,
            (Task::Open | Task::Close, _) => Task::Open,
        };
        if act == Act::Moment {
            self.moment = self.moment.saturating_add(1);
        }
        if let Act::Hand(i) = act {
            let next = i.saturating_add(1);
            self.hand = if next < self.checked.shape().items {
                next
            } else {
                0
            };
        }
    }

    /// Takes note of an event that was made.
    pub(crate) fn made(&mut self, event: Event) {
        if let Event::Write(act) = event {
            self.note(act);
        }
    }

    /// An event of one of two readers, or of a third that isn't there, or of the writer.
    pub(crate) fn drawn_event(&self, rng: &mut Lcg64Xsh32) -> Event {
        let a = rng.next_u32();
        let reader = (a >> 8) % 9 / 4;
        match a % 16 {
            0 => Event::Begin(reader, drawn_key(rng)),
            1..7 => Event::Read(reader),
            7 => Event::Write(drawn_act(rng)),
            _ => Event::Write(self.fitting_act(rng)),
        }
    }
}

/// The item that an act writes.
fn item_of(act: Act) -> u32 {
    match act {
        Act::Item(i, _, _) => i,
        _ => 0,
    }
}
