//! The lines of a trace.
ghost use Rattle.std.specs.Prelude.{◌≤◌};
ghost use Rattle.mc_words.specs.Places.{IsWidth};

use mc_core::{Access, Act, Deed, Event, Lookup, Reply, Stepped, World};
use mc_replay::Watch;
use mc_words::Checked;
use std::alloc::{AllocError, Global};
use std::fmt::Write as _;

/// A lookup that runs. It is fed with what the reader reads, and so says which access comes next.
#[derive(Clone, Copy)]
struct Running<const V: usize> {
    reader: u32,
    lookup: Lookup<V>,
}

/// What a replay did, as text. After memory has run out it writes nothing more.
#[derive(Drop)]
pub(crate) struct Trace<const V: usize> {
    text: String,
    checked: Checked,
    running: Vec<Running<V>>,
    moment: u64,
    is_short: bool,
    ghost some_words: { 1 ≤ V },
    ghost most_words: { V ≤ 8 },
}

fn name_of(deed: Deed) -> &'static str {
    match deed {
        Deed::Fill => "fill",
        Deed::Renew => "renew",
        Deed::Remove => "remove",
        Deed::Evict => "evict",
        Deed::Move => "move",
    }
}

/// What an access reads, and the number of the stripe, the slot or the item.
fn aim_of(access: Access) -> (&'static str, u64) {
    match access {
        Access::Version(stripe) => ("version", u64::from(stripe)),
        Access::Slot(place) => ("slot", 4 * u64::from(place.bucket) + u64::from(place.slot)),
        Access::Key(item) => ("key", u64::from(item)),
        Access::Value(item, _) => ("value", u64::from(item)),
        Access::Stamp(item) => ("stamp", u64::from(item)),
        Access::Moment => ("moment", 0),
        Access::Mark(item) => ("mark", u64::from(item)),
    }
}

impl<const V: usize> Trace<V> {
    /// Nothing was done yet. Condition: a value has from 1 to 8 words.
    pub(crate) fn new(alloc: Global, checked: &Checked) -> Trace<V>
        requires { IsWidth V }
    {
        Trace {
            text: String::new(alloc),
            checked: *checked,
            running: Vec::new(alloc),
            moment: 0,
            is_short: false,
        }
    }

    /// The whole text. `None` if memory ran out.
    pub(crate) fn text(&self) -> Option<&[u8]> {
        if self.is_short {
            None
        } else {
            Some(self.text.as_bytes())
        }
    }

    /// Another world, and its sizes: buckets, items, stripes, words of a value.
    fn open(&mut self, world: &World<V>) -> Result<(), AllocError> {
        self.checked = world.checked();
        self.moment = 0;
        let shape = self.checked.shape();
        let (buckets, items, stripes, words) = (shape.buckets, shape.items, shape.stripes, V);
        writeln!(self.text, "world {buckets} {items} {stripes} {words}")
    }

    fn write_act(&mut self, act: Act, bit: u64) -> Result<(), AllocError> {
        match act {
            Act::Open(key, deed) => {
                let (name, stripe) = (name_of(deed), self.checked.stripe(key));
                writeln!(self.text, "open {name} {key} {stripe}")
            }
            Act::Slot(place, word) => {
                let at = 4 * u64::from(place.bucket) + u64::from(place.slot);
                writeln!(self.text, "slot {at} {word}")
            }
            Act::Item(item, j, word) => writeln!(self.text, "item {item} {j} {word}"),
            Act::Moment => {
                self.moment = self.moment.saturating_add(1);
                let moment = self.moment;
                writeln!(self.text, "moment {moment}")
            }
            Act::Close => writeln!(self.text, "close"),
            Act::Hand(item) => writeln!(self.text, "hand {item} {bit}"),
            Act::Mark(item) => writeln!(self.text, "mark {item}"),
        }
    }

    fn begin(&mut self, reader: u32, key: u64) -> Result<(), AllocError> {
        let lookup = Lookup::begin(&self.checked, key);
        self.running.push(Running { reader, lookup })?;
        writeln!(self.text, "reader {reader} get {key}")
    }

    /// The access and the word that it read. The access that ends a lookup gives the reply and not its word.
    fn write_access(&mut self, reader: u32, given: &Stepped<V>) -> Result<(), AllocError> {
        let Some(at) = self.running.iter().position(|one| one.reader == reader) else {
            return Ok(());
        };
        let mut running = self.running.swap_remove(at);
        let Some(access) = running.lookup.next() else {
            return Ok(());
        };
        let (name, number) = aim_of(access);
        let word = match given {
            Stepped::Word(word) => *word,
            Stepped::Done(done) => {
                writeln!(self.text, "reader {reader} {name} {number}")?;
                return self.write_reply(reader, &done.reply);
            }
            Stepped::Nothing => 0,
        };
        running.lookup.after(word);
        self.running.push(running)?;
        writeln!(self.text, "reader {reader} {name} {number} {word}")
    }

    fn write_reply(&mut self, reader: u32, reply: &Reply<V>) -> Result<(), AllocError> {
        match reply {
            Reply::Found { value, at, .. } => {
                write!(self.text, "reader {reader} found")?;
                for word in value.iter() {
                    write!(self.text, " {word}")?;
                }
                writeln!(self.text, " at {at}")
            }
            Reply::Absent { at } => writeln!(self.text, "reader {reader} absent at {at}"),
            Reply::Busy => writeln!(self.text, "reader {reader} busy"),
        }
    }

    fn write_event(&mut self, event: Event, given: &Stepped<V>) -> Result<(), AllocError> {
        match event {
            Event::Write(act) => {
                let bit = match given {
                    Stepped::Word(word) => *word,
                    _ => 0,
                };
                self.write_act(act, bit)
            }
            Event::Begin(reader, key) => self.begin(reader, key),
            Event::Read(reader) => self.write_access(reader, given),
        }
    }

    /// The words of the table that aren't 0, each with its number.
    fn write_table(&mut self, world: &World<V>) -> Result<(), AllocError> {
        let many = world.checked().words::<V>();
        for n in 0..many {
            let word = world.word(n);
            if word > 0 {
                writeln!(self.text, "word {n} {word}")?;
            }
        }
        Ok(())
    }
}

impl<const V: usize> Watch<V> for Trace<V> {
    fn opened(&mut self, world: &World<V>) {
        if !self.is_short {
            self.is_short = self.open(world).is_err();
        }
    }

    fn saw(&mut self, event: Event, given: &Stepped<V>) {
        if !self.is_short {
            self.is_short = self.write_event(event, given).is_err();
        }
    }

    fn ended(&mut self, world: &World<V>) {
        if !self.is_short {
            self.is_short = self.write_table(world).is_err();
        }
    }
}
