//! A world in memory beside the writer of shared words. It makes each act first, and so shows that the act is allowed.
ghost use Rattle.std.specs.Prelude.{◌≡◌};
ghost use Rattle.mc_shared.specs.Steps.{IsStored};
ghost use Rattle.thread_tests.specs.Twins.{IsTwinOf};

use mc_core::World;
use mc_shared::{Cells, WriterSeat, perform};
use mc_theory::{Act, Event};
use mc_words::{Mix, Shape};

/// Four buckets of the given stripes, and keys as they are.
pub fn small_shape(stripes: u32) -> Shape {
    Shape {
        buckets: 4,
        items: 16,
        stripes,
        depth: 2,
        tries: 8,
        limit: 1 << 62,
        mix: Mix::Plain,
    }
}

// Makes an act that isn't the hand's, if the world does.
fn make(cells: &Cells<1>, writer: &mut WriterSeat, world: &mut World<1>, act: Act) -> bool
    requires of { writer.old.of ≡ cells.now }
    requires stored { IsStored act }
    requires twin { IsTwinOf 1 world.old writer.old }
    ensures of { writer.new.of ≡ writer.old.of }
    ensures twin { IsTwinOf 1 world.new writer.new }
{
    match world.step(Event::Write(act)) {
        Ok(_) => {
            perform(cells, writer, act);
            true
        }
        Err(_) => false,
    }
}

/// Makes acts, none of them the hand's, up to the first that the world refuses. Whether all were made.
pub fn make_all(
    cells: &Cells<1>,
    writer: &mut WriterSeat,
    world: &mut World<1>,
    acts: &[Act],
) -> bool
    requires of { writer.old.of ≡ cells.now }
    requires twin { IsTwinOf 1 world.old writer.old }
    ensures of { writer.new.of ≡ writer.old.of }
    ensures twin { IsTwinOf 1 world.new writer.new }
{
    for i in 0..acts.len() {
        let act = acts[i];
        let made = match act {
            Act::Hand(_) => false,
            _ => make(cells, writer, world, act),
        };
        if !made {
            return false;
        }
    }
    true
}
