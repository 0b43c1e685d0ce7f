//! Workers run, each in a thread of its own.
ghost use Rattle.std.specs.Prelude.{ℕ, ◌<◌, All, vec_len};
ghost use Rattle.std.specs.Thread.{IsSync};
ghost use Rattle.mc_load.specs.declared.asked.Load.{Load};
ghost use Rattle.mc_load.specs.Inside.Works.{HaveRun};

use crate::asked::Load;
use crate::gate::Gate;
use std::marker::Send;
use std::thread::{Threads, for_each_mut, join_mut};

/// What one thread runs.
pub(crate) trait Work<G>: Send {
    // Whether the worker may begin.
    ghost ready: { Load → Self → Type 0 };

    // What it has done beside this gate.
    ghost ended: { G → Load → Self → Self → Type 0 };

    /// Makes the load's calls, or fewer if the gate refuses one.
    fn run(&mut self, gate: &G, load: Load)
        requires { ready load self.old }
        ensures { ended gate.now load self.old self.new };
}

/// Runs each of these workers in a thread of its own.
fn run_each<K: Work<G>, R: Threads + Sync, G: Gate>(
    rt: &R,
    gate: &G,
    load: Load,
    workers: &mut Vec<K>,
)
    requires some { 0 < vec_len workers.old }
    requires ready { All (K.ready load) workers.old.items }
    ensures ended { HaveRun (K.ended gate.now load) workers.old.items workers.new.items }
{
    let threads = workers.len();
    let work = |_place: usize, worker: &mut K|
        requires { K.ready load worker.now }
        ensures { K.ended gate.entry.now load worker.entry.now worker.exit.now }
    { worker.run(gate, load) };
    for_each_mut(rt, workers.as_mut_slice(), threads, &work);
}

/// Runs writers beside readers.
pub(crate) fn run_all<A: Work<G>, B: Work<G>, R: Threads + Sync, G: Gate>(
    rt: &R,
    gate: &G,
    load: Load,
    writers: &mut Vec<A>,
    readers: &mut Vec<B>,
)
    requires some { (0 < vec_len writers.old) × (0 < vec_len readers.old) }
    requires write { All (A.ready load) writers.old.items }
    requires read { All (B.ready load) readers.old.items }
    ensures written { HaveRun (A.ended gate.now load) writers.old.items writers.new.items }
    ensures read { HaveRun (B.ended gate.now load) readers.old.items readers.new.items }
{
    join_mut(
        rt,
        &mut ||
            requires { IsSync R.row × (0 < vec_len writers.now) × All (A.ready load) writers.now.items }
            ensures { HaveRun (A.ended gate.entry.now load) writers.entry.now.items writers.exit.now.items }
        { run_each(rt, gate, load, writers) },
        &mut ||
            requires { IsSync R.row × (0 < vec_len readers.now) × All (B.ready load) readers.now.items }
            ensures { HaveRun (B.ended gate.entry.now load) readers.entry.now.items readers.exit.now.items }
        { run_each(rt, gate, load, readers) },
    );
}
