//! The first worker that the gate refused a call.
ghost use Rattle.std.specs.Prelude.{◌≡◌, ◌≤◌, IfNone, IfSome, length};
ghost use Rattle.mc_words.specs.Readers.{most_readers};
ghost use Rattle.mc_load.specs.Inside.Refusals.{AreTriesLetThrough, IsFirstRefusal, IsTryRefusal};
ghost use Rattle.mc_load.specs.Inside.Workers.{AreWhole};

use crate::error::LoadError;
use crate::reader_thread::ReaderThread;
use crate::turn_thread::TurnThread;

/// The first reader's call that the gate refused.
pub(crate) fn refused_lookup<const V: usize>(
    reader_threads: &[ReaderThread<'_, V>],
) -> Option<LoadError>
    requires { length reader_threads.now ≤ most_readers }
    ensures none { IfNone result (AreWhole reader_threads.now) }
    ensures some { IfSome result (IsFirstRefusal reader_threads.now) }
{
    for n in 0..reader_threads.len() {
        match reader_threads[n].refused {
            Some(call) => {
                let who = n as u32 + 1;
                return Some(LoadError::Gate { who, call });
            }
            None => {}
        }
    }
    None
}

/// The first refusal by the gate among the writers that take turns.
pub(crate) fn refused_try<const V: usize>(turn_threads: &[TurnThread<'_, V>]) -> Option<LoadError>
    ensures none { IfNone result (AreTriesLetThrough turn_threads.now (length turn_threads.now)) }
    ensures some { IfSome result (IsTryRefusal turn_threads.now) }
{
    for n in 0..turn_threads.len() {
        match turn_threads[n].refused {
            Some(call) => {
                let who = turn_threads[n].who;
                return Some(LoadError::Gate { who, call });
            }
            None => {}
        }
    }
    None
}
