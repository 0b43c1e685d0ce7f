//! What `mcload` prints of how its workers fared.
use crate::meter::{Figures, Meter};
use crate::turns::Turns;
use std::alloc::Global;
use std::fmt;
use std::fmt::{Display, Write as _};

/// Whose line it is.
#[derive(Clone, Copy)]
enum Worker {
    Writer,
    Reader(u32),
    /// One of several writers, and what came of its tries.
    TurnThread(u32, Turns),
}

/// One worker's line.
#[derive(Clone, Copy)]
struct Row {
    worker: Worker,
    figures: Figures,
    /// Whether it says how far answers were behind.
    delays: bool,
}

impl Display for Row {
    fn fmt<W: fmt::Write>(&self, f: &mut fmt::Formatter<W>) -> fmt::Result {
        match self.worker {
            Worker::Writer => write!(f, "writer")?,
            Worker::Reader(number) => write!(f, "reader {number}")?,
            Worker::TurnThread(number, _) => write!(f, "writer {number}")?,
        }
        let Figures {
            calls_a_second,
            busy,
            behind,
        } = self.figures;
        write!(f, " calls/s {calls_a_second} busy {busy}")?;
        if self.delays {
            write!(
                f,
                " behind {} {} {} {} {}",
                behind[0], behind[1], behind[2], behind[3], behind[4]
            )?;
        }
        match self.worker {
            Worker::TurnThread(_, turns) => {
                write!(f, " held {} answered {}", turns.held, turns.answered)
            }
            _ => Ok(()),
        }
    }
}

/// The worker with this number, if there are `readers` readers. If several writers took turns, `turns` is what came of their tries.
fn worker_of(who: u32, readers: u32, turns: &[Turns]) -> Worker {
    if 0 < who && who <= readers {
        return Worker::Reader(who - 1);
    }
    let number = who.saturating_sub(readers);
    match turns.get(number as usize) {
        Some(tried) => Worker::TurnThread(number, *tried),
        None => Worker::Writer,
    }
}

/// A line for each worker: calls a second, answers without a moment, and how many answers were how many changes behind the
/// newest; of several writers also how many of its tries were held and answered. With several shards nothing is behind, since each has
/// moments of its own.
pub(crate) fn histogram<C>(
    alloc: Global,
    meter: &Meter<'_, C>,
    turns: &[Turns],
    shards: u32,
) -> Result<String, fmt::Error> {
    let mut text = String::new(alloc);
    let delays = shards == 1;
    if delays {
        writeln!(
            text,
            "changes behind: 0, 1 to 9, 10 to 99, 100 to 999, more"
        )?;
    }
    let readers = meter.readers();
    for who in 0..u32::MAX {
        let Some(figures) = meter.figures(who as usize) else {
            break;
        };
        let worker = worker_of(who, readers, turns);
        let row = Row {
            worker,
            figures,
            delays,
        };
        writeln!(text, "{row}")?;
    }
    Ok(text)
}
