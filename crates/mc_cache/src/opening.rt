//! A cache is opened.
ghost use Rattle.std.specs.Prelude.{◌≡◌, [], All, IfOk, MatchResult};
ghost use Rattle.mc_words.specs.Checks.{shape_of};
ghost use Rattle.mc_words.specs.Places.{IsWidth};
ghost use Rattle.mc_words.specs.Readers.{HasReaders};
ghost use Rattle.mc_words.specs.Shapes.{IsShape};
ghost use Rattle.mc_shared.specs.Records.{IsNewReader, new_readers, writer_record};
ghost use Rattle.mc_shared.specs.Views.{layout_of, layout_with};
ghost use Rattle.mc_words.specs.declared.policy.Policy.TheVariants.{Clock};
ghost use Rattle.mc_cache.specs.Openings.{RefusesOpening};
ghost use Rattle.mc_cache.specs.Plain.{history, seen};

use crate::cache::Cache;
use crate::reader::Reader;
use crate::writer::Writer;
use mc_plan::Books;
use mc_shared::ReaderSeat;
use mc_words::{Checked, MOST_READERS, NoMemory, Policy, Shape, ShapeError};
use std::alloc::{AllocError, Global};
use thiserror::Error;

/// Why no cache was opened.
#[derive(Clone, Copy, Debug, PartialEq, Eq, Error)]
pub enum OpenError {
    #[error(transparent)]
    Shape(#[from] ShapeError),
    #[error("readers must be from 1 to 1024")]
    Readers,
    #[error("no memory")]
    NoMemory,
}

// The readers on these seats.
fn seat_readers<const V: usize>(
    alloc: Global,
    seats: Vec<ReaderSeat>,
) -> Result<Vec<Reader<V>>, AllocError>
    ensures { IfOk result (λ readers. readers.items ≡ seats.items) }
{
    let mut readers = Vec::new(alloc);
    for seat in seats {
        readers.push(Reader { seat })?;
    }
    Ok(readers)
}

// A cache of a shape that was checked.
fn open_checked<const V: usize>(
    alloc: Global,
    checked: &Checked,
    readers: u32,
) -> Result<(Cache<V>, Writer<V>, Vec<Reader<V>>), NoMemory>
    requires width { IsWidth V }
    requires readers { HasReaders readers }
    ensures cache { IfOk result (λ r. r.0.layout ≡ layout_of V checked.now) }
    ensures writer { IfOk result (λ r. r.1 ≡ writer_record r.0 [] []) }
    ensures readers { IfOk result (λ r. r.2.items ≡ new_readers r.0 readers) }
    ensures fresh { IfOk result (λ r. All (IsNewReader r.0) r.2.items) }
{
    let books = Books::new(alloc, checked)?;
    let (cells, seat, seats) = mc_shared::open::<V>(alloc, checked, readers)?;
    let readers = seat_readers::<V>(alloc, seats)?;
    let writer = Writer {
        seat,
        books,
        moment: 0,
    };
    Ok((Cache { cells }, writer, readers))
}

/// Opens an empty cache of this policy, with its writer and this many readers. Returns the first error that applies: `Shape`, then `Readers`
/// if there are none or more than 1024, then `NoMemory`. After an error nothing leaks.
/// Condition: a value has from 1 to 8 words.
pub fn open_by<const V: usize>(
    alloc: Global,
    policy: Policy,
    shape: Shape,
    readers: u32,
) -> Result<(Cache<V>, Writer<V>, Vec<Reader<V>>), OpenError>
    requires width { IsWidth V }
    ensures cache { MatchResult result (λ r. r.0.layout ≡ layout_with V policy shape) (λ e. RefusesOpening shape readers e) }
    ensures asked { IfOk result (λ r. IsShape shape × HasReaders readers) }
    ensures writer { IfOk result (λ r. r.1 ≡ writer_record r.0 [] []) }
    ensures readers { IfOk result (λ r. r.2.items ≡ new_readers r.0 readers) }
    ensures fresh { IfOk result (λ r. All (IsNewReader r.0) r.2.items) }
    ensures plain { IfOk result (λ r. (history V r.1 ≡ []) × All (λ reader. seen V reader ≡ []) r.2.items) }
{
    let checked = match shape.check() {
        Ok(checked) => checked.with_policy(policy),
        Err(why) => return Err(OpenError::Shape(why)),
    };
    if readers == 0 || readers > MOST_READERS {
        return Err(OpenError::Readers);
    }
    match open_checked::<V>(alloc, &checked, readers) {
        Ok(opened) => Ok(opened),
        Err(NoMemory) => Err(OpenError::NoMemory),
    }
}

/// Opens an empty cache with CLOCK, as `open_by` does.
/// Condition: a value has from 1 to 8 words.
pub fn open<const V: usize>(
    alloc: Global,
    shape: Shape,
    readers: u32,
) -> Result<(Cache<V>, Writer<V>, Vec<Reader<V>>), OpenError>
    requires width { IsWidth V }
    ensures cache { MatchResult result (λ r. r.0.layout ≡ layout_with V Clock shape) (λ e. RefusesOpening shape readers e) }
    ensures asked { IfOk result (λ r. IsShape shape × HasReaders readers) }
    ensures writer { IfOk result (λ r. r.1 ≡ writer_record r.0 [] []) }
    ensures readers { IfOk result (λ r. r.2.items ≡ new_readers r.0 readers) }
    ensures fresh { IfOk result (λ r. All (IsNewReader r.0) r.2.items) }
    ensures plain { IfOk result (λ r. (history V r.1 ≡ []) × All (λ reader. seen V reader ≡ []) r.2.items) }
{
    open_by::<V>(alloc, Policy::Clock, shape, readers)
}
