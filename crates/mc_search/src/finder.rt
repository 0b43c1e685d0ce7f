//! A finder of least paths, and what it keeps between two searches.
ghost use Rattle.std.specs.Prelude.{ℕ, ◌≡◌, IfOk, IfSome, IfNone, IsTrue, false};
ghost use Rattle.mc_words.specs.Chains.{NoChain};
ghost use Rattle.mc_words.specs.Checks.{shape_of};
ghost use Rattle.mc_search.specs.Paths.{IsCrowded, IsLeastPath};
ghost use Rattle.mc_search.specs.Readable.{HasSlots, IsFilled};

use crate::path::Path;
use crate::queue::{Entry, clean, start};
use crate::room::find_hole;
use crate::search::{search, trace};
use mc_theory::Peek;
use mc_words::{Checked, KeyParts, NoMemory, Place};
use std::alloc::Global;
use std::marker::Model;

/// Finds shortest paths to a hole in tables of one shape. Its memory is taken once.
#[derive(Drop)]
pub struct Finder {
    checked: Checked,
    queue: Vec<Entry>,
    /// For each bucket, whether it is in the queue.
    seen: Vec<bool>,
}

impl Model for Finder {
    ghost use Rattle.mc_words.specs.declared.shape.Shape.{Shape};

    ghost Value = { Shape };

    ghost use Rattle.mc_search.specs.Inside.Ready.{IsReady};

    ghost view = { λ f. f.checked.shape };

    ghost invariant = { λ f. IsReady f };
}

impl Finder {
    /// A finder for tables of the shape.
    pub fn new(alloc: Global, checked: &Checked) -> Result<Finder, NoMemory>
        ensures { IfOk result (λ f. f ≡ shape_of checked.now) }
    {
        let buckets = checked.shape().buckets as usize;
        let queue = Vec::with_capacity(alloc, buckets)?;
        let mut seen = Vec::new(alloc);
        seen.resize(buckets, false)?;
        Ok(Finder {
            checked: *checked,
            queue,
            seen,
        })
    }

    /// Finds a shortest path for a key whose two buckets are full: whether there is one within the depth of the shape. It is written
    /// where the caller keeps it, as it is large.
    ///
    /// Of several it is the first of a search breadth first, which looks at a bucket's slots in order. `find_move` finds one of one
    /// place, which most are, without the queue.
    /// Condition: as for `path`; the parts are those of some key, for which `find_hole` finds none.
    #[inline(never)]
    pub fn far<P: Peek>(&mut self, peek: &mut P, parts: KeyParts, path: &mut Path) -> bool
        requires words { HasSlots self.old (P.words peek.old) }
        requires filled { IsFilled self.old (P.words peek.old) }
        requires crowded { (k : ℕ) × IsCrowded self.old (P.words peek.old) k parts }
        ensures found { (k : ℕ) → IsCrowded self.old (P.words peek.old) k parts → IsTrue result →
            IsLeastPath self.old (P.words peek.old) k path.new }
        ensures none { (k : ℕ) → IsCrowded self.old (P.words peek.old) k parts → result ≡ false →
            NoChain self.old (P.words peek.old) k self.old.depth }
        ensures finder { self.new ≡ self.old }
        ensures kept { peek.new ≡ peek.old }
    {
        let checked = self.checked;
        start(&mut self.queue, &mut self.seen, parts.first, parts.second);
        let found = search(&checked, &mut self.queue, &mut self.seen, peek);
        let Some(hole) = found else {
            clean(&mut self.queue, &mut self.seen);
            return false;
        };
        trace(&self.queue, self.queue.len() - 1, &mut path.places);
        path.hole = hole;
        clean(&mut self.queue, &mut self.seen);
        true
    }

    /// A shortest path for the key, if there is one within the depth of the shape.
    ///
    /// Condition: the words reach as far as the last slot of the finder's shape, and each slot is empty or names an item.
    pub fn path<P: Peek>(&mut self, peek: &mut P, key: u64) -> Option<Path>
        requires words { HasSlots self.old (P.words peek.old) }
        requires filled { IsFilled self.old (P.words peek.old) }
        ensures found { IfSome result (IsLeastPath self.old (P.words peek.old) key) }
        ensures none { IfNone result (NoChain self.old (P.words peek.old) key self.old.depth) }
        ensures finder { self.new ≡ self.old }
        ensures kept { peek.new ≡ peek.old }
    {
        let parts = self.checked.parts(key);
        let checked = self.checked;
        if let Some(hole) = find_hole(&checked, peek, parts) {
            return Some(Path::direct(hole));
        }
        let mut path = Path::direct(Place::default());
        if self.far(peek, parts, &mut path) {
            Some(path)
        } else {
            None
        }
    }
}
