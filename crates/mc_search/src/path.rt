//! A displacement path, and how it is cut.
ghost use Rattle.std.specs.Prelude.{ℕ, ◌≡◌, ◌<◌, Some, Contains, IfNone, IfSome, List, slice_get, take};
ghost use Rattle.mc_words.specs.declared.shape.Shape.{Shape};
ghost use Rattle.mc_words.specs.Chains.{IsChain};
ghost use Rattle.mc_words.specs.Places.{IsPlace, slot_number};
ghost use Rattle.mc_search.specs.Kept.{SetsSlot};
ghost use Rattle.mc_search.specs.Paths.{first_place};

use arrayvec::ArrayVec;
use mc_words::Place;

/// How to make room for a key: the item at the last place moves to the hole, the item at the place before it to
/// the place that became empty, and so on. The key is then put into the first place, or into the hole if the path has no place.
#[derive(Drop)]
pub struct Path {
    pub places: ArrayVec<Place, 8>,
    pub hole: Place,
}

/// Which of the places this is.
fn index_of(places: &[Place], place: Place) -> Option<usize>
    ensures found { IfSome result (λ n. slice_get places.now n ≡ Some place) }
    ensures first { IfSome result (λ n. Contains (take n places.now) place → ⊥) }
    ensures none { IfNone result (Contains places.now place → ⊥) }
{
    for (n, other) in places.iter().enumerate() {
        if *other == place {
            return Some(n);
        }
    }
    None
}

impl Path {
    ghost use Rattle.mc_search.specs.Paths.{IsCut, direct_path};

    /// The path that moves nothing: the key is put into the hole.
    pub fn direct(hole: Place) -> Path
        ensures { result ≡ direct_path hole }
    {
        Path {
            places: ArrayVec::new(),
            hole,
        }
    }

    /// Where the key is put.
    pub fn first(&self) -> Place
        ensures { result ≡ first_place self.now.places.items self.now.hole }
    {
        match self.places.first() {
            Some(place) => *place,
            None => self.hole,
        }
    }

    /// Cuts the path at the victim's place, which is empty once the victim is taken out: what is left leads there. It is unchanged if that
    /// is none of its places.
    pub fn cut_at(&mut self, victim: Place)
        ensures cut { IsCut victim self.old.places.items self.old.hole self.new.places.items self.new.hole }
        ensures chain { (sh : Shape) (w later : List ℕ) (k : ℕ) → IsPlace sh victim →
            IsChain sh w k self.old.places.items self.old.hole → SetsSlot sh w later (slot_number victim) 0 →
            IsChain sh later k self.new.places.items self.new.hole }
    {
        if let Some(n) = index_of(self.places.as_slice(), victim) {
            self.places.truncate(n);
            self.hole = victim;
        }
    }
}
