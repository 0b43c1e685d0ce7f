//! A shape that was checked: the parts of a key, the format of a slot word, the places of words.
ghost use Rattle.mc_words.specs.Keys.{mixed_key, tag_of, first_of, offset_of, alternate, stripe_of, slot_word, tag_in, item_in, NamesSome, MatchesTag};
ghost use Rattle.std.specs.Prelude.{ℕ, ◌≡◌, ◌≢◌, ◌+◌, ◌*◌, ◌^◌, ◌<◌, ◌≤◌};
ghost use Rattle.mc_words.specs.Places.{slot_number, IsPlace, IsWidth, payload, word_count, all_words, version_place, slot_place, item_place, recency_place, PlacesApart};
ghost use Rattle.mc_words.specs.Recency.{recency_bit};
ghost use Rattle.mc_words.specs.Shapes.{IsShape};

use crate::item::item_stride;
use crate::key_parts::KeyParts;
use crate::place::Place;
use crate::policy::Policy;
use crate::shape::Shape;

/// A shape whose fields are all in their ranges: it cuts keys into their parts and computes where each word is.
#[derive(Clone, Copy, Debug, PartialEq, Eq)]
pub struct Checked {
    pub(crate) shape: Shape,
    pub(crate) policy: Policy,
    pub ghost sound: { IsShape shape },
}

impl Checked {
    ghost use Rattle.mc_words.specs.Checks.{policy_of, shape_of, Parts};
    ghost use Rattle.mc_words.specs.KeyParts.{HasParts};

    /// The shape that was checked.
    pub fn shape(&self) -> Shape
        ensures { result ≡ shape_of self.now }
    {
        self.shape
    }

    /// The policy of the table: CLOCK, unless another was asked for.
    pub fn policy(&self) -> Policy
        ensures { result ≡ policy_of self.now }
    {
        self.policy
    }

    /// This shape for a table of this policy.
    pub fn with_policy(self, policy: Policy) -> Checked
        ensures { result ≡ record self { policy = policy } }
    {
        Checked {
            shape: self.shape,
            policy,
        }
    }

    /// The mixed key, of which its parts are cut.
    #[inline(always)]
    pub fn mixed(&self, key: u64) -> u64
        ensures { result ≡ mixed_key (shape_of self.now).mix key }
    {
        self.shape.mix.mix(key)
    }

    /// The byte of the key that its slot keeps.
    #[tactic(auto, unfolding(crate::specs::Keys::tag_of))]
    pub fn tag(&self, key: u64) -> u8
        ensures { result ≡ tag_of (shape_of self.now) key }
    {
        (self.shape.mix.mix(key) >> 56) as u8
    }

    /// The first of the key's two buckets.
    pub fn first(&self, key: u64) -> u32
        ensures bucket { result ≡ first_of (shape_of self.now) key }
        ensures range { result < (shape_of self.now).buckets }
    {
        (self.shape.mix.mix(key) & u64::from(self.shape.buckets - 1)) as u32
    }

    /// How far apart the two buckets of a key of this tag are.
    fn offset(&self, tag: u8) -> u32
        ensures offset { result ≡ offset_of (shape_of self.now) tag }
        ensures range { result < (shape_of self.now).buckets }
    {
        let product = (2 * u64::from(tag) + 1) * 0x5bd1_e995;
        (product & u64::from(self.shape.buckets - 1)) as u32
    }

    /// The other bucket of a key that has this tag and this bucket. The tag alone gives it, without the key.
    /// Condition: the bucket is one of the table.
    pub fn alt(&self, b: u32, tag: u8) -> u32
        requires { b < (shape_of self.now).buckets }
        ensures bucket { result ≡ alternate (shape_of self.now) b tag }
        ensures range { result < (shape_of self.now).buckets }
        ensures other { result ≢ b }
        ensures back { alternate (shape_of self.now) result tag ≡ b }
    {
        b ^ self.offset(tag)
    }

    /// The stripe whose version counts the changes of the key.
    pub fn stripe(&self, key: u64) -> u32
        ensures stripe { result ≡ stripe_of (shape_of self.now) key }
        ensures range { result < (shape_of self.now).stripes }
    {
        ((self.shape.mix.mix(key) >> 32) & u64::from(self.shape.stripes - 1)) as u32
    }

    /// The parts of the key, and the key as it is mixed.
    #[inline(always)]
    pub fn parts(&self, key: u64) -> KeyParts
        ensures { HasParts (shape_of self.now) key result }
    {
        let tag = self.tag(key);
        let first = self.first(key);
        let stripe = self.stripe(key);
        KeyParts {
            tag,
            first,
            second: self.alt(first, tag),
            stripe,
            mixed: self.mixed(key),
        }
    }

    /// The word of a slot that names the item under the tag. Condition: the item is one of the table.
    #[tactic(auto, unfolding(crate::specs::Keys::slot_word))]
    pub fn slot_word(&self, tag: u8, i: u32) -> u64
        requires { i < (shape_of self.now).items }
        ensures { result ≡ slot_word tag i }
    {
        (u64::from(tag) << 32) + u64::from(i) + 1
    }

    /// The tag and the item that a word names: none for 0 and for every word that is no slot word of an item of the table.
    pub fn slot_parts(&self, w: u64) -> Option<(u8, u32)>
        ensures { Parts (shape_of self.now) w result }
    {
        let rest = w.checked_sub(1)?;
        let tag = rest >> 32;
        let item = rest & 0xffff_ffff;
        if tag < 256 && item < u64::from(self.shape.items) {
            Some((tag as u8, item as u32))
        } else {
            None
        }
    }

    /// The item that a slot's word names under the tag whose word of item 0 is `base`: one subtraction and one comparison.
    #[inline(always)]
    #[tactic(auto, unfolding(crate::specs::Keys::slot_word))]
    pub fn tag_match(&self, base: u64, word: u64) -> Option<u32>
        ensures { (tag : ℕ) → base ≡ slot_word tag 0 → MatchesTag (shape_of self.now) tag word result }
    {
        let item = word.wrapping_sub(base);
        if item < u64::from(self.shape.items) {
            Some(item as u32)
        } else {
            None
        }
    }

    /// The tag in a slot's word. Condition: the word names an item of the table.
    #[inline(always)]
    #[tactic(auto, unfolding(crate::specs::Keys::tag_in))]
    pub fn tag_in(&self, word: u64) -> u8
        requires { NamesSome (shape_of self.now) word }
        ensures { result ≡ tag_in word }
    {
        ((word - 1) >> 32) as u8
    }

    /// The item in a slot's word. Condition: the word names an item of the table.
    #[inline(always)]
    #[tactic(auto, unfolding(crate::specs::Keys::item_in))]
    pub fn item_in(&self, word: u64) -> u32
        requires { NamesSome (shape_of self.now) word }
        ensures item { result ≡ item_in word }
        ensures range { result < (shape_of self.now).items }
    {
        ((word - 1) % (1 << 32)) as u32
    }

    /// Where the moment is.
    pub fn moment_place(&self) -> usize
        ensures { result ≡ 0 }
    {
        0
    }

    /// Where the version of a stripe is. Condition: the stripe is one of the table.
    pub fn version_place(&self, s: u32) -> usize
        requires { s < (shape_of self.now).stripes }
        ensures { result ≡ version_place s }
    {
        1 + s as usize
    }

    /// Where a slot is. Condition: the slot is one of the table.
    pub fn slot_place(&self, place: Place) -> usize
        requires { IsPlace (shape_of self.now) place }
        ensures { result ≡ slot_place (shape_of self.now) (slot_number place) }
    {
        // The sum of a bucket first: it serves all of its slots.
        let bucket = 1 + self.shape.stripes as usize + 4 * place.bucket as usize;
        bucket + usize::from(place.slot)
    }

    /// Where the items begin.
    fn items_place(&self) -> usize
        ensures { result ≡ 1 + (shape_of self.now).stripes + 4 * (shape_of self.now).buckets }
    {
        1 + self.shape.stripes as usize + 4 * self.shape.buckets as usize
    }

    /// Where a word of an item is: word 0 is the key, words 1 to `V` are the value, word `V + 1` is the stamp.
    /// Condition: the item is one of the table and has such a word, and a value has from 1 to 8 words.
    pub fn item_place<const V: usize>(&self, i: u32, j: u8) -> usize
        requires width { IsWidth V }
        requires item { i < (shape_of self.now).items }
        requires word { j ≤ payload V }
        ensures { result ≡ item_place V (shape_of self.now) i j }
    {
        self.item_from::<V>(self.items_place(), i, j)
    }

    /// Like `item_place`, for a caller that has computed where the items begin. Condition: they begin at `items`, and a value has from 1 to
    /// 8 words.
    #[inline(always)]
    pub fn item_from<const V: usize>(&self, items: usize, i: u32, j: u8) -> usize
        requires width { IsWidth V }
        requires items { items ≡ item_place V (shape_of self.now) 0 0 }
        ensures { result ≡ item_place V (shape_of self.now) i j }
    {
        let _ = self;
        items + i as usize * item_stride::<V>() + usize::from(j)
    }

    /// Where the recency words begin: how many words the moment, the versions, the slots and the items have.
    /// Condition: a value has from 1 to 8 words.
    pub fn recency_start<const V: usize>(&self) -> usize
        requires { IsWidth V }
        ensures count { result ≡ word_count V (shape_of self.now) }
        ensures bound { result < 2 ^ 40 }
    {
        self.items_place() + self.shape.items as usize * item_stride::<V>()
    }

    /// Where the word that holds the recency bit of an item is.
    /// Condition: the item is one of the table, and a value has from 1 to 8 words.
    #[tactic(auto, unfolding(crate::specs::Recency::recency_word))]
    pub fn recency_place<const V: usize>(&self, i: u32) -> usize
        requires width { IsWidth V }
        requires item { i < (shape_of self.now).items }
        ensures { result ≡ recency_place V (shape_of self.now) i }
    {
        self.recency_start::<V>() + i as usize / 64
    }

    /// Which bit of that word is the item's.
    #[tactic(auto, unfolding(crate::specs::Recency::recency_bit))]
    pub fn recency_bit(&self, i: u32) -> u8
        ensures bit { result ≡ recency_bit i }
        ensures range { result < 64 }
    {
        (i % 64) as u8
    }

    /// How many words a table of this shape has. Condition: a value has from 1 to 8 words.
    #[tactic(auto, unfolding(crate::specs::Recency::recency_words))]
    pub fn words<const V: usize>(&self) -> usize
        requires { IsWidth V }
        ensures count { result ≡ all_words V (shape_of self.now) }
        ensures apart { PlacesApart V }
    {
        self.recency_start::<V>() + (self.shape.items as usize + 63) / 64
    }
}
