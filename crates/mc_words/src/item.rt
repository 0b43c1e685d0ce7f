//! How many words an item keeps after its key, and how far it is to the next item.
ghost use Rattle.std.specs.Prelude.{◌≡◌, ◌+◌, ◌≤◌};
ghost use Rattle.mc_words.specs.Places.{IsWidth, payload, most_payload};

/// How many words an item keeps after its key: its value of `V` words, and its stamp, the moment of the last put.
/// Condition: a value has from 1 to 8 words.
#[tactic(auto, unfolding(crate::specs::Places::payload))]
pub fn payload_words<const V: usize>() -> usize
    requires { IsWidth V }
    ensures count { result ≡ payload V }
    ensures few { result ≤ most_payload }
{
    V + 1
}

/// How many words there are from one item to the next: the key, the value and the stamp.
/// Condition: a value has from 1 to 8 words.
pub fn item_stride<const V: usize>() -> usize
    requires { IsWidth V }
    ensures count { result ≡ 1 + payload V }
    ensures few { result ≤ 1 + most_payload }
{
    1 + payload_words::<V>()
}
