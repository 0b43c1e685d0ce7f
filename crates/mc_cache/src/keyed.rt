//! Which key a call is about. In shards it selects the shard.
ghost use Rattle.std.specs.Prelude.{◌≡◌};

use crate::calls::{
    Evicting, Putting, PuttingBounded, PuttingIf, PuttingIfAbsent, PuttingIfAbsentBounded,
    Removing, Showing, Swapping, SwappingBounded, SwappingIf, SwappingIfAbsent,
    SwappingIfAbsentBounded, Taking, TakingIf,
};

/// A call of one key, or of its shard.
pub trait Keyed {
    ghost use Rattle.std.specs.Prelude.{ℕ};

    // The key that it looks up and changes, or that names the shard.
    ghost key_of: { Self → ℕ };

    /// The key that it looks up and changes, or that names the shard.
    fn key(&self) -> u64
        ensures value { result ≡ key_of self.now };
}

impl<const V: usize> Keyed for Putting<'_, V> {
    ghost key_of = { λ c. c.0 };

    #[inline(always)]
    fn key(&self) -> u64
        ensures value { result ≡ self.now.0 }
    {
        self.0
    }
}

impl<const V: usize> Keyed for PuttingIf<'_, V> {
    ghost key_of = { λ c. c.0 };

    #[inline(always)]
    fn key(&self) -> u64
        ensures value { result ≡ self.now.0 }
    {
        self.0
    }
}

impl<const V: usize> Keyed for PuttingIfAbsent<'_, V> {
    ghost key_of = { λ c. c.0 };

    #[inline(always)]
    fn key(&self) -> u64
        ensures value { result ≡ self.now.0 }
    {
        self.0
    }
}

impl Keyed for Removing {
    ghost key_of = { λ c. c.0 };

    #[inline(always)]
    fn key(&self) -> u64
        ensures value { result ≡ self.now.0 }
    {
        self.0
    }
}

impl<const V: usize> Keyed for Swapping<'_, V> {
    ghost key_of = { λ c. c.0 };

    #[inline(always)]
    fn key(&self) -> u64
        ensures value { result ≡ self.now.0 }
    {
        self.0
    }
}

impl<const V: usize> Keyed for SwappingIf<'_, V> {
    ghost key_of = { λ c. c.0 };

    #[inline(always)]
    fn key(&self) -> u64
        ensures value { result ≡ self.now.0 }
    {
        self.0
    }
}

impl<const V: usize> Keyed for SwappingIfAbsent<'_, V> {
    ghost key_of = { λ c. c.0 };

    #[inline(always)]
    fn key(&self) -> u64
        ensures value { result ≡ self.now.0 }
    {
        self.0
    }
}

impl<const V: usize> Keyed for PuttingBounded<'_, V> {
    ghost key_of = { λ c. c.0 };

    #[inline(always)]
    fn key(&self) -> u64
        ensures value { result ≡ self.now.0 }
    {
        self.0
    }
}

impl<const V: usize> Keyed for PuttingIfAbsentBounded<'_, V> {
    ghost key_of = { λ c. c.0 };

    #[inline(always)]
    fn key(&self) -> u64
        ensures value { result ≡ self.now.0 }
    {
        self.0
    }
}

impl<const V: usize> Keyed for SwappingBounded<'_, V> {
    ghost key_of = { λ c. c.0 };

    #[inline(always)]
    fn key(&self) -> u64
        ensures value { result ≡ self.now.0 }
    {
        self.0
    }
}

impl<const V: usize> Keyed for SwappingIfAbsentBounded<'_, V> {
    ghost key_of = { λ c. c.0 };

    #[inline(always)]
    fn key(&self) -> u64
        ensures value { result ≡ self.now.0 }
    {
        self.0
    }
}

impl Keyed for Taking {
    ghost key_of = { λ c. c.0 };

    #[inline(always)]
    fn key(&self) -> u64
        ensures value { result ≡ self.now.0 }
    {
        self.0
    }
}

impl Keyed for TakingIf {
    ghost key_of = { λ c. c.0 };

    #[inline(always)]
    fn key(&self) -> u64
        ensures value { result ≡ self.now.0 }
    {
        self.0
    }
}

impl Keyed for Evicting {
    ghost key_of = { λ c. c.0 };

    #[inline(always)]
    fn key(&self) -> u64
        ensures value { result ≡ self.now.0 }
    {
        self.0
    }
}

impl Keyed for Showing {
    ghost key_of = { λ c. c.0 };

    #[inline(always)]
    fn key(&self) -> u64
        ensures value { result ≡ self.now.0 }
    {
        self.0
    }
}
