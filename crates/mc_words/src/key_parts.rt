//! A key cut into its parts.
/// What a key is cut into in tables of one shape, computed once for all that a call needs.
#[derive(Clone, Copy, Debug, PartialEq, Eq)]
pub struct KeyParts {
    /// The byte that its slot keeps.
    pub tag: u8,
    /// The first of its two buckets.
    pub first: u32,
    /// The other one.
    pub second: u32,
    /// The stripe whose version counts its changes.
    pub stripe: u32,
    /// The key, mixed. No contract speaks of it: it is for notes of keys that gave way.
    pub mixed: u64,
}
