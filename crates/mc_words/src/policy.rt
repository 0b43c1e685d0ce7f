//! Which key gives way where all items are in use.
/// How a table chooses the key that gives way to a new one. The writer alone knows of it: lookups are the same.
#[derive(Clone, Copy, Debug, PartialEq, Eq)]
pub enum Policy {
    /// One hand goes round the items, and takes the first that was not used since it passed (section 3.3 of the paper of Fan, Andersen and
    /// Kaminsky). A new key counts as used.
    Clock,
    /// New keys and keys that were used again have a hand each, and new ones give way first: a scan takes little from keys in use. A new key
    /// doesn't count as used. One that gave way a short while ago comes back among the keys that were used again.
    ScanResistant,
}
