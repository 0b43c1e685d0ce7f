//! A plain map that replaces another, whose entries were put into it.
use crate::due::Due;
use crate::plain::Plain;
use mc_words::Shape;
use std::alloc::AllocError;

impl Plain {
    /// Puts an entry that may be left. If it is left, line `next` of `left` reports why, and `next` moves on to the following line. Returns
    /// whether that may be so.
    fn load(
        &mut self,
        key: u64,
        value: u64,
        left: &[&str],
        next: &mut usize,
    ) -> Result<bool, AllocError> {
        let told = left.get(*next).copied().unwrap_or("");
        let held = self.held();
        if Due::NoPath(key).is(told) {
            *next = next.saturating_add(1);
            return Ok(held >= 8);
        }
        if held == self.slots() {
            return Ok(false);
        }
        let Some(item) = self.free() else {
            *next = next.saturating_add(1);
            return Ok(Due::NoItem(key).is(told));
        };
        self.hold(key, value, item)?;
        self.set(item, Some(key), true);
        Ok(true)
    }

    /// Puts the entries of the map into a new one of these sizes, in the order of their items. Returns whether the lines report it so.
    pub(crate) fn reopen(
        &mut self,
        buckets: u32,
        items: u32,
        told: &str,
        left: &[&str],
    ) -> Result<bool, AllocError> {
        let shape = Shape {
            buckets,
            items,
            ..self.shape
        };
        let mut other = Plain::new(self.alloc, shape)?;
        let mut next = 0;
        for item in self.items.iter() {
            let Some(key) = item.key else {
                continue;
            };
            let Some(held) = self.entry(key, self.changes.len()) else {
                return Ok(false);
            };
            if !other.load(key, held.value, left, &mut next)? {
                return Ok(false);
            }
        }
        let due = Due::Reopened(other.changes.len(), left.len());
        *self = other;
        Ok(next == left.len() && due.is(told))
    }
}
