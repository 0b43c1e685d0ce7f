//! What a lookup returns when its value is written beside its answer.
ghost use Rattle.std.specs.Prelude.{◌≡◌, length};
ghost use Rattle.mc_door.specs.Looks.{LeavesUnlessFound, reply_of};

use mc_cache::Reply;

/// What a lookup returned. The value, if there is one, was written where the caller asked for it.
#[derive(Clone, Copy, Debug, PartialEq, Eq)]
pub enum Looked {
    Found { at: u64, since: u64 },
    Absent { at: u64 },
    Busy,
}

impl Looked {
    /// Converts a reply, and writes its value if it has one.
    #[inline(always)]
    pub(crate) fn of<const V: usize>(reply: Reply<V>, value: &mut [u64]) -> Looked
        requires { length value.old ≡ V }
        ensures told { reply.entry ≡ reply_of V value.new result }
        ensures left { LeavesUnlessFound value.old value.new result }
    {
        match reply {
            Reply::Found {
                value: found,
                at,
                since,
            } => {
                value.copy_from_slice(&found);
                Looked::Found { at, since }
            }
            Reply::Absent { at } => Looked::Absent { at },
            Reply::Busy => Looked::Busy,
        }
    }
}
