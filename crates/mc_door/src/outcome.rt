//! What a call returns to C: a status, and the numbers of a reply.
ghost use Rattle.std.specs.Prelude.{◌≡◌, None, Some};
ghost use Rattle.mc_door.specs.Tellings.{done_told, lookup_told, not_put_if_told, not_put_told, plain, told_at, told_since};
ghost use Rattle.mc_plan.specs.declared.answer.Put.TheVariants.{Renewed, Stored};
ghost use Rattle.mc_door.specs.Batches.{put_answer};

use crate::looked::Looked;
use crate::status;
use mc_cache::{IfError, PutError};

/// No change of a key is reported.
pub const NOTHING: u32 = 0;

/// The key is new.
pub const STORED: u32 = 1;

/// The key is new, and another was taken out for it.
pub const EVICTED: u32 = 2;

/// The key was there.
pub const RENEWED: u32 = 3;

/// The numbers of a reply. A number that does not apply to the status is 0.
#[repr(C)]
#[derive(Clone, Copy)]
pub struct RawReply {
    /// The moment at which the answer held, or of the change that was made.
    pub at: u64,
    /// The moment of the key's last put.
    pub since: u64,
    /// The key that was taken out, or whose entry is shown.
    pub evicted: u64,
    /// How many keys were moved.
    pub moves: u32,
    /// What a put did.
    pub put: u32,
}

/// A status with its reply.
#[derive(Clone, Copy)]
pub struct Outcome {
    pub status: u32,
    pub reply: RawReply,
}

impl Outcome {
    /// A status alone.
    #[inline(always)]
    pub fn plain(status: u32) -> Outcome
        ensures { result ≡ plain status }
    {
        Outcome {
            status,
            reply: RawReply {
                at: 0,
                since: 0,
                evicted: 0,
                moves: 0,
                put: NOTHING,
            },
        }
    }

    /// Writes the reply, and returns the status.
    #[inline(always)]
    pub fn tell(self, reply: &mut RawReply) -> u32
        ensures { record { status = result; reply = reply.new } ≡ self }
    {
        *reply = self.reply;
        self.status
    }

    /// A status and a moment.
    #[inline(always)]
    pub(crate) fn at(status: u32, at: u64) -> Outcome
        ensures { result ≡ told_at status at }
    {
        let mut told = Outcome::plain(status);
        told.reply.at = at;
        told
    }

    /// A status and the moment of the key's last put.
    #[inline(always)]
    pub(crate) fn since(status: u32, since: u64) -> Outcome
        ensures { result ≡ told_since status since }
    {
        let mut told = Outcome::plain(status);
        told.reply.since = since;
        told
    }

    #[inline(always)]
    pub(crate) fn looked(answer: Looked) -> Outcome
        ensures { result ≡ lookup_told answer }
    {
        match answer {
            Looked::Found { at, since } => {
                let mut told = Outcome::at(status::OK, at);
                told.reply.since = since;
                told
            }
            Looked::Absent { at } => Outcome::at(status::ABSENT, at),
            Looked::Busy => Outcome::plain(status::BUSY),
        }
    }

    #[inline(always)]
    pub(crate) fn renewed(at: u64) -> Outcome
        ensures { result ≡ done_told (Renewed at) }
    {
        let mut told = Outcome::at(status::OK, at);
        told.reply.put = RENEWED;
        told
    }

    #[inline(always)]
    pub(crate) fn stored(at: u64, moves: u8) -> Outcome
        ensures { result ≡ done_told (Stored at moves None) }
    {
        let mut told = Outcome::at(status::OK, at);
        told.reply.moves = u32::from(moves);
        told.reply.put = STORED;
        told
    }

    #[inline(always)]
    pub(crate) fn evicted(at: u64, moves: u8, key: u64) -> Outcome
        ensures { result ≡ done_told (Stored at moves (Some key)) }
    {
        let mut told = Outcome::at(status::OK, at);
        told.reply.moves = u32::from(moves);
        told.reply.evicted = key;
        told.reply.put = EVICTED;
        told
    }

    #[inline(always)]
    pub(crate) fn not_put(why: PutError) -> Outcome
        ensures { result ≡ not_put_told why }
    {
        match why {
            PutError::NoPath => Outcome::plain(status::NO_PATH),
            PutError::AllRecent => Outcome::plain(status::ALL_RECENT),
            PutError::Spent => Outcome::plain(status::SPENT),
        }
    }

    #[inline(always)]
    pub(crate) fn not_put_if(why: IfError) -> Outcome
        ensures { result ≡ not_put_if_told why }
    {
        match why {
            IfError::Spent => Outcome::plain(status::SPENT),
            IfError::NotThere { at } => Outcome::at(status::ABSENT, at),
            IfError::Changed { since } => Outcome::since(status::CHANGED, since),
        }
    }
}

/// One answer of many puts: that of `cefrodil_put`.
#[repr(C)]
#[derive(Clone, Copy)]
pub struct RawPut {
    pub reply: RawReply,
    pub status: u32,
    pub unused: u32,
}

impl RawPut {
    /// The answer that has this status and reply.
    #[inline(always)]
    pub fn of(told: Outcome) -> RawPut
        ensures { result ≡ put_answer told }
    {
        RawPut {
            reply: told.reply,
            status: told.status,
            unused: 0,
        }
    }
}
