//! The lines that are written for answers.
ghost use Rattle.std.specs.Prelude.{Some};
ghost use Rattle.mc_replay.specs.Texts.{answer_text, done_text, left_text, put_text, reopened_text, reply_text, stamp_text, why_text, words_text};

use mc_core::{Done, Reply};
use mc_plan::{Answer, IfError, Put, PutError, Remove, Spent, Why};
use std::fmt;

/// What a `put` did, as a line says it.
#[derive(Clone, Copy)]
struct PutLine(Put);

impl fmt::Display for PutLine {
    ghost output = { λ line. Some (put_text line.0) };

    fn fmt<W: fmt::Write>(&self, f: &mut fmt::Formatter<W>) -> fmt::Result {
        match self.0 {
            Put::Stored { at, moves, evicted } => {
                write!(f, "stored at {at} moves {moves}")?;
                match evicted {
                    None => Ok(()),
                    Some(key) => write!(f, " evicted {key}"),
                }
            }
            Put::Renewed { at } => write!(f, "renewed at {at}"),
        }
    }
}

/// The line of a call's answer, without its end.
#[derive(Clone, Copy)]
pub(crate) struct AnswerLine(pub(crate) Answer);

impl fmt::Display for AnswerLine {
    ghost output = { λ line. Some (answer_text line.0) };

    fn fmt<W: fmt::Write>(&self, f: &mut fmt::Formatter<W>) -> fmt::Result {
        match self.0 {
            Answer::Put(Ok(put)) | Answer::Kept(Ok(put)) => {
                let put = PutLine(put);
                write!(f, "{put}")
            }
            Answer::Put(Err(PutError::NoPath)) | Answer::Kept(Err(Why::NoPath)) => {
                write!(f, "refused no path")
            }
            Answer::Put(Err(PutError::AllRecent)) => write!(f, "refused all recent"),
            Answer::Kept(Err(Why::NoItem)) => write!(f, "refused no item"),
            Answer::PutIf(Err(IfError::Changed { since })) => {
                write!(f, "refused changed since {since}")
            }
            Answer::Put(Err(PutError::Spent))
            | Answer::PutIf(Err(IfError::Spent))
            | Answer::Remove(Err(Spent))
            | Answer::Kept(Err(Why::Spent)) => write!(f, "refused spent"),
            Answer::PutIf(Ok(at)) => write!(f, "renewed at {at}"),
            Answer::Remove(Ok(Remove::Removed { at })) => write!(f, "removed at {at}"),
            Answer::PutIf(Err(IfError::NotThere { at }))
            | Answer::Remove(Ok(Remove::NotThere { at })) => write!(f, "not there at {at}"),
        }
    }
}

/// The words of a value, a blank before each.
#[derive(Clone, Copy)]
struct Words<'a>(&'a [u64]);

impl<'a> fmt::Display for Words<'a> {
    ghost output = { λ words. Some (words_text words.0.now) };

    fn fmt<W: fmt::Write>(&self, f: &mut fmt::Formatter<W>) -> fmt::Result {
        for word in self.0 {
            write!(f, " {word}")?;
        }
        Ok(())
    }
}

/// The line of a lookup's reply, without its end.
#[derive(Clone, Copy)]
pub(crate) struct ReplyLine<const V: usize>(pub(crate) Reply<V>);

impl<const V: usize> fmt::Display for ReplyLine<V> {
    ghost output = { λ line. Some (reply_text line.0) };

    fn fmt<W: fmt::Write>(&self, f: &mut fmt::Formatter<W>) -> fmt::Result {
        match &self.0 {
            Reply::Found { value, at, .. } => {
                let words = Words(value);
                write!(f, "found{words} at {at}")
            }
            Reply::Absent { at } => write!(f, "absent at {at}"),
            Reply::Busy => write!(f, "busy"),
        }
    }
}

/// The line of a reply that gives the moment of the key's last put, without its end.
#[derive(Clone, Copy)]
pub(crate) struct StampLine<const V: usize>(pub(crate) Reply<V>);

impl<const V: usize> fmt::Display for StampLine<V> {
    ghost output = { λ line. Some (stamp_text line.0) };

    fn fmt<W: fmt::Write>(&self, f: &mut fmt::Formatter<W>) -> fmt::Result {
        let reply = ReplyLine(self.0);
        match self.0 {
            Reply::Found { since, .. } => write!(f, "{reply} since {since}"),
            Reply::Absent { .. } | Reply::Busy => write!(f, "{reply}"),
        }
    }
}

/// The line of a reader's lookup that has ended, without its end.
#[derive(Clone, Copy)]
pub(crate) struct DoneLine<const V: usize>(pub(crate) Done<V>);

impl<const V: usize> fmt::Display for DoneLine<V> {
    ghost output = { λ line. Some (done_text line.0) };

    fn fmt<W: fmt::Write>(&self, f: &mut fmt::Formatter<W>) -> fmt::Result {
        let reader = self.0.reader;
        let reply = ReplyLine(self.0.reply);
        write!(f, "reader {reader} {reply}")
    }
}

/// Why an entry was left, as a line says it.
#[derive(Clone, Copy)]
struct Reason(Why);

impl fmt::Display for Reason {
    ghost output = { λ reason. Some (why_text reason.0) };

    fn fmt<W: fmt::Write>(&self, f: &mut fmt::Formatter<W>) -> fmt::Result {
        match self.0 {
            Why::NoPath => write!(f, "no path"),
            Why::NoItem => write!(f, "no item"),
            Why::Spent => write!(f, "spent"),
        }
    }
}

/// The line of an entry that was left, without its end.
#[derive(Clone, Copy)]
pub(crate) struct LeftLine {
    pub(crate) key: u64,
    pub(crate) why: Why,
}

impl fmt::Display for LeftLine {
    ghost output = { λ line. Some (left_text line.key line.why) };

    fn fmt<W: fmt::Write>(&self, f: &mut fmt::Formatter<W>) -> fmt::Result {
        let key = self.key;
        let reason = Reason(self.why);
        write!(f, "left {key} {reason}")
    }
}

/// The first line after a world was opened instead of another, without its end.
#[derive(Clone, Copy)]
pub(crate) struct ReopenedLine {
    pub(crate) at: u64,
    pub(crate) left: usize,
}

impl fmt::Display for ReopenedLine {
    ghost output = { λ line. Some (reopened_text line.at line.left) };

    fn fmt<W: fmt::Write>(&self, f: &mut fmt::Formatter<W>) -> fmt::Result {
        let at = self.at;
        let left = self.left;
        write!(f, "reopened at {at} left {left}")
    }
}
