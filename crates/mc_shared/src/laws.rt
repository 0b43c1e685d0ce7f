//! The laws of the rule and of exact records, one function each. A body does nothing: what it ensures is the law.
ghost use Rattle.mc_shared.specs.ExactLaws.{ReadingsAreNewest, ReadsAreEntries, MarksAreExact, MarksAreEntries, HandsAreExact, HandsAreEntries, LookupsAreInTime, LookupsStandInOrder, MeetingsAgree, IdleActsAreNoted, StaleReadingsAreRefused};

/// Whatever step enters a reading in a reader's record, it is of the newest words: a reader that does not look breaks the rule.
pub fn readings_are_newest()
    ensures { ReadingsAreNewest }
{}

/// There is a table in which no step of its reader can enter a reading at the front that the reader saw last, not even with the right word
/// of that front: the writer has made an act since.
pub fn stale_readings_are_refused()
    ensures { StaleReadingsAreRefused }
{}

/// A running read is a step that enters a reading, of the word that its load found.
pub fn reads_are_entries()
    ensures { ReadsAreEntries }
{}

/// Whatever step enters a mark sets the bit of its item and leaves all other recency bits: a mark that writes nothing has found its bit set.
pub fn marks_are_exact()
    ensures { MarksAreExact }
{}

/// A running mark is a step that enters it: the step that writes the bit, or the load that finds it set.
pub fn marks_are_entries()
    ensures { MarksAreEntries }
{}

/// Whatever step turns the hand and leaves its item's bit clear records the bit that was there. A bit that was clear is recorded as 0.
pub fn hands_are_exact()
    ensures { HandsAreExact }
{}

/// A running turn of the hand is such a step, and records the bit that its item's recency word had: the step that leaves the bit clear, or
/// the load that finds it clear.
pub fn hands_are_entries()
    ensures { HandsAreEntries }
{}

/// A lookup among threads has a true reply, at a moment between the instant of its first step and that of its last.
pub fn lookups_are_in_time<const V: usize>()
    ensures { LookupsAreInTime V }
{}

/// A lookup's reply is true at a moment between its first step and its last, in the order of all acts and of the reader's steps.
pub fn lookups_stand_in_order<const V: usize>()
    ensures { LookupsStandInOrder V }
{}

/// Two meetings of a reader with the writer speak of one order.
pub fn meetings_agree()
    ensures { MeetingsAgree }
{}

/// An act that is made while a reader makes no step has the number of that reader's entries in its note.
pub fn idle_acts_are_noted()
    ensures { IdleActsAreNoted }
{}
