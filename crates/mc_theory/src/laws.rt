//! The laws of lists of acts, of lookups and of traces, one function each. A body does nothing: what it ensures is the law.
ghost use Rattle.mc_theory.specs.Growth.{LawfulGrows, StatesFollow, FrontsStay, ReadingsStay, ReadingsGrow, HistoriesGrow};
ghost use Rattle.mc_theory.specs.Laws.{AgreesAlways, StaysWhileEven, RepliesAreTrue, EvictsAreClear, CountsAlways, HandStays, ChangesFit, LookupsAreShort};
ghost use Rattle.mc_theory.specs.Spans.{EventsTellHistories, EndsTellSpans, TracesArePlainlyTrue};
ghost use Rattle.mc_theory.specs.Traces.{TracesAreTrue, BitsStay};
ghost use Rattle.mc_theory.specs.Writes.{WritesItsWord, ActsNameTheTable, KeepsItsWords, WordsFit, ReadsItsWord};

/// At every front of a lawful list of acts the words agree with the history, which is legal.
pub fn agrees<const V: usize>()
    ensures { AgreesAlways V }
{}

/// While the version of a key's stripe stays at one even number, nothing of the key changes.
pub fn stays_while_even<const V: usize>()
    ensures { StaysWhileEven V }
{}

/// A lookup that read words of one lawful list, at fronts that don't fall, replies what the map held at a moment of its span.
pub fn replies_are_true<const V: usize>()
    ensures { RepliesAreTrue V }
{}

/// Whoever is evicted had a clear recency bit when the hand read it.
pub fn evictions_are_clear<const V: usize>()
    ensures { EvictsAreClear V }
{}

/// A bound on the number of version changes bounds every version and the moment.
pub fn counts<const V: usize>()
    ensures { CountsAlways V }
{}

/// The hand never leaves the items.
pub fn hand_stays<const V: usize>()
    ensures { HandStays V }
{}

/// A history names keys and values that a caller can have given.
pub fn changes_fit<const V: usize>()
    ensures { ChangesFit V }
{}

/// How a lawful list grows.
pub fn lawful_grows<const V: usize>()
    ensures { LawfulGrows V }
{}

/// How the state of a list follows from its acts.
pub fn states_follow<const V: usize>()
    ensures { StatesFollow V }
{}

/// What the writer does next changes no earlier front.
pub fn fronts_stay<const V: usize>()
    ensures { FrontsStay V }
{}

/// What was read stays read.
pub fn readings_stay<const V: usize>()
    ensures { ReadingsStay V }
{}

/// How readings continue.
pub fn readings_grow<const V: usize>()
    ensures { ReadingsGrow V }
{}

/// The history only grows.
pub fn histories_grow<const V: usize>()
    ensures { HistoriesGrow V }
{}

/// Each act is a write of one word, at a place of the table.
pub fn act_writes_its_word<const V: usize>()
    ensures { WritesItsWord V }
{}

/// No act names what the table doesn't have.
pub fn acts_name_the_table<const V: usize>()
    ensures { ActsNameTheTable V }
{}

/// The number of words never changes.
pub fn words_keep_their_number<const V: usize>()
    ensures { KeepsItsWords V }
{}

/// Each word fits a `u64`.
pub fn words_fit<const V: usize>()
    ensures { WordsFit V }
{}

/// Each access is a reading of one word, at a place of the table.
pub fn access_reads_its_word<const V: usize>()
    ensures { ReadsItsWord V }
{}

/// No lookup reads more words than its tries allow.
pub fn lookups_are_short<const V: usize>()
    ensures { LookupsAreShort V }
{}

/// Whatever the writer and the readers do, one atomic step after the other: each lookup that ends replies what the map held at a moment between its first reading and its last.
pub fn traces_are_true<const V: usize>()
    ensures { TracesAreTrue V }
{}

/// A recency bit is never anything but 0 or 1.
pub fn bits_stay<const V: usize>()
    ensures { BitsStay V }
{}

/// The acts in a list of events determine the history that a trace has after them, without its words.
pub fn events_tell_histories<const V: usize>()
    ensures { EventsTellHistories V }
{}

/// What a lookup that ended reports of its first access and its last is where these are in the list of events.
pub fn ends_tell_spans<const V: usize>()
    ensures { EndsTellSpans V }
{}

/// Each lookup that ends has a true reply, stated by the list of events and by what the lookup returns: it names no word of the table.
pub fn traces_are_plainly_true<const V: usize>()
    ensures { TracesArePlainlyTrue V }
{}
