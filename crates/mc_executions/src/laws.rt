//! The laws of executions, one function each. A body does nothing: what it ensures is the law.
ghost use Rattle.mc_executions.specs.Headline.{Headline};
ghost use Rattle.mc_executions.specs.ExecutionTraces.{ExecutionsAreTraces};
ghost use Rattle.mc_executions.specs.GrownExecutions.{AllExecutionsGrow, AllReadersMayCome, AllWritersMayAct};
ghost use Rattle.mc_executions.specs.TimedLookups.{LookupsAreTimed, GetsAreTimed, ManyAreTimed, WritersGetsAreTimed, BesideIsTimed, FallbacksAreTimed};
ghost use Rattle.mc_executions.specs.ShardedTime.{ShardsAreTimed};
ghost use Rattle.mc_executions.specs.TimeOrder.{MomentsKeepOrder, WritesAreSeen, ChangesAreSteps, LogIsOne, RecordIsOne, RecordsPass};
ghost use Rattle.mc_executions.specs.ClearVictims.{VictimsWereClear};
ghost use Rattle.mc_executions.specs.Linearizable.{CallsAreLinearizable};
ghost use Rattle.mc_executions.specs.RunningDoor.{AnswersAreTimed};
ghost use Rattle.mc_executions.specs.RunningSteps.{EachIsAStep};
ghost use Rattle.mc_executions.specs.TracedCalls.{CallsKeepWhole};
ghost use Rattle.mc_executions.specs.EvictionExample.{EvictedThenMet};
ghost use Rattle.mc_executions.specs.Example.{PutBesideGet};

/// For every order of a lawful writer's and any readers' atomic steps, each completed lookup answers what the map of the writer's changes held
/// of its key at one moment between the lookup's first and last step; every victim's recency bit was clear when the hand read it; each
/// atomic step of the running cache is one of these steps.
pub fn headline<const V: usize>()
    ensures { Headline V }
{}

/// A new table is an execution, and each step that keeps the rule may come next.
pub fn executions_grow()
    ensures { AllExecutionsGrow }
{}

/// Each execution is a trace of the sequential model, with the same acts and the same lookups.
pub fn executions_are_traces<const V: usize>()
    ensures { ExecutionsAreTraces V }
{}

/// The calls of readers add whole lookups and single marks to their records, and nothing else.
pub fn calls_keep_whole<const V: usize>()
    ensures { CallsKeepWhole V }
{}

/// A reader may be seated on a new table, and may read any word next.
pub fn readers_may_come()
    ensures { AllReadersMayCome }
{}

/// There is an execution in which a put and a lookup of its key overlap: the lookup begins before the change of the map, is spoiled by
/// the put once, and finds the new value, which the map held between two of its steps.
pub fn put_beside_get()
    ensures { PutBesideGet }
{}

/// There is an execution with two readers in which a key is put and evicted. One reader meets the writer then, and its lookup beside the writer
/// replies that it is absent.
pub fn evicted_then_met()
    ensures { EvictedThenMet }
{}

/// In every execution each lookup of each reader is true at a moment between the step that entered its first entry and the step that
/// entered its last.
pub fn lookups_are_timed<const V: usize>()
    ensures { LookupsAreTimed V }
{}

/// What `get` ensures of a reader's record makes its reply true at a moment between two steps of that call.
pub fn gets_are_timed<const V: usize>()
    ensures { GetsAreTimed V }
{}

/// So with each reply of `get_many`, in the order of its keys.
pub fn many_are_timed<const V: usize>()
    ensures { ManyAreTimed V }
{}

/// The reply of the writer's own `get` is true at each moment of the call.
pub fn writers_gets_are_timed<const V: usize>()
    ensures { WritersGetsAreTimed V }
{}

/// So is the reply of `get_beside`.
pub fn beside_is_timed<const V: usize>()
    ensures { BesideIsTimed V }
{}

/// The reply of `get_or_desk` is true at a moment between call and return, if it looked the key up in a turn, too.
pub fn fallbacks_are_timed<const V: usize>()
    ensures { FallbacksAreTimed V }
{}

/// A lookup of shards answers what the one map of all shards held at a moment between two steps of the key's shard.
pub fn shards_are_timed<const V: usize>()
    ensures { ShardsAreTimed V }
{}

/// What `cefrodil_get`, `cefrodil_get_or_turn` and their like ensure (`GetTells`, `GetOrTurnTells`) makes the answer that they tell true at a
/// moment between call and return.
pub fn answers_are_timed()
    ensures { AnswersAreTimed }
{}

/// Lookups of any two readers keep the order of time: if one's last step comes no later than the other's first, so does its moment.
pub fn moments_keep_order<const V: usize>()
    ensures { MomentsKeepOrder V }
{}

/// A lookup that begins after a write sees it, and one that ends before it doesn't.
pub fn writes_are_seen<const V: usize>()
    ensures { WritesAreSeen V }
{}

/// Each change of a call of the writer takes effect at one step of that call.
pub fn changes_are_steps<const V: usize>()
    ensures { ChangesAreSteps V }
{}

/// Lookups whose answers are true within their calls, and calls of the writer, are linearizable: each takes effect at one moment of its call.
pub fn calls_are_linearizable<const V: usize>()
    ensures { CallsAreLinearizable V }
{}

/// In every execution the recency bit of each victim's item was 0 when the hand's step read it, and nothing was opened or swept between.
pub fn victims_were_clear<const V: usize>()
    ensures { VictimsWereClear V }
{}

/// Each operation on a seat is a step: whatever proof its caller has that the rule allows it, the state to which it leads is a step from
/// the one that it meets.
pub fn each_is_a_step()
    ensures { EachIsAStep }
{}

/// The acts that were made are a function of the state: whatever proof there is that a state keeps the rule, its list of acts is the same.
pub fn log_is_one()
    ensures { LogIsOne }
{}

/// A reader has one record.
pub fn record_is_one()
    ensures { RecordIsOne }
{}

/// A record passes through each of its parts.
pub fn records_pass()
    ensures { RecordsPass }
{}

/// The writer may make any lawful act next.
pub fn writers_may_act()
    ensures { AllWritersMayAct }
{}
