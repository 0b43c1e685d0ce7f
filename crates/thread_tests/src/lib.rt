//! Tests of what threads do with shared words: the calls that no contract shows to succeed, and their answers beside
//! values from elsewhere.
//!
//! All of them are in this crate, and see of each crate what any other crate sees.
#![tactic(auto)]

#[cfg(test)]
mod answers_checked;
#[cfg(test)]
mod batches;
#[cfg(test)]
mod calls;
#[cfg(test)]
mod deeds;
#[cfg(test)]
mod desk;
#[cfg(test)]
mod desk_draws;
#[cfg(test)]
mod desk_gate;
#[cfg(test)]
mod evictions;
#[cfg(test)]
mod gate_counts;
#[cfg(test)]
mod journal;
#[cfg(test)]
mod large;
#[cfg(test)]
mod late_gate;
#[cfg(test)]
mod late_read;
#[cfg(test)]
mod load_draws;
#[cfg(test)]
mod load_gate;
#[cfg(test)]
mod load_rows;
#[cfg(test)]
mod loaded;
#[cfg(test)]
mod loaded_shards;
#[cfg(test)]
mod looker;
#[cfg(test)]
mod marks;
#[cfg(test)]
mod opened;
#[cfg(test)]
mod openings;
#[cfg(test)]
mod policies;
#[cfg(test)]
mod put_read_back;
#[cfg(test)]
mod refused;
#[cfg(test)]
mod rows;
#[cfg(test)]
mod shard_calls;
#[cfg(test)]
mod shards;
#[cfg(test)]
mod sharing;
#[cfg(test)]
mod single_reads;
#[cfg(test)]
mod stamped;
#[cfg(test)]
mod taken;
#[cfg(test)]
mod texts;
#[cfg(test)]
mod truth;
#[cfg(test)]
mod turns;
#[cfg(test)]
mod twin;
#[cfg(test)]
mod waiting;
