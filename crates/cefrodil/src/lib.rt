//! The door: a static library by which programs in C, C++ and Rust call the cache. `c/include/cefrodil.h` says what each call does,
//! and what its caller promises.
#![tactic(auto)]

mod batches;
mod closing;
mod counts;
mod gets_by_width;
pub mod handle;
mod holding;
mod listing;
mod loading;
mod lookups;
mod many;
mod more;
mod opening;
mod prefetch;
mod puts_by_width;
pub mod raw_handle;
mod shape;
mod swaps;
mod turn_gets_by_width;
mod unboxed;
mod version;
mod writes;
