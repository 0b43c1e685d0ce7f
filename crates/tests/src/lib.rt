//! Tests of the libraries: what no contract says, and what no transcript can hold.
//!
//! All of them are in this crate, and see of each crate what any other crate sees.
#![tactic(auto)]

#[cfg(test)]
mod clerk;
#[cfg(test)]
mod clerk_rows;
#[cfg(test)]
mod command_line;
#[cfg(test)]
mod drawing;
#[cfg(test)]
mod drawn_events;
#[cfg(test)]
mod drawn_lines;
#[cfg(test)]
mod drawn_scripts;
#[cfg(test)]
mod driver;
#[cfg(test)]
mod due;
#[cfg(test)]
mod finding;
#[cfg(test)]
mod paths;
#[cfg(test)]
mod plain;
#[cfg(test)]
mod reopened;
#[cfg(test)]
mod script;
#[cfg(test)]
mod shapes;
#[cfg(test)]
mod streams;
#[cfg(test)]
mod sweep;
#[cfg(test)]
mod table;
#[cfg(test)]
mod words;
#[cfg(test)]
mod worlds;
