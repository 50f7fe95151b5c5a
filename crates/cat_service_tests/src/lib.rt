//! Tests of what no line of the program shows: the service compared with a catalogue in plain lists, the text of every reply, and
//! what refusals show.
#![tactic(auto)]

#[cfg(test)]
mod compared;
pub mod plain;
#[cfg(test)]
mod refusals;
#[cfg(test)]
mod replies;
#[cfg(test)]
mod shared;
#[cfg(test)]
mod verdict;
