//! A catalogue in plain lists, without segments: the reference that tests compare the service with. It has the rules in the
//! shortest code, and contracts of its own.

#[cfg(test)]
mod catalogue;
#[cfg(test)]
mod counting;
mod counts;
#[cfg(test)]
mod finding;
#[cfg(test)]
mod holds;
#[cfg(test)]
mod output;
mod pages;
#[cfg(test)]
mod record;
#[cfg(test)]
mod recorded;
mod reply;
#[cfg(test)]
mod tables;

#[cfg(test)]
pub use catalogue::Plain;
pub use counts::{Counts, LabelCount};
pub use pages::{Entry, KeyRef, Page};
pub use reply::{Answer, Reply};
