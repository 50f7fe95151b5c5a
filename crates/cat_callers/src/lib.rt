//! The lines of sessions in threads, answered by the calls of the service that they share.
#![tactic(auto)]

mod answerers;
mod asked;
mod front;
mod heard;
mod holding;
mod holdings;
mod input;
mod maintaining;
mod memory;
mod numbers;
mod opening;
mod output;
mod queues;
mod reading;
mod routes;
mod session;
mod streams;
mod talking;
mod threads;
mod writing;

pub use asked::Asked;
pub use front::Front;
pub use heard::{MAX_LINES, MAX_THREADS};
pub use input::{Lines, Next};
pub use memory::SharedMemory;
pub use session::Session;
pub use streams::serve_stream;
pub use threads::{Fault, serve_threads};
