//! Texts as they go out, piece by piece, to a writer: nothing here takes memory, and at a fault a front of the text went out.

mod gathered;
mod lines;
mod pieces;

pub use gathered::Gathered;
pub use lines::{send_opened, send_reason, send_refused, send_unreadable};
pub use pieces::{WriteFault, flush, send, send_number};
