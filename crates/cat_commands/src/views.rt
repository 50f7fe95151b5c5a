//! The commands that give a session a right to a view, end it, or need it: what a ledger answers to them.

mod closing;
mod opening;
mod reading;
mod telling;

pub use closing::close;
pub use opening::open;
pub use reading::get;
pub use telling::files_of_token;
