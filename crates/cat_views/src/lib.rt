//! Views: segments with their live rows, as a reader sees them; the sessions' rights to them; and the stored text of an item.
#![tactic(auto)]

mod hold;
mod lines;
mod lookup;
mod view;

pub use cat_segment;
pub use hold::Hold;
pub use view::{Leaf, View};
