//! What the program says beside what it finds.
use cat_base::Refusal;

/// What is said, a line each.
#[derive(Clone, Copy)]
pub(crate) enum News {
    /// How the program is called: its words ask for nothing that it does.
    Usage,
    /// A program works over the folder, which may so be changed while it is judged.
    InUse,
    /// Nothing is dropped, for that reason.
    NotDropped,
    /// Nothing is judged, for this reason.
    Refused(Refusal),
}
