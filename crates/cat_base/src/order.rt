//! Whether a list rises.
ghost use Rattle.std.specs.Prelude.{◌↔◌, IsTrue};
ghost use Rattle.std.specs.List.Sorted.{IsStrictlySortedBy};

/// Whether each item is below the next. It takes linear time and no memory.
pub fn rises<T: Ord>(items: &[T]) -> bool
    ensures { IsTrue result ↔ IsStrictlySortedBy T.Ord.cmp items.now }
{
    items.is_sorted_by(|item, next| item < next)
}
