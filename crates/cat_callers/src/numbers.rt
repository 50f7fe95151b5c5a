//! Numbers of sessions.
ghost use Rattle.std.specs.Prelude.{◌≡◌, true};
ghost use Rattle.cat_threads.specs.service.Passes.{all_different};

use cat_base::{SessionNo, rises};

/// Whether the numbers rise, so that none comes twice.
pub(crate) fn rise(numbers: &[SessionNo]) -> bool
    ensures { result ≡ true → all_different numbers.now ≡ true }
{
    rises(numbers)
}
