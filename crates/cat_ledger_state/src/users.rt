//! The users of names, as they come and go together.
ghost use Rattle.std.specs.Prelude.{◌≡◌, ◌+◌, ◌<◌, ◌≤◌, ◌^◌, OnOk, OnErr};
ghost use Rattle.cat_ledger_laws.specs.model.Users.{users_of, times, Changes};
ghost use Rattle.cat_model.specs.Files.{Name};
ghost use Rattle.cat_lifetimes.specs.refs.Counts.{names_in};

use cat_directory::FileName;
use cat_lifetimes::refs::FileRefs;
use std::alloc::AllocError;

/// Each name of the first list has a user more, then each of the second one less. An error changes nothing.
pub(crate) fn move_users(
    refs: &mut FileRefs,
    taken: &[FileName],
    given: &[FileName],
) -> Result<(), AllocError>
    requires fit { (q : Name) → users_of refs.old q + times q (names_in taken.now) < 2 ^ 64 }
    requires had { (q : Name) → times q (names_in given.now) ≤ users_of refs.old q }
    ensures ok { OnOk result (Changes (names_in taken.now) (names_in given.now) refs.old refs.new) }
    ensures err { OnErr result (refs.new ≡ refs.old) }
{
    refs.take(taken)?;
    refs.give(given);
    Ok(())
}
