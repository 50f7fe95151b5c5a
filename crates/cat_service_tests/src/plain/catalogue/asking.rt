//! What is asked of a page by a FIND.
ghost use Rattle.std.specs.Prelude.{◌≡◌};
ghost use Rattle.cat_search.specs.Sorts.{sort_of};

use cat_search::Ask;
use cat_service::cat_protocol::lines::Find;

/// What the line asks of a page.
pub(super) fn ask_of<'a>(find: Find<'a>) -> Ask<'a>
    ensures sort { sort_of result.sort ≡ sort_of find.entry.sort }
    ensures mark { result.after ≡ find.entry.mark }
    ensures count { result.count ≡ find.entry.count }
{
    Ask {
        sort: find.sort,
        after: find.mark,
        count: find.count,
    }
}
