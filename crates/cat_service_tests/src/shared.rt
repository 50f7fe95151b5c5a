//! What may go from one thread to another: the view of a hold, and what a write brings. That a ledger may, each crate asks that starts
//! threads over one.
use cat_base::Text;
use cat_items::Item;
use cat_query::Query;
use cat_search::View;
use std::test::*;

fn goes<T: Send>() {}

#[test]
fn what_is_shared_may_go_to_other_threads() -> Result<(), Fail> {
    goes::<View>();
    goes::<Item>();
    goes::<Text>();
    goes::<Query>();
    Ok(())
}
