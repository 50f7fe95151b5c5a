//! Whether the segments of a commit fit together: numbers of writes rise over all of them, and an id is live once.
use crate::fault::{Fault, Rule};
use cat_base::Token;
use cat_commits::Leaf;
use cat_directory::FileName;
use std::alloc::{AllocError, Global};
use std::collections::HashSet;

/// The first segment whose writes aren't behind those before it, or that has one past the token.
pub(crate) fn out_of_order(leaves: &[Leaf], token: Token) -> Option<Fault> {
    let mut last = 0;
    for leaf in leaves {
        let segment = leaf.segment();
        let file = FileName::Segment(segment.number());
        let rows = segment.len();
        if segment.write_number(0) <= last {
            let rule = Rule::NotRising;
            return Some(Fault { file, rule });
        }
        last = segment.write_number(rows - 1);
        if last > token {
            let rule = Rule::PastToken;
            return Some(Fault { file, rule });
        }
    }
    None
}

/// Adds the ids of the leaf's live rows, and answers whether none of them was there.
fn add_ids<'a>(seen: &mut HashSet<&'a str>, leaf: &'a Leaf) -> Result<bool, AllocError> {
    let segment = leaf.segment();
    let live = leaf.live();
    for row in 0..segment.len() {
        if live.is_live(row) && !seen.insert(segment.id(row))? {
            return Ok(false);
        }
    }
    Ok(true)
}

/// The first segment with a live row whose id a live row before it has.
pub(crate) fn id_twice(alloc: Global, leaves: &[Leaf]) -> Result<Option<Fault>, AllocError> {
    let mut seen = HashSet::new(alloc);
    for leaf in leaves {
        if !add_ids(&mut seen, leaf)? {
            let file = FileName::Segment(leaf.segment().number());
            let rule = Rule::IdTwice;
            return Ok(Some(Fault { file, rule }));
        }
    }
    Ok(None)
}
