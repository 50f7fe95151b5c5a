//! The files that no commit names.
ghost use Rattle.std.specs.Prelude.{◌≡◌, true, [], IfOk};
ghost use Rattle.std.specs.List.{list_any};
ghost use Rattle.cat_check.specs.Unread.{is_unread, is_any_unread};

use crate::report::Report;
use crate::verdict::Verdict;
use cat_directory::FileName;
use std::alloc::{AllocError, Global};
use std::collections::HashSet;

/// Adds the names of the files that the commit needs: its own, and those of its segments, where its own file says them.
fn add_named(named: &mut HashSet<FileName>, report: &Report) -> Result<(), AllocError> {
    named.insert(FileName::Commit(report.generation))?;
    if let Some(commit) = &report.said {
        for name in commit.names()? {
            named.insert(name)?;
        }
    }
    Ok(())
}

/// Whether the device failed over the commit's own file, so that the commit may need any file.
fn is_unread(report: &Report) -> bool
    ensures { result ≡ is_unread report.now }
{
    report.said.is_none() && matches!(report.verdict, Verdict::Unread)
}

/// Whether that is so of one of the commits.
fn is_one_unread(reports: &[Report]) -> bool
    ensures { result ≡ list_any is_unread reports.now }
{
    for report in reports {
        if is_unread(report) {
            return true;
        }
    }
    false
}

/// Whether that is so of the newest commit or of an older one.
fn is_any_unread(newest: &Option<Report>, older: &[Report]) -> bool
    ensures { result ≡ is_any_unread newest.now older.now }
{
    match newest {
        Some(report) => is_unread(report) || is_one_unread(older),
        None => is_one_unread(older),
    }
}

/// Those of the names that none of the commits has. None, where the own file of one of them couldn't be read: nobody knows which
/// files that one needs.
pub(crate) fn unnamed_of(
    alloc: Global,
    names: &[FileName],
    newest: &Option<Report>,
    older: &[Report],
) -> Result<Vec<FileName>, AllocError>
    ensures { is_any_unread newest.now older.now ≡ true → IfOk result (λ v. v.items ≡ []) }
{
    if is_any_unread(newest, older) {
        return Ok(Vec::new(alloc));
    }
    unnamed_by(alloc, names, newest, older)
}

/// Those of the names that none of the commits has.
fn unnamed_by(
    alloc: Global,
    names: &[FileName],
    newest: &Option<Report>,
    older: &[Report],
) -> Result<Vec<FileName>, AllocError> {
    let mut named = HashSet::new(alloc);
    if let Some(report) = newest {
        add_named(&mut named, report)?;
    }
    for report in older {
        add_named(&mut named, report)?;
    }
    names_left(alloc, names, &named)
}

/// Those of the names that aren't among the others, in order.
fn names_left(
    alloc: Global,
    names: &[FileName],
    named: &HashSet<FileName>,
) -> Result<Vec<FileName>, AllocError> {
    let mut others = Vec::new(alloc);
    for name in names {
        if !named.contains(name) {
            others.push(*name)?;
        }
    }
    Ok(others)
}
