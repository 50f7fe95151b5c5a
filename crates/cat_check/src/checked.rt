//! What is found of a directory.
ghost use Rattle.std.specs.Prelude.{◌≡◌, All, IfOk, IfErr, map};
ghost use Rattle.std.specs.List.Sorted.{IsStrictlySortedBy};
ghost use Rattle.cat_base.specs.declared.refusal.Refusal.TheVariants.{Device};
ghost use Rattle.cat_directory.specs.Names.{name_cmp};
ghost use Rattle.cat_directory.specs.Frames.{OnlyReads};
ghost use Rattle.cat_check.specs.Below.{AreOlder};
ghost use Rattle.cat_check.specs.Judged.{IsJudged};
ghost use Rattle.cat_check.specs.Checked.{IsChecked, IsNewestReport};

use crate::commits::commits_below;
use crate::report::{Report, report_of};
use crate::unnamed::unnamed_of;
use cat_base::{Generation, Refusal};
use cat_commits::reading::newest_commit;
use cat_directory::{Directory, FileName, Shelf};
use std::alloc::{AllocError, Global};

/// What is found of a directory. (Lucene: `CheckIndex.Status`.)
#[derive(Drop)]
pub struct Checked {
    /// Of its newest commit, if it has one: the one that is opened.
    pub newest: Option<Report>,
    /// Of the others, the newer first.
    pub older: Vec<Report>,
    /// The files that no commit names. None are told where the own file of a commit couldn't be read, since that one may need them.
    pub unnamed: Vec<FileName>,
}

/// What is found of the newest commit of these names.
fn newest_report<S: Shelf>(
    alloc: Global,
    shelf: &mut S,
    names: &[FileName],
) -> Result<Option<Report>, AllocError>
    ensures judged { IfOk result (IsNewestReport (S.bytes shelf.old) (S.can_fail shelf.old) names.now) }
    ensures frame { OnlyReads S.bytes S.may_leave S.can_fail shelf.old shelf.new }
{
    let Some(generation) = newest_commit(names) else {
        return Ok(None);
    };
    let report = report_of(alloc, shelf, generation)?;
    Ok(Some(report))
}

/// What is found of the commits, in order.
fn reports_of<S: Shelf>(
    alloc: Global,
    shelf: &mut S,
    generations: &[Generation],
) -> Result<Vec<Report>, AllocError>
    ensures each { IfOk result (λ v. map (λ r. r.generation) v.items ≡ generations.now) }
    ensures judged { IfOk result (λ v. All (λ r. IsJudged (S.bytes shelf.old) (S.can_fail shelf.old) r.generation r.verdict) v.items) }
    ensures frame { OnlyReads S.bytes S.may_leave S.can_fail shelf.old shelf.new }
{
    let mut reports = Vec::new(alloc);
    for generation in generations {
        let report = report_of(alloc, shelf, *generation)?;
        reports.push(report)?;
    }
    Ok(reports)
}

/// What is found of the commits of these names that are older than the newest, the newer first.
fn older_reports<S: Shelf>(
    alloc: Global,
    shelf: &mut S,
    names: &[FileName],
) -> Result<Vec<Report>, AllocError>
    ensures older { IfOk result (λ v. IsStrictlySortedBy name_cmp names.now → AreOlder names.now (map (λ r. r.generation) v.items)) }
    ensures judged { IfOk result (λ v. All (λ r. IsJudged (S.bytes shelf.old) (S.can_fail shelf.old) r.generation r.verdict) v.items) }
    ensures frame { OnlyReads S.bytes S.may_leave S.can_fail shelf.old shelf.new }
{
    let bound = newest_commit(names).unwrap_or(0);
    let generations = commits_below(alloc, names, bound)?;
    let reports = reports_of(alloc, shelf, &generations)?;
    Ok(reports)
}

/// Judges the directory without changing it: each of its commits, as an opening at it would under its own fields. (Lucene:
/// `CheckIndex.checkIndex`.)
///
/// [`Refusal::Device`] where its files can't be listed, or [`Refusal::Memory`]. A device that fails behind that leaves the commit
/// unread.
pub fn check<D: Directory + Shelf>(alloc: Global, device: &mut D) -> Result<Checked, Refusal>
    ensures ok { IfOk result (IsChecked (D.bytes device.old) (D.can_fail device.old)) }
    ensures device { IfErr result (λ e. e ≡ Device → D.can_fail device.old) }
    ensures frame { OnlyReads D.bytes D.may_leave D.can_fail device.old device.new }
{
    let names = device.names(alloc)?;
    let newest = newest_report(alloc, device, &names)?;
    let older = older_reports(alloc, device, &names)?;
    let unnamed = unnamed_of(alloc, &names, &newest, &older)?;
    Ok(Checked {
        newest,
        older,
        unnamed,
    })
}
