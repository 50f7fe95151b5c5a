//! What is found of one commit.
ghost use Rattle.std.specs.Prelude.{◌≡◌, IfOk};
ghost use Rattle.cat_ledger_laws.specs.shape.OpeningLaws.{MayHold};
ghost use Rattle.cat_directory.specs.Frames.{OnlyReads};
ghost use Rattle.cat_check.specs.Said.{SaysCommit, IsTorn};
ghost use Rattle.cat_check.specs.Judged.{IsJudged};

use crate::counts::bytes_in;
use crate::fault::{Fault, Rule};
use crate::said::read_said;
use crate::verdict::{Verdict, verdict_of};
use cat_base::{Generation, Refusal};
use cat_commits::Commit;
use cat_directory::{FileName, Shelf};
use std::alloc::{AllocError, Global};

/// What is found of one commit. (Lucene: `CheckIndex.Status`.)
#[derive(Drop)]
pub struct Report {
    pub generation: Generation,
    /// What its own file says, where that is a commit's.
    pub said: Option<Commit>,
    /// How many bytes those of its files have together that are there.
    pub bytes: u64,
    pub verdict: Verdict,
}

/// What is found of the commit, which its own file says.
fn report_said<S: Shelf>(
    alloc: Global,
    shelf: &mut S,
    commit: Commit,
    generation: Generation,
) -> Result<Report, AllocError>
    requires { SaysCommit (MayHold (S.bytes shelf.old)) generation commit }
    ensures judged { IfOk result (λ r. IsJudged (S.bytes shelf.old) (S.can_fail shelf.old) generation r.verdict) }
    ensures generation { IfOk result (λ r. r.generation ≡ generation) }
    ensures frame { OnlyReads S.bytes S.may_leave S.can_fail shelf.old shelf.new }
{
    let verdict = verdict_of(alloc, shelf, &commit, generation)?;
    let names = commit.names()?;
    let bytes = bytes_in(shelf, &names);
    Ok(Report {
        generation,
        said: Some(commit),
        bytes,
        verdict,
    })
}

/// What is found of a commit whose own file is none's.
fn report_torn<S: Shelf>(
    alloc: Global,
    shelf: &mut S,
    generation: Generation,
) -> Result<Report, AllocError>
    requires { IsTorn (S.bytes shelf.old) generation }
    ensures judged { IfOk result (λ r. IsJudged (S.bytes shelf.old) (S.can_fail shelf.old) generation r.verdict) }
    ensures generation { IfOk result (λ r. r.generation ≡ generation) }
    ensures frame { OnlyReads S.bytes S.may_leave S.can_fail shelf.old shelf.new }
{
    let file = FileName::Commit(generation);
    let bytes = bytes_in(shelf, &[file]);
    let rule = Rule::NoCommit;
    let faults = vec![in alloc; Fault { file, rule }]?;
    Ok(Report {
        generation,
        said: None,
        bytes,
        verdict: Verdict::Damaged(faults),
    })
}

/// What is found of the commit of the generation: above all whether an opening reads it, under the fields of its own file. No
/// file is changed. Memory is the only error.
pub fn report_of<S: Shelf>(
    alloc: Global,
    shelf: &mut S,
    generation: Generation,
) -> Result<Report, AllocError>
    ensures judged { IfOk result (λ r. IsJudged (S.bytes shelf.old) (S.can_fail shelf.old) generation r.verdict) }
    ensures generation { IfOk result (λ r. r.generation ≡ generation) }
    ensures frame { OnlyReads S.bytes S.may_leave S.can_fail shelf.old shelf.new }
{
    match read_said(alloc, shelf, generation) {
        Ok(commit) => report_said(alloc, shelf, commit, generation),
        Err(Refusal::Damaged) => report_torn(alloc, shelf, generation),
        Err(Refusal::Device) => Ok(Report {
            generation,
            said: None,
            bytes: 0,
            verdict: Verdict::Unread,
        }),
        Err(_) => Err(AllocError),
    }
}
