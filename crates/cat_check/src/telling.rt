//! What is found of a directory, as a text.
ghost use Rattle.std.specs.Prelude.{◌≡◌, OnOk};
ghost use Rattle.std.specs.List.{flat_map};
ghost use Rattle.std.specs.Io.KnownBytes.{Appends};
ghost use Rattle.cat_check.specs.Telling.{check_text, counts_text, fault_line, faults_text, newest_text, note_text, numbers_text, report_text, said_text, standing_text, unnamed_line, verdict_text};

use crate::checked::Checked;
use crate::dropping::Standing;
use crate::fault::Fault;
use crate::report::Report;
use crate::verdict::Verdict;
use cat_commits::Commit;
use cat_directory::FileName;
use std::io;
use std::io::Write;

/// In one word, what is judged.
fn word(verdict: &Verdict) -> &'static str
    ensures { result.now ≡ verdict_text verdict.now }
{
    match verdict {
        Verdict::Whole(_) => "whole",
        Verdict::Damaged(_) => "damaged",
        Verdict::Unread => "unread, since the device failed",
    }
}

/// The numbers that the commit's own file says, if it says a commit.
fn tell_said<W: Write>(out: &mut W, said: &Option<Commit>) -> io::Result<()>
    ensures text { OnOk result (Appends (W.contents out.old) (W.contents out.new) (said_text said.now)) }
{
    let Some(commit) = said else {
        return Ok(());
    };
    let token = commit.token;
    let segments = commit.segments.len();
    write!(out, "; token {token}, segments {segments}")
}

/// The rows of a commit that is whole.
fn tell_counts<W: Write>(out: &mut W, verdict: &Verdict) -> io::Result<()>
    ensures text { OnOk result (Appends (W.contents out.old) (W.contents out.new) (counts_text verdict.now)) }
{
    let Verdict::Whole(counts) = verdict else {
        return Ok(());
    };
    let rows = counts.rows;
    let live_rows = counts.live_rows;
    write!(out, ", rows {rows}, live rows {live_rows}")
}

/// The numbers of the commit, as far as they are known.
fn tell_numbers<W: Write>(out: &mut W, report: &Report) -> io::Result<()>
    ensures text { OnOk result (Appends (W.contents out.old) (W.contents out.new) (numbers_text report.now)) }
{
    tell_said(out, &report.said)?;
    tell_counts(out, &report.verdict)?;
    let bytes = report.bytes;
    write!(out, "; bytes {bytes}")
}

/// What who committed said of the commit, if its own file says one.
fn tell_note<W: Write>(out: &mut W, said: &Option<Commit>) -> io::Result<()>
    ensures text { OnOk result (Appends (W.contents out.old) (W.contents out.new) (note_text said.now)) }
{
    let Some(commit) = said else {
        return Ok(());
    };
    let text = commit.text.as_str();
    write!(out, "; text \"{text}\"")
}

/// Each file that breaks a rule, a line each.
fn tell_faults<W: Write>(out: &mut W, faults: &[Fault]) -> io::Result<()>
    ensures text { OnOk result (Appends (W.contents out.old) (W.contents out.new) (flat_map fault_line faults.now)) }
{
    for fault in faults {
        writeln!(out, "  {fault}")?;
    }
    Ok(())
}

/// A line for each fault of a commit that is damaged.
fn tell_damage<W: Write>(out: &mut W, verdict: &Verdict) -> io::Result<()>
    ensures text { OnOk result (Appends (W.contents out.old) (W.contents out.new) (faults_text verdict.now)) }
{
    match verdict {
        Verdict::Damaged(faults) => tell_faults(out, faults),
        Verdict::Whole(_) | Verdict::Unread => Ok(()),
    }
}

/// The line of the commit, with its text at the end, and a line for each of its faults.
fn tell_report<W: Write>(out: &mut W, report: &Report) -> io::Result<()>
    ensures text { OnOk result (Appends (W.contents out.old) (W.contents out.new) (report_text report.now)) }
{
    let generation = report.generation;
    let word = word(&report.verdict);
    write!(out, "commit {generation}: {word}")?;
    tell_numbers(out, report)?;
    tell_note(out, &report.said)?;
    writeln!(out)?;
    tell_damage(out, &report.verdict)
}

/// The newest commit, or that there is none.
fn tell_newest<W: Write>(out: &mut W, newest: &Option<Report>) -> io::Result<()>
    ensures text { OnOk result (Appends (W.contents out.old) (W.contents out.new) (newest_text newest.now)) }
{
    match newest {
        Some(report) => tell_report(out, report),
        None => writeln!(out, "there is no commit"),
    }
}

/// Each of the commits, in order.
fn tell_reports<W: Write>(out: &mut W, reports: &[Report]) -> io::Result<()>
    ensures text { OnOk result (Appends (W.contents out.old) (W.contents out.new) (flat_map report_text reports.now)) }
{
    for report in reports {
        tell_report(out, report)?;
    }
    Ok(())
}

/// The files that no commit names, a line each.
fn tell_unnamed<W: Write>(out: &mut W, names: &[FileName]) -> io::Result<()>
    ensures text { OnOk result (Appends (W.contents out.old) (W.contents out.new) (flat_map unnamed_line names.now)) }
{
    for name in names {
        writeln!(out, "{name}: no commit names it")?;
    }
    Ok(())
}

/// What is found: a line for each commit, the newest first, with a line for each file of it that breaks a rule, and a line for
/// each file that no commit names.
pub fn tell<W: Write>(out: &mut W, checked: &Checked) -> io::Result<()>
    ensures text { OnOk result (Appends (W.contents out.old) (W.contents out.new) (check_text checked.now)) }
{
    tell_newest(out, &checked.newest)?;
    tell_reports(out, &checked.older)?;
    tell_unnamed(out, &checked.unnamed)
}

/// What was dropped of a directory whose newest commit stood so, or why nothing was.
pub fn tell_standing<W: Write>(out: &mut W, standing: Standing) -> io::Result<()>
    ensures text { OnOk result (Appends (W.contents out.old) (W.contents out.new) (standing_text standing)) }
{
    match standing {
        Standing::Empty => writeln!(out, "dropped nothing: there is no commit"),
        Standing::Readable(newest) => {
            writeln!(out, "dropped nothing: commit {newest} isn't torn")
        }
        Standing::Alone(torn) => writeln!(
            out,
            "dropped nothing: commit {torn} is torn, and there is no older one"
        ),
        Standing::OverDamaged(torn, below) => writeln!(
            out,
            "dropped nothing: commit {torn} is torn, and commit {below} isn't whole"
        ),
        Standing::OverWhole(torn, below) => writeln!(
            out,
            "dropped commit {torn}, which was torn: commit {below} is the newest now"
        ),
    }
}
