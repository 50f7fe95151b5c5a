//! Judges the folder that the arguments name, and tells what is found.
ghost use Rattle.std.specs.Prelude.{◌≡◌, Err, Ok, map, option_map, string_bytes};
ghost use Rattle.std.specs.Process.{exit_status};
ghost use Rattle.cat_directory.specs.Frames.{OnlyReads};
ghost use Rattle.catalogue_check.specs.Acts.{CheckAct};
ghost use Rattle.catalogue_check.specs.Asked.{Asked, task_told};
ghost use Rattle.catalogue_check.specs.Ended.{status_of};
ghost use Rattle.catalogue_check.specs.Runs.{ChecksAsked, DropsAt, DropsIn, DropsLocked, EndsJudged, Judges, JudgesAt, JudgesShared, RunsCheck, ShowsFound, checks_asked};

use crate::arguments::Task;
use crate::endings::Ending;
use crate::news::News;
use crate::system::System;
use cat_base::Refusal;
use cat_check::{Checked, check, drop_torn};
use cat_directory::LockRefusal;
use std::process::ExitCode;

/// Tells what is found.
fn show<S: System>(system: &mut S, checked: &Checked)
    ensures { S.does system.old (CheckAct.found checked.now) system.new }
{
    system.show(checked);
}

/// Checks the folder, and tells what is found.
fn tell_found<S: AllocGlobal + System>(
    system: &mut S,
    folder: &mut S::Folder,
) -> Result<Ending, Refusal>
    ensures found { ShowsFound S.does (S.Folder.bytes folder.old) (S.Folder.can_fail folder.old) system.old result system.new }
    ensures frame { OnlyReads S.Folder.bytes S.Folder.may_leave S.Folder.can_fail folder.old folder.new }
{
    match check(system.alloc(), folder) {
        Ok(checked) => {
            let ending = Ending::of(&checked);
            show(system, &checked);
            Ok(ending)
        }
        Err(refusal) => Err(refusal),
    }
}

/// Judges the folder, which is left as it is.
fn judge<S: AllocGlobal + System>(system: &mut S, folder: S::Folder) -> Result<Ending, Refusal>
    ensures { Judges S.does S.Folder.bytes S.Folder.may_leave S.Folder.can_fail folder system.old result system.new }
{
    let mut folder = folder;
    let judged = tell_found(system, &mut folder);
    system.leave(folder);
    judged
}

/// Judges the folder at the path.
fn judge_at<S: AllocGlobal + System>(system: &mut S, path: &str) -> Result<Ending, Refusal>
    ensures { JudgesAt S.does S.Folder.bytes S.Folder.may_leave S.Folder.can_fail path.now system.old result system.new }
{
    match system.folder_at(path) {
        Ok(folder) => judge(system, folder),
        Err(_) => Err(Refusal::Memory),
    }
}

/// Judges the folder at the path, of whose lock who asked for a share was answered so; and says whether a program works over it. The
/// share is given back at once: to judge keeps no program from the folder.
fn judge_shared<S: AllocGlobal + System>(
    system: &mut S,
    path: &str,
    answer: Result<S::Lock, LockRefusal>,
) -> Result<Ending, Refusal>
    ensures { JudgesShared S.does S.Folder.bytes S.Folder.may_leave S.Folder.can_fail path.now answer system.old result system.new }
{
    match answer {
        Ok(share) => {
            system.unlock(share);
            judge_at(system, path)
        }
        Err(LockRefusal::InUse) => {
            system.say(News::InUse);
            judge_at(system, path)
        }
        Err(LockRefusal::Device) => judge_at(system, path),
        Err(LockRefusal::Memory) => Err(Refusal::Memory),
    }
}

/// Deletes the file of a torn commit over a whole one in the folder, tells what was dropped, and judges what is there then.
fn drop_in<S: AllocGlobal + System>(system: &mut S, folder: S::Folder) -> Result<Ending, Refusal>
    ensures { DropsIn S.does S.Folder.bytes S.Folder.may_leave S.Folder.can_fail folder system.old result system.new }
{
    let mut folder = folder;
    match drop_torn(system.alloc(), &mut folder) {
        Ok(standing) => {
            system.show_standing(standing);
            judge(system, folder)
        }
        Err(refusal) => {
            system.leave(folder);
            Err(refusal)
        }
    }
}

/// Drops so in the folder at the path.
fn drop_at<S: AllocGlobal + System>(system: &mut S, path: &str) -> Result<Ending, Refusal>
    ensures { DropsAt S.does S.Folder.bytes S.Folder.may_leave S.Folder.can_fail path.now system.old result system.new }
{
    match system.folder_at(path) {
        Ok(folder) => drop_in(system, folder),
        Err(_) => Err(Refusal::Memory),
    }
}

/// Drops so in the folder at the path, whose lock is had and kept to the end.
fn drop_under<S: AllocGlobal + System>(
    system: &mut S,
    path: &str,
    lock: S::Lock,
) -> Result<Ending, Refusal>
    ensures { DropsLocked S.does S.Folder.bytes S.Folder.may_leave S.Folder.can_fail path.now (Ok lock) system.old result system.new }
{
    let judged = drop_at(system, path);
    system.unlock(lock);
    judged
}

/// Deletes nothing of the folder at the path, whose lock isn't had for that reason. Where a program works over it, it is judged.
fn drop_nothing<S: AllocGlobal + System>(
    system: &mut S,
    path: &str,
    refusal: LockRefusal,
) -> Result<Ending, Refusal>
    ensures { DropsLocked S.does S.Folder.bytes S.Folder.may_leave S.Folder.can_fail path.now (Err refusal) system.old result system.new }
{
    match refusal {
        LockRefusal::InUse => {
            system.say(News::InUse);
            system.say(News::NotDropped);
            judge_at(system, path)
        }
        LockRefusal::Device => Err(Refusal::Device),
        LockRefusal::Memory => Err(Refusal::Memory),
    }
}

/// Drops so in the folder at the path, for whose lock who asked was answered so; the lock is kept to the end. Where a program works
/// over the folder nothing is deleted, and it is judged.
fn drop_locked<S: AllocGlobal + System>(
    system: &mut S,
    path: &str,
    answer: Result<S::Lock, LockRefusal>,
) -> Result<Ending, Refusal>
    ensures { DropsLocked S.does S.Folder.bytes S.Folder.may_leave S.Folder.can_fail path.now answer system.old result system.new }
{
    match answer {
        Ok(lock) => drop_under(system, path, lock),
        Err(refusal) => drop_nothing(system, path, refusal),
    }
}

/// How the program ends that judged so. A refusal is told.
fn ending_after<S: System>(system: &mut S, judged: Result<Ending, Refusal>) -> Ending
    ensures { EndsJudged S.does system.old judged result system.new }
{
    match judged {
        Ok(ending) => ending,
        Err(refusal) => {
            system.say(News::Refused(refusal));
            Ending::Unjudged
        }
    }
}

/// Judges the folder at the path, and says how the program ends.
fn do_judge<S: AllocGlobal + System>(system: &mut S, path: &str) -> Ending
    ensures { ChecksAsked S.does S.Folder.bytes S.Folder.may_leave S.Folder.can_fail (Asked.judge path.now) system.old result system.new }
{
    let answer = system.share(path);
    let judged = judge_shared(system, path, answer);
    ending_after(system, judged)
}

/// Drops the torn commit of the folder at the path, and says how the program ends.
fn do_drop<S: AllocGlobal + System>(system: &mut S, path: &str) -> Ending
    ensures { ChecksAsked S.does S.Folder.bytes S.Folder.may_leave S.Folder.can_fail (Asked.drop_torn path.now) system.old result system.new }
{
    let answer = system.lock(path);
    let judged = drop_locked(system, path, answer);
    ending_after(system, judged)
}

/// Says how the program is called.
fn tell_usage<S: AllocGlobal + System>(system: &mut S) -> Ending
    ensures { ChecksAsked S.does S.Folder.bytes S.Folder.may_leave S.Folder.can_fail Asked.nothing system.old result system.new }
{
    system.say(News::Usage);
    Ending::Unjudged
}

/// Does the task.
fn do_task<S: AllocGlobal + System>(system: &mut S, task: Task<'_>) -> Ending
    ensures { ChecksAsked S.does S.Folder.bytes S.Folder.may_leave S.Folder.can_fail (task_told task.entry) system.old result system.new }
{
    match task {
        Task::Judge(path) => do_judge(system, path),
        Task::DropTorn(path) => do_drop(system, path),
        Task::Usage => tell_usage(system),
    }
}

/// Does what the words ask for. Words that can't be read ask for nothing that the program does.
fn do_asked<S: AllocGlobal + System>(system: &mut S, words: Option<Vec<String>>) -> Ending
    ensures { ChecksAsked S.does S.Folder.bytes S.Folder.may_leave S.Folder.can_fail
        (checks_asked (option_map (λ words. map string_bytes words.items) words)) system.old result system.new }
{
    match words {
        Some(words) => do_task(system, Task::asked_by(words.as_slice())),
        None => do_task(system, Task::Usage),
    }
}

/// The exit status that a program which ends so is left with.
fn exit(ending: Ending) -> ExitCode
    ensures { exit_status result ≡ status_of ending }
{
    ExitCode::from(ending.status())
}

/// Runs the program, and says the exit status: 0 where the newest commit is whole, 1 where it isn't or there is none, 2 where
/// the arguments are wrong or the folder can't be read.
pub(crate) fn run<S: AllocGlobal + System>(system: &mut S) -> ExitCode
    ensures { RunsCheck S.does S.Folder.bytes S.Folder.may_leave S.Folder.can_fail system.old (exit_status result) system.new }
{
    let words = system.words();
    exit(do_asked(system, words))
}
