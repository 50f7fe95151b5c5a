//! Sessions in threads of their own over one service, and workers beside them: one merges, and one makes cached sets.
ghost use Rattle.std.specs.Prelude.{◌≡◌, IfOk, map};
ghost use Rattle.cat_threads.specs.running.Sessions.{sessions_back, sessions_of};

use crate::service::{Chore, Naming, Pass, Progress, Service};
use cat_base::SessionNo;
use cat_directory::{Directory, Shelf};
use std::alloc::Global;
use std::sync::Wait;
use std::sync::atomic::{AtomicU64, Ordering};
use std::thread;
use std::thread::{Promise, PromisedHandle, Scope, Threads};

/// Whether a worker goes on, and what is done while it has the lock.
pub trait Gate: Drop {
    /// Whether it takes another turn. This is asked before the lock is taken: a worker that found nothing to do may sleep here, and
    /// one that has taken many turns may let others run.
    fn go_on(&mut self) -> bool;

    /// Called with the lock held, before the turn's chore.
    fn inside(&mut self);

    /// Called without the lock, where the turn did nothing: there was nothing to do, or it was refused. So the next
    /// [`go_on`](Gate::go_on) may sleep.
    fn idle(&mut self) {}
}

/// What a session does in its thread.
pub trait Caller<D: Directory + Shelf, J: Naming, R>: Drop {
    /// Makes the session's calls. The pass comes back as they left it, which is still its session's.
    fn call(self, rt: &R, service: &Service<D, J>, me: &mut Pass<J>)
        ensures { me.new.session ≡ me.old.session };
}

/// Why sessions weren't run to their ends. Those that had begun have ended, and their passes are gone.
#[derive(Clone, Copy)]
pub enum NotRun {
    /// A thread couldn't be started.
    Thread,
    /// Memory was wanting.
    Memory,
}

/// A thread's result is the pass of this session.
#[derive(Clone, Copy)]
pub struct Of(SessionNo);

impl Of {
    /// The session of the pass that a thread is given.
    fn session_of<J: Naming>(pass: &Pass<J>) -> Of
        ensures { result.0 ≡ pass.now.session }
    {
        Of(pass.session())
    }
}

impl<J: Naming> Promise<Pass<J>> for Of {
    ghost kept_by = { λ p r. r.session ≡ p.0 };
}

/// What a worker does.
#[derive(Clone, Copy)]
enum Work {
    /// It merges.
    Merge,
    /// It makes cached sets.
    Warm,
}

/// A step of the work: a merge that is done is followed by a sweep.
fn step<D: Directory + Shelf, J: Naming, R: Wait, G: Gate>(
    rt: &R,
    service: &Service<D, J>,
    gate: &mut G,
    work: Work,
) -> Progress {
    match work {
        Work::Warm => service.turn(rt, gate, Chore::Warm).worker_progress(),
        Work::Merge => {
            let merged = service.turn(rt, gate, Chore::Merge).worker_progress();
            if matches!(merged, Progress::Merged) {
                let _swept = service.turn(rt, gate, Chore::Sweep);
            }
            merged
        }
    }
}

/// Works step by step, until the gate says no or the flag isn't 0.
fn run_worker<D: Directory + Shelf, J: Naming, R: Wait, G: Gate>(
    rt: &R,
    service: &Service<D, J>,
    ended: &AtomicU64,
    gate: &mut G,
    work: Work,
) {
    for _ in rt.forever() {
        if ended.load(Ordering::SeqCst) != 0 || !gate.go_on() {
            return;
        }
        if matches!(step(rt, service, gate, work), Progress::Idle) {
            gate.idle();
        }
    }
}

/// Merges step by step, and lets the files go that nobody needs once a merge is done, until the gate says no or the flag isn't
/// 0. (Lucene: `ConcurrentMergeScheduler`, whose threads run each merge whole.)
pub fn merger<D: Directory + Shelf, J: Naming, R: Wait, G: Gate>(
    rt: &R,
    service: &Service<D, J>,
    ended: &AtomicU64,
    mut gate: G,
) {
    run_worker(rt, service, ended, &mut gate, Work::Merge);
}

/// Makes sets of rows for the queries that were noted, step by step, until the gate says no or the flag isn't 0. (Lucene makes a
/// set while a query runs: `LRUQueryCache.cacheImpl`.)
pub fn warmer<D: Directory + Shelf, J: Naming, R: Wait, G: Gate>(
    rt: &R,
    service: &Service<D, J>,
    ended: &AtomicU64,
    mut gate: G,
) {
    run_worker(rt, service, ended, &mut gate, Work::Warm);
}

fn run_session<D: Directory + Shelf, J: Naming, R, C: Caller<D, J, R>>(
    rt: &R,
    service: &Service<D, J>,
    pass: Pass<J>,
    caller: C,
) -> Pass<J>
    ensures { result.session ≡ pass.session }
{
    let mut pass = pass;
    caller.call(rt, service, &mut pass);
    pass
}

/// The passes that the threads give back, each its session's.
fn joined<J: Naming, R: Threads>(
    rt: &R,
    handles: Vec<PromisedHandle<Pass<J>, Of>>,
) -> Result<Vec<Pass<J>>, NotRun>
    ensures { IfOk result (λ v. sessions_back v.items ≡ map (λ h. h.promise.0) handles.items) }
{
    match thread::join_promised(rt, handles) {
        Ok(all) => Ok(all),
        Err(_) => Err(NotRun::Memory),
    }
}

/// Starts a session in a thread of its own.
fn start<
    's,
    E: 's,
    D: Directory + Shelf + Drop + Send + 's,
    J: Naming + Send + Sync + 's,
    C: Caller<D, J, R> + Send + 's,
    R: Sync + 's,
>(
    scope: &Scope<'s, E>,
    rt: &'s R,
    service: &'s Service<D, J>,
    pass: Pass<J>,
    caller: C,
) -> Result<PromisedHandle<Pass<J>, Of>, NotRun>
    ensures { IfOk result (λ h. h.promise.0 ≡ pass.session) }
{
    let session = Of::session_of(&pass);
    let job = move || -> Pass<J>
        ensures { result.session ≡ pass.session }
    { run_session(rt, service, pass, caller) };
    let Ok(handle) = scope.spawn_with(session, job) else {
        return Err(NotRun::Thread);
    };
    Ok(handle)
}

/// Starts each session, in their order. Where one can't be started, the threads of those before it go on to their ends.
fn started<
    's,
    E: 's,
    D: Directory + Shelf + Drop + Send + 's,
    J: Naming + Send + Sync + 's,
    C: Caller<D, J, R> + Send + 's,
    R: Sync + 's,
>(
    scope: &Scope<'s, E>,
    rt: &'s R,
    alloc: Global,
    service: &'s Service<D, J>,
    sessions: Vec<(Pass<J>, C)>,
) -> Result<Vec<PromisedHandle<Pass<J>, Of>>, NotRun>
    ensures { IfOk result (λ v. map (λ h. h.promise.0) v.items ≡ sessions_of sessions.items) }
{
    let mut handles = Vec::new(alloc);
    for seated in sessions {
        let (pass, caller) = seated;
        let handle = start(scope, rt, service, pass, caller)?;
        let Ok(()) = handles.push(handle) else {
            return Err(NotRun::Memory);
        };
    }
    Ok(handles)
}

/// Runs each session in a thread of its own, and a merger and a warmer beside them, which end once the sessions have. The passes
/// come back in their order.
pub fn run_threads<
    D: Directory + Shelf + Drop + Send,
    J: Naming + Send + Sync,
    C: Caller<D, J, R> + Send,
    G: Gate + Send,
    W: Gate + Send,
    R: Threads + Wait + Sync,
>(
    rt: &R,
    alloc: Global,
    service: &Service<D, J>,
    sessions: Vec<(Pass<J>, C)>,
    merging: G,
    warming: W,
) -> Result<Vec<Pass<J>>, NotRun>
    ensures sessions { IfOk result (λ v. sessions_back v.items ≡ sessions_of sessions.items) }
{
    let ended = AtomicU64::new(0);
    let flag = &ended;
    thread::scope(
        thread::scope_env(),
        rt,
        move |scope| -> Result<Vec<Pass<J>>, NotRun>
            ensures { IfOk result (λ v. sessions_back v.items ≡ sessions_of sessions.items) }
        {
            let Ok(_merger) = scope.spawn(move || merger(rt, service, flag, merging)) else {
                return Err(NotRun::Thread);
            };
            let Ok(_warmer) = scope.spawn(move || warmer(rt, service, flag, warming)) else {
                flag.store(1, Ordering::SeqCst);
                return Err(NotRun::Thread);
            };
            let all = match started(scope, rt, alloc, service, sessions) {
                Ok(handles) => joined(rt, handles),
                Err(not) => Err(not),
            };
            flag.store(1, Ordering::SeqCst);
            all
        },
    )
}
