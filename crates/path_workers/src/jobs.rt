//! The job queue of the path workers: the slots of a table, and an end for each worker.
ghost use Rattle.std.specs.Prelude.{◌≡◌, ◌<◌, ◌+◌, ◌-◌, ℕ, [], ◌∷◌, ◌++◌, MatchOption, IfOk};
ghost use Rattle.crossbeam_queue.specs.Passes.{view, IsPassOf};
ghost use Rattle.path_workers.specs.declared.jobs.Job.{Job as AnyJob};
ghost use Rattle.path_workers.specs.Jobs.{hand, weigh, slot_jobs, end_jobs};

use crossbeam_queue::protocol::{Join, Lesson, Outcome, Protocol, Split};
use crossbeam_queue::{Pass, RuledArrayQueue};
use no_memory::NoMemory;
use std::alloc::Global;
use std::collections::LinkedList;
use std::sync::Wait;
use std::thread;

/// A job for each of 1,024 slots and an end for each of 16 workers.
const ROOM: usize = 1_040;

/// What a path worker takes up: a slot, or its end.
#[derive(Clone, Copy)]
pub enum Job {
    Slot(u16),
    End,
}

/// What a pass has put and taken, and its parts of the right to know the whole. No value of it is made.
pub struct Hand {
    pub parts: u64,
    pub put: LinkedList<Job>,
    pub taken: LinkedList<Job>,
}

/// The rule of the queue.
pub struct Balance;

impl Protocol<Job, Hand> for Balance {
    ghost use Rattle.std.specs.Prelude.{[]};
    ghost use Rattle.path_workers.specs.Jobs.{Balanced, hand};

    ghost holds = { Balanced };

    ghost first = { hand 17 [] [] };
}

/// One part goes to another pass, and comes back with what that pass has done.
struct Part;

impl Split<Hand> for Part {
    ghost use Rattle.std.specs.Prelude.{[], ◌-◌};
    ghost use Rattle.path_workers.specs.Jobs.{hand};

    ghost left = { λ v. hand (v.parts - 1) v.put v.taken };

    ghost right = { λ v. hand 1 [] [] };
}

impl Join<Hand> for Part {
    ghost use Rattle.std.specs.Prelude.{[], ◌+◌, ◌++◌};
    ghost use Rattle.path_workers.specs.Jobs.{hand};

    ghost both = { λ v w. hand (v.parts + w.parts) (v.put ++ w.put) (v.taken ++ w.taken) };

    ghost spent = { hand 0 [] [] };
}

/// Every part goes to another pass.
struct Whole;

impl Split<Hand> for Whole {
    ghost use Rattle.std.specs.Prelude.{[]};
    ghost use Rattle.path_workers.specs.Jobs.{hand};

    ghost left = { λ v. hand 0 [] [] };

    ghost right = { λ v. v };
}

struct Puts;

impl Outcome<Job, Hand> for Puts {
    ghost use Rattle.std.specs.Prelude.{◌≡◌, [], ◌∷◌, ◌++◌};
    ghost use Rattle.path_workers.specs.Jobs.{hand};

    ghost then = { λ v job w. w ≡ hand v.parts (v.put ++ job ∷ []) v.taken };
}

struct Takes;

impl Outcome<Job, Hand> for Takes {
    ghost use Rattle.std.specs.Prelude.{◌≡◌, [], ◌∷◌, ◌++◌};
    ghost use Rattle.path_workers.specs.Jobs.{hand};

    ghost then = { λ v job w. w ≡ hand v.parts v.put (v.taken ++ job ∷ []) };
}

impl Lesson<Job, Hand> for Takes {
    ghost use Rattle.path_workers.specs.Jobs.{Even};

    ghost fact = { Even };
}

pub(crate) type JobQueue = RuledArrayQueue<Job, Hand, Balance>;

pub(crate) type JobPass = Pass<Job, Hand>;

/// The empty queue and its pass.
pub(crate) fn open(alloc: Global) -> Result<(JobQueue, JobPass), NoMemory>
    ensures queue { IfOk result (λ opened. IsPassOf opened.0 opened.1) }
    ensures first { IfOk result (λ opened. view opened.1 ≡ hand 17 [] []) }
{
    Ok(JobQueue::ruled(alloc, ROOM)?)
}

/// A pass with one part, for a worker.
pub(crate) fn split(queue: &JobQueue, pass: &mut JobPass) -> JobPass
    requires queue { IsPassOf queue.now pass.old }
    requires parts { 1 < (view pass.old).parts }
    ensures queue { IsPassOf queue.now pass.new }
    ensures new_queue { IsPassOf queue.now result }
    ensures left { view pass.new ≡ hand ((view pass.old).parts - 1) (view pass.old).put (view pass.old).taken }
    ensures new { view result ≡ hand 1 [] [] }
{
    queue.another::<Part>(pass)
}

/// Takes all parts over.
pub(crate) fn take_over(queue: &JobQueue, pass: &mut JobPass) -> JobPass
    requires queue { IsPassOf queue.now pass.old }
    requires parts { 0 < (view pass.old).parts }
    ensures queue { IsPassOf queue.now pass.new }
    ensures new_queue { IsPassOf queue.now result }
    ensures left { view pass.new ≡ hand 0 [] [] }
    ensures new { view result ≡ view pass.old }
{
    queue.another::<Whole>(pass)
}

/// Joins to a pass what another one has and did.
pub(crate) fn join(queue: &JobQueue, pass: &mut JobPass, other: JobPass)
    requires queue { IsPassOf queue.now pass.old }
    requires other { IsPassOf queue.now other }
    requires parts { 0 < (view pass.old).parts + (view other).parts }
    ensures queue { IsPassOf queue.now pass.new }
    ensures both { view pass.new ≡ hand ((view pass.old).parts + (view other).parts) ((view pass.old).put ++ (view other).put) ((view pass.old).taken ++ (view other).taken) }
{
    queue.absorb::<Part>(pass, other);
}

/// Puts a job. A refused one is tried again.
#[inline(always)]
fn put<R: Wait>(rt: &R, queue: &JobQueue, pass: &mut JobPass, job: Job)
    requires queue { IsPassOf queue.now pass.old }
    requires parts { 0 < (view pass.old).parts }
    ensures queue { IsPassOf queue.now pass.new }
    ensures put { view pass.new ≡ hand (view pass.old).parts ((view pass.old).put ++ job ∷ []) (view pass.old).taken }
{
    if queue.try_push_as::<Puts>(pass, job).is_ok() {
        return;
    }
    put_again(rt, queue, pass, job);
}

/// Puts a job that was refused.
#[inline(never)]
fn put_again<R: Wait>(rt: &R, queue: &JobQueue, pass: &mut JobPass, job: Job)
    requires queue { IsPassOf queue.now pass.old }
    requires parts { 0 < (view pass.old).parts }
    ensures queue { IsPassOf queue.now pass.new }
    ensures put { view pass.new ≡ hand (view pass.old).parts ((view pass.old).put ++ job ∷ []) (view pass.old).taken }
{
    for _ in rt.forever() {
        if queue.try_push_as::<Puts>(pass, job).is_ok() {
            break;
        }
        thread::yield_now();
    }
}

/// Puts a job for each slot, and then so many ends.
pub(crate) fn put_all<R: Wait>(
    rt: &R,
    queue: &JobQueue,
    pass: &mut JobPass,
    slots: u16,
    workers: u16,
)
    requires queue { IsPassOf queue.now pass.old }
    requires parts { 0 < (view pass.old).parts }
    ensures queue { IsPassOf queue.now pass.new }
    ensures put { view pass.new ≡ hand (view pass.old).parts ((view pass.old).put ++ slot_jobs slots ++ end_jobs workers) (view pass.old).taken }
{
    for slot in 0..slots {
        put(rt, queue, pass, Job::Slot(slot));
    }
    for worker in 0..workers {
        let _ = worker;
        put(rt, queue, pass, Job::End);
    }
}

/// Takes a job, if one is there.
pub(crate) fn take(queue: &JobQueue, pass: &mut JobPass) -> Option<Job>
    requires queue { IsPassOf queue.now pass.old }
    requires parts { 0 < (view pass.old).parts }
    ensures queue { IsPassOf queue.now pass.new }
    ensures taken { MatchOption result (view pass.new ≡ view pass.old) (λ job. view pass.new ≡ hand (view pass.old).parts (view pass.old).put ((view pass.old).taken ++ job ∷ [])) }
{
    queue.try_pop_as::<Takes>(pass)
}

/// Takes a job with the pass that has every part. Where none is left, what was put is what was taken.
#[inline(always)]
pub(crate) fn take_last<R: Wait>(rt: &R, queue: &JobQueue, pass: &mut JobPass) -> Option<Job>
    requires queue { IsPassOf queue.now pass.old }
    requires parts { (view pass.old).parts ≡ 17 }
    ensures queue { IsPassOf queue.now pass.new }
    ensures taken { MatchOption result
        ((view pass.new ≡ view pass.old) × ((h : AnyJob → ℕ) → weigh h (view pass.new).put ≡ weigh h (view pass.new).taken))
        (λ job. view pass.new ≡ hand (view pass.old).parts (view pass.old).put ((view pass.old).taken ++ job ∷ [])) }
{
    match take(queue, pass) {
        Some(job) => Some(job),
        None => queue.pop_as::<Takes, R>(rt, pass),
    }
}
