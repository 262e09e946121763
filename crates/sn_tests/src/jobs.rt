ghost use Rattle.std.specs.Prelude.{◌≡◌, IfSome};
ghost use Rattle.sn_boxrun.specs.Job.{IsJobOf};

use crate::load::{Loaded, load};
use sn_boxrun::{Job, make_done};
use sn_jobs::{JobHand, JobOwner, make};
use sn_model::Run;
use sn_net::variant_of;
use sn_record::{Item, Record};
use std::alloc::Global;
use std::process::Abort;
use std::sync::{Arc, Wait};
use std::thread::{Threads, join, yield_now};

/// How often a thread looks again before it gives up.
const MOST_TURNS: u64 = 10_000_000;

/// A run of one box over a record.
pub fn started(rt: &impl Abort, alloc: Global) -> Arc<Run> {
    let source = "box b ((a) -> (b)) { out 1(a + 1) } net main ({a} -> {b}) connect b;";
    let Loaded { run, names: _ } = load(alloc, source, "{a=1}", 16).expect(
        rt,
        "a source and its input",
    );
    Arc::new(alloc, run).expect(rt, "memory")
}

/// A copy of the run's first record.
pub fn given(rt: &impl Abort, run: &Run) -> Record {
    let given = match run.items().as_slice() {
        [Item::Rec(given), ..] => Some(given),
        _ => None,
    };
    given.expect(rt, "a record").copy().expect(rt, "memory")
}

/// A job of the run's first box with the record, where the box takes such records.
pub fn job_of(rt: &impl Abort, alloc: Global, run: &Run, call: u64, given: Record) -> Option<Job>
    ensures { IfSome result (IsJobOf run.now) }
{
    let [first, ..] = run.boxes().as_slice() else {
        return None;
    };
    if !given.matches(&variant_of(alloc, first.input.as_slice()).expect(rt, "memory")) {
        return None;
    }
    Some(Job {
        call,
        number: 0,
        place: 9,
        given,
    })
}

/// Gives a job with a copy of the record, and says whether it was taken in.
fn gives<R: Abort + Wait>(
    rt: &R,
    alloc: Global,
    run: &Run,
    owner: &mut JobOwner,
    call: u64,
    given: &Record,
) -> bool
    requires { owner.old.made.run ≡ run.now }
    ensures { owner.new.made ≡ owner.old.made }
{
    match job_of(rt, alloc, run, call, given.copy().expect(rt, "memory")) {
        Some(job) => owner.give(rt, job).is_ok(),
        None => false,
    }
}

/// Takes a job and answers it, if there is one.
fn works<R: Wait>(rt: &R, alloc: Global, run: &Arc<Run>, hand: &mut JobHand) -> bool
    requires { hand.old.made.run ≡ run.now.value }
    ensures { hand.new.made ≡ hand.old.made }
{
    let Some(job) = hand.take(rt) else {
        return false;
    };
    match make_done(alloc, run, job) {
        Ok(done) => hand.answer(rt, done).is_ok(),
        Err(_) => false,
    }
}

/// Collects an answer to this call.
fn collects<R: Wait>(rt: &R, owner: &mut JobOwner, call: u64) -> bool
    ensures { owner.new.made ≡ owner.old.made }
{
    match owner.collect(rt) {
        Some(done) => done.job().call == call,
        None => false,
    }
}

/// Puts two jobs through queues with room for one, by two hands.
fn two_go_through<R: Abort + Wait>(rt: &R, alloc: Global, run: &Arc<Run>) {
    let given = given(rt, run);
    let (mut owner, mut hand) = make(alloc, run, 1).expect(rt, "memory");
    let mut other = hand.split().expect(rt, "memory");
    assert!(rt; !works(rt, alloc, run, &mut hand));
    assert!(rt; owner.collect(rt).is_none());
    assert!(rt; gives(rt, alloc, run, &mut owner, 3, &given));
    assert!(rt; !gives(rt, alloc, run, &mut owner, 4, &given));
    assert!(rt; works(rt, alloc, run, &mut other));
    assert!(rt; gives(rt, alloc, run, &mut owner, 5, &given));
    assert!(rt; !works(rt, alloc, run, &mut hand));
    hand.join(other);
    assert!(rt; collects(rt, &mut owner, 3));
    assert!(rt; owner.collect(rt).is_none());
}

#[test]
fn jobs_go_through_until_a_queue_is_full(rt: HostRuntime) {
    two_go_through(&rt, rt.alloc(), &started(&rt, rt.alloc()));
}

/// Answers so many jobs, and says how many it did.
fn works_off<R: Wait>(rt: &R, alloc: Global, run: &Arc<Run>, hand: &mut JobHand, count: u64) -> u64
    requires { hand.old.made.run ≡ run.now.value }
{
    let mut done = 0;
    for _ in 0..MOST_TURNS {
        if done >= count {
            break;
        }
        if works(rt, alloc, run, hand) {
            done += 1;
        } else {
            yield_now();
        }
    }
    done
}

/// Collects so many answers, and adds up the numbers of their calls.
fn adds_up<R: Wait>(rt: &R, owner: &mut JobOwner, count: u64) -> u64 {
    let mut left = count;
    let mut sum: u64 = 0;
    for _ in 0..MOST_TURNS {
        if left == 0 {
            break;
        }
        match owner.collect(rt) {
            Some(done) => {
                sum = sum.wrapping_add(done.job().call);
                left -= 1;
            }
            None => yield_now(),
        }
    }
    sum
}

/// Gives three jobs that another thread answers.
fn another_thread_answers<R: Abort + Threads + Wait + Sync>(rt: &R, alloc: Global, run: &Arc<Run>) {
    let given = given(rt, run);
    let (mut owner, mut hand) = make(alloc, run, 3).expect(rt, "memory");
    assert!(rt; gives(rt, alloc, run, &mut owner, 1, &given));
    assert!(rt; gives(rt, alloc, run, &mut owner, 2, &given));
    assert!(rt; gives(rt, alloc, run, &mut owner, 4, &given));
    let (answered, sum) = join(
        rt,
        move || -> u64
            requires { hand.made.run ≡ run.now.value }
        { works_off(rt, alloc, run, &mut hand, 3) },
        move || -> u64 { adds_up(rt, &mut owner, 3) },
    );
    assert!(rt; answered == 3 && sum == 7);
}

#[test]
fn jobs_go_to_another_thread(rt: HostRuntime) {
    another_thread_answers(&rt, rt.alloc(), &started(&rt, rt.alloc()));
}
