//! The workers.
ghost use Rattle.std.specs.Prelude.{◌≡◌};
ghost use Rattle.sn_jobs.specs.Queues.{IsDoneOf};

use crate::shared::Shared;
use crate::signals::Signals;
use sn_boxrun::Done;
use sn_io::Gate;
use sn_jobs::JobHand;
use sn_wakeup::Backoff;
use std::sync::Wait;
use std::thread;
use std::thread::Threads;

/// Gives an answer, again and again where the queue is full, until the run is over.
fn answer<R: Wait>(rt: &R, signals: &Signals, hand: &mut JobHand, done: Done)
    requires { IsDoneOf hand.old.made.run done }
    ensures { hand.new.made ≡ hand.old.made }
{
    let mut backoff = Backoff::new(&signals.room);
    let mut waiting = done;
    for _ in rt.forever() {
        let Err(back) = hand.answer(rt, waiting) else {
            signals.answers.notify_one();
            return;
        };
        if signals.is_over() {
            return;
        }
        waiting = back;
        backoff.wait(rt);
    }
}

/// Takes jobs and answers them, until the run is over or memory is refused.
fn work<R: Wait, G: Gate>(rt: &R, shared: &Shared<G>, hand: &mut JobHand)
    requires { hand.old.made.run ≡ shared.now.run.now.value }
{
    let mut backoff = Backoff::new(&shared.signals.jobs);
    for _ in rt.forever() {
        if shared.signals.is_over() {
            return;
        }
        let Some(job) = hand.take(rt) else {
            backoff.wait(rt);
            continue;
        };
        backoff.reset();
        let Ok(done) = shared.make_call(job) else {
            shared.signals.refuse();
            return;
        };
        answer(rt, &shared.signals, hand, done);
    }
}

/// Works in this thread and in as many others as are still lacking. Where one of those can't be started there are fewer.
pub fn help<R: Threads + Wait + Sync, G: Gate>(
    rt: &R,
    shared: &Shared<G>,
    hand: &mut JobHand,
    workers: u32,
)
    requires { hand.old.made.run ≡ shared.now.run.now.value }
{
    thread::scope(
        thread::scope_env(),
        rt,
        |scope|
            requires { hand.now.made.run ≡ shared.now.run.now.value }
        {
            for _ in 2..workers {
                if let Ok(theirs) = hand.split() {
                    let mut theirs = theirs;
                    let _ = scope.spawn(
                        move ||
                            requires { theirs.made.run ≡ shared.now.run.now.value }
                        { work(rt, shared, &mut theirs) },
                    );
                }
            }
            work(rt, shared, hand);
        },
    );
}
