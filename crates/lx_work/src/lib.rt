//! Works that run at the same time, each in a thread of its own.
#![tactic(auto)]

ghost use Rattle.std.specs.Prelude.{ℕ};
ghost use Rattle.std.specs.List.{AllZip, All};
ghost use Rattle.std.specs.Thread.{IsSync};

use std::sync::Wait;
use std::thread::{Threads, join_mut};

/// A work that is done once. It may wait.
pub trait Work {
    /// What may be asked before.
    ghost ready: { Self → Type 0 };

    /// What it was and what it left.
    ghost done: { Self → Self → Type 0 };

    /// Does the work.
    fn run<R: Wait>(&mut self, rt: &R)
        requires { ready self.old }
        ensures { done self.old self.new };
}

/// Runs each work, in a thread of its own where one can be made.
#[cycle(works)]
pub fn run_all<R: Threads + Wait + Sync, W: Work + Send>(rt: &R, works: &mut [W])
    requires { All W.ready works.old }
    ensures { AllZip W.done works.old works.new }
{
    match works {
        [] => {}
        [work] => work.run(rt),
        many => {
            let half = many.len() / 2;
            let (left, right) = many.split_at_mut(half);
            run_both(rt, left, right);
        }
    }
}

/// Runs two lists of works at the same time.
#[cycle(works)]
fn run_both<R: Threads + Wait + Sync, W: Work + Send>(rt: &R, left: &mut [W], right: &mut [W])
    requires left { All W.ready left.old }
    requires right { All W.ready right.old }
    ensures left { AllZip W.done left.old left.new }
    ensures right { AllZip W.done right.old right.new }
{
    join_mut(
        rt,
        &mut || -> ()
            requires sync { IsSync R.row }
            requires ready { All W.ready left.now }
            ensures { AllZip W.done left.entry.now left.exit.now }
        { run_all(rt, left) },
        &mut || -> ()
            requires sync { IsSync R.row }
            requires ready { All W.ready right.now }
            ensures { AllZip W.done right.entry.now right.exit.now }
        { run_all(rt, right) },
    );
}

/// Runs a list of works and, in this thread, one that they may wait for. Where no thread can be made for them, they run after it; no
/// clause says so.
pub fn run_before<R: Threads + Wait + Sync, F: Work + Send, W: Work + Send>(
    rt: &R,
    first: &mut F,
    works: &mut [W],
)
    requires first { F.ready first.old }
    requires works { All W.ready works.old }
    ensures first { F.done first.old first.new }
    ensures works { AllZip W.done works.old works.new }
{
    join_mut(
        rt,
        &mut || -> ()
            requires sync { IsSync R.row }
            requires ready { All W.ready works.now }
            ensures { AllZip W.done works.entry.now works.exit.now }
        { run_all(rt, works) },
        &mut || -> ()
            requires sync { IsSync R.row }
            requires ready { F.ready first.now }
            ensures { F.done first.entry.now first.exit.now }
        { first.run(rt) },
    );
}

/// Runs a list of works and one that may wait for them. Where no thread can be made, it runs after them; no clause says so.
pub fn run_after<R: Threads + Wait + Sync, W: Work + Send, L: Work + Send>(
    rt: &R,
    works: &mut [W],
    last: &mut L,
)
    requires works { All W.ready works.old }
    requires last { L.ready last.old }
    ensures works { AllZip W.done works.old works.new }
    ensures last { L.done last.old last.new }
{
    join_mut(
        rt,
        &mut || -> ()
            requires sync { IsSync R.row }
            requires ready { L.ready last.now }
            ensures { L.done last.entry.now last.exit.now }
        { last.run(rt) },
        &mut || -> ()
            requires sync { IsSync R.row }
            requires ready { All W.ready works.now }
            ensures { AllZip W.done works.entry.now works.exit.now }
        { run_all(rt, works) },
    );
}
