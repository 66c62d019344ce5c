//! Laws of the ticket word and of lists of answers, and the limits in plain numbers.
//!
//! Each function does nothing, and its clause is the law. `TicketsStand` is the rule of the word:
//! each kind of step keeps it, so it holds between any two steps, for any passes in any threads.
ghost use Rattle.std.specs.Prelude.{◌≡◌, ◌≢◌, ℕ, ◌+◌, ◌<◌, ◌≤◌, false, true, List, [], ◌∷◌, ◌++◌, slice_set};
ghost use mathlib.Core.Option.{some};
ghost use lib.ListN.{get_elem?};
ghost use Rattle.recovery_pool.specs.declared.limits.TheConstants.{MAX_JOBS, MAX_WORKERS};
ghost use Rattle.recovery_pool.specs.declared.pass_view.PassView.{PassView};
ghost use Rattle.recovery_pool.specs.Answers.{AnswersEach, HaveOneAnswer};
ghost use Rattle.recovery_pool.specs.Standing.{HasEachOnce, TicketsStand};
ghost use Rattle.recovery_pool.specs.Steps.{after_draw, begins_with, fresh, joined, keeps_rest, nobody};

use crate::job::Job;

/// The most jobs and the most workers in plain numbers.
pub fn limits()
    ensures jobs { MAX_JOBS ≡ 4294967296 }
    ensures workers { MAX_WORKERS ≡ 64 }
{}

/// The tickets stand where the word is 0 and the one pass has the share of all workers.
pub fn stand_at_first()
    ensures { (jobs workers : ℕ) → 1 ≤ workers
        → TicketsStand 0 (fresh workers jobs ∷ []) jobs workers }
{}

/// They still stand after a draw by a pass that isn't spent, which adds 1 to the word.
pub fn stand_after_draw()
    ensures { (word jobs workers k : ℕ) (views : List PassView) (v : PassView)
        → TicketsStand word views jobs workers → get_elem? views k ≡ some v
        → 1 ≤ v.share → v.spent ≡ false
        → TicketsStand (word + 1) (slice_set views k (after_draw v word)) jobs workers }
{}

/// They still stand after a pass that isn't spent gave a part of its share to a new one.
pub fn stand_after_split()
    ensures { (word jobs workers k part : ℕ) (views : List PassView) (v : PassView)
        → TicketsStand word views jobs workers → get_elem? views k ≡ some v
        → 1 ≤ part → part < v.share → v.spent ≡ false
        → TicketsStand word (slice_set views k (keeps_rest part v) ++ begins_with part v ∷ [])
        jobs workers }
{}

/// They still stand after a pass took in another, which leaves a view with no share behind.
pub fn stand_after_join()
    ensures { (word jobs workers k other : ℕ) (views : List PassView) (v w : PassView)
        → TicketsStand word views jobs workers → get_elem? views k ≡ some v
        → 1 ≤ v.share → 1 ≤ w.share → other ≢ k
        → get_elem? (slice_set views k (joined v w)) other ≡ some w
        → TicketsStand word (slice_set (slice_set views k (joined v w)) other nobody)
        jobs workers }
{}

/// The word is at most the number of jobs and the number of workers, so it never wraps.
pub fn word_is_bounded()
    ensures { (word jobs workers : ℕ) (views : List PassView)
        → TicketsStand word views jobs workers → word ≤ jobs + workers }
{}

/// A spent pass that has the share of all workers drew each number below the jobs exactly once.
pub fn all_drawn_at_last()
    ensures { (word jobs workers k : ℕ) (views : List PassView) (v : PassView)
        → TicketsStand word views jobs workers → get_elem? views k ≡ some v
        → 1 ≤ workers → v.share ≡ workers → v.spent ≡ true → HasEachOnce jobs v.drawn }
{}

/// Where each job has at most one answer, there is only one list that answers all of them.
pub fn one_list<J: Job>()
    ensures { (jobs : J) (xs ys : List J.Out) → HaveOneAnswer (J.answers jobs) (J.jobs jobs)
        → AnswersEach (J.answers jobs) (J.jobs jobs) xs
        → AnswersEach (J.answers jobs) (J.jobs jobs) ys → xs ≡ ys }
{}
