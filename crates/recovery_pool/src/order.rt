//! Values that stand beside their numbers are put in the order of the numbers.
ghost use Rattle.std.specs.Prelude.{◌≡◌, ◌<◌, replicate, None, All, IfOk};
ghost use Rattle.recovery_pool.specs.Standing.{HasEachOnce};
ghost use Rattle.recovery_pool.specs.Answers.{AnswersEach, numbers};

use crate::entry::Entry;
use crate::job::Job;
use star_io::NoMemory;
use std::alloc::Global;

// So many places with nothing in them.
fn empty_places<X: Drop>(alloc: Global, count: usize) -> Result<Vec<Option<X>>, NoMemory>
    ensures { IfOk result (λ v. v.items ≡ replicate count None) }
{
    let mut places = Vec::new(alloc);
    for _k in 0..count {
        places.push(None)?;
    }
    Ok(places)
}

// The value beside each number, in the order of the numbers.
pub(crate) fn in_order<J: Job>(
    alloc: Global,
    jobs: &J,
    count: usize,
    mut entries: Vec<Entry<J::Out>>,
) -> Result<Vec<J::Out>, NoMemory>
    requires once { HasEachOnce count (numbers entries.items) }
    requires answered { All (λ e. J.answers jobs.now e.number e.out) entries.items }
    ensures { IfOk result (λ v. AnswersEach (J.answers jobs.now) count v.items) }
{
    let mut places = empty_places(alloc, count)?;
    while let Some(entry) = entries.pop() {
        let Entry { number, out } = entry;
        places[number as usize] = Some(out);
    }
    let mut outs = Vec::new(alloc);
    for k in 0..count {
        match places[k].take() {
            Some(out) => outs.push(out)?,
            None => unreachable!(),
        }
    }
    Ok(outs)
}
