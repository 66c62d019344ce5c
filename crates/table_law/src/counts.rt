// How often numbers occur.
ghost use Rattle.std.specs.Prelude.{◌<◌, ◌≤◌, ℕ, length, slice_index, IfOk};
ghost use Rattle.nest_client.specs.declared.limits.TheConstants.{MAX_REPORTS};
ghost use Rattle.table_law.specs.Fronts.{AreCounts};

use star_io::NoMemory;
use std::alloc::Global;

/// How often each number below as many as there are is one of them.
pub(crate) fn counts_of(alloc: Global, numbers: &[u32]) -> Result<Vec<u32>, NoMemory>
    requires below { (i : ℕ) → i < length numbers.now →
        slice_index numbers.now i < length numbers.now }
    requires few { length numbers.now ≤ MAX_REPORTS }
    ensures { IfOk result (λ counts. AreCounts numbers.now counts.items) }
{
    let mut counts = vec![in alloc; 0u32; numbers.len()]?;
    'numbers: for n in numbers {
        counts[*n as usize] += 1;
    }
    Ok(counts)
}
