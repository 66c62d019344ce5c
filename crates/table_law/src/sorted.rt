// Groups in the order of their paths.
ghost use Rattle.std.specs.Prelude.{◌≡◌, IfOk};
ghost use Rattle.star_lists.specs.Ascending.{in_order};
ghost use Rattle.layer_walk.specs.Reveal.{by_path};

use layer_walk::OpenedGroup;
use star_io::NoMemory;
use std::cmp::Ordering;

/// The groups in the order of their paths.
pub(crate) fn sorted_by_path(mut groups: Vec<OpenedGroup>) -> Result<Vec<OpenedGroup>, NoMemory>
    ensures { IfOk result (λ sorted. sorted.items ≡ in_order by_path groups.items) }
{
    groups.sort_by(by_path)?;
    Ok(groups)
}

// By path: step by step, a proper prefix first.
fn by_path(a: &OpenedGroup, b: &OpenedGroup) -> Ordering
    ensures { result ≡ by_path a.now b.now }
{
    a.path.cmp(&b.path)
}
