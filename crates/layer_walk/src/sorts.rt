// What is found group by group or level by level, put in its order.
ghost use Rattle.std.specs.Prelude.{◌≡◌, IfOk};
ghost use Rattle.layer_walk.specs.Made.{row_cmp};
ghost use Rattle.layer_walk.specs.Kept.{IsSortOf};
ghost use Rattle.layer_walk.specs.Reveal.{by_path, by_index, by_aux_index};

use crate::auxiliary::Aux;
use crate::refusal::Refusal;
use crate::revealed::OpenedGroup;
use star_io::NoMemory;
use std::cmp::Ordering;
use tag_groups::Row;

/// The rows by the numbers of their records.
pub(crate) fn sorted_rows(mut rows: Vec<Row>) -> Result<Vec<Row>, NoMemory>
    ensures { IfOk result (λ sorted. IsSortOf row_cmp rows.items sorted.items) }
{
    rows.sort_by_key(|row| row.index())?;
    Ok(rows)
}

/// The refusals by the numbers of their records.
pub(crate) fn sorted_refusals(mut refusals: Vec<Refusal>) -> Result<Vec<Refusal>, NoMemory>
    ensures { IfOk result (λ sorted. IsSortOf by_index refusals.items sorted.items) }
{
    refusals.sort_by_key(|refusal| refusal.index)?;
    Ok(refusals)
}

/// The extra bytes by the numbers of their records.
pub(crate) fn sorted_aux(mut aux: Vec<Aux>) -> Result<Vec<Aux>, NoMemory>
    ensures { IfOk result (λ sorted. IsSortOf by_aux_index aux.items sorted.items) }
{
    aux.sort_by_key(|one| one.index)?;
    Ok(aux)
}

/// The opened groups by their paths.
pub(crate) fn sorted_groups(mut groups: Vec<OpenedGroup>) -> Result<Vec<OpenedGroup>, NoMemory>
    ensures { IfOk result (λ sorted. IsSortOf by_path groups.items sorted.items) }
{
    groups.sort_by(by_path)?;
    Ok(groups)
}

// By path: step by step, a proper prefix first.
fn by_path(a: &OpenedGroup, b: &OpenedGroup) -> Ordering
    ensures { result ≡ by_path a.now b.now }
{
    a.path.cmp(&b.path)
}
