// The values of a report, from the cells of a caller.
ghost use Rattle.std.specs.Prelude.{◌≡◌, ◌≤◌, ◌+◌, ◌++◌, ℕ, List, true, length, All};
ghost use Rattle.star_client_c.specs.Cells.{cells_of, IsValue};

use arrayvec::ArrayVec;
use report_frame::{MAX_LAYERS, Value};

/// Appends the values of the cells, if the cells are those of `width` values.
pub(crate) fn take_cells(row: &mut ArrayVec<Value, MAX_LAYERS>, cells: &[u8], width: usize) -> bool
    requires room { length row.old.items + width ≤ MAX_LAYERS }
    ensures long { result ≡ true → length row.new.items ≡ length row.old.items + width }
    ensures taken { result ≡ true → cells_of row.new.items ≡ cells_of row.old.items ++ cells.now }
    ensures values { result ≡ true → All IsValue row.old.items → All IsValue row.new.items }
    ensures found { (values : List (List ℕ)) → length values ≡ width → All IsValue values
        → cells_of values ≡ cells.now → result ≡ true }
{
    if width == 0 {
        return cells.is_empty();
    }
    let Some((count, rest)) = cells.split_first() else {
        return false;
    };
    let count = usize::from(*count);
    if rest.len() < count {
        return false;
    }
    let (front, rest) = rest.split_at(count);
    let Some(value) = Value::of(front) else {
        return false;
    };
    row.push(value);
    take_cells(row, rest, width - 1)
}
