// Rows, grouped by the plain form: each is compared with each group.
ghost use Rattle.std.specs.Prelude.{◌≡◌, ◌<◌, ◌^◌, length, IfOk};
ghost use Rattle.std.specs.List.{list_any};
ghost use Rattle.tag_groups.specs.Keys.{is_row_of};
ghost use Rattle.tag_groups.specs.Grouped.{groups_of};
ghost use Rattle.tag_groups.specs.Index.{has_key};
ghost use Rattle.star_lists.specs.Places.{places};

use crate::group::{Group, Groups};
use crate::key::{Key, key_of};
use crate::listed::Listed;
use crate::row::Row;
use star_io::NoMemory;
use std::alloc::Global;

/// One group for each pair of parent and head that occurs, in the order of their first members.
/// Each row is compared with each group, and each group with each row.
pub fn group_rows(alloc: Global, rows: &[Row]) -> Result<Groups, NoMemory>
    requires { length rows.now < 2 ^ 32 }
    ensures { IfOk result (λ groups. groups ≡ groups_of rows.now) }
{
    let mut groups = Vec::new(alloc);
    for row in rows {
        let key = key_of(row);
        if !has_group(&groups, &key) {
            let members = places_of(alloc, rows, &key)?;
            groups.push(Group {
                parent: key.parent,
                head: key.head,
                members,
            })?;
        }
    }
    Ok(Listed::from_vec(groups))
}

// Whether one of the groups is that of the key.
fn has_group(groups: &Vec<Group>, key: &Key) -> bool
    ensures { result ≡ list_any (has_key key.now) groups.now.items }
{
    groups.iter().any(|group| group.is_of(key))
}

// The places of the rows with this key.
fn places_of(alloc: Global, rows: &[Row], key: &Key) -> Result<Vec<u32>, NoMemory>
    requires { length rows.now < 2 ^ 32 }
    ensures { IfOk result (λ members. members.items ≡ places (is_row_of key.now) rows.now) }
{
    let mut members = Vec::new(alloc);
    for (i, row) in rows.iter().enumerate() {
        if is_row_of(row, key) {
            members.push(i as u32)?;
        }
    }
    Ok(members)
}

fn is_row_of(row: &Row, key: &Key) -> bool
    ensures { result ≡ is_row_of key.now row.now }
{
    row.parent() == key.parent && row.view().head() == key.head
}
