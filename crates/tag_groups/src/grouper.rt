// Grouping rows as they arrive.
ghost use Rattle.std.specs.Prelude.{◌≡◌, ◌<◌, ◌-◌, ◌^◌, [], ◌∷◌, ◌++◌, length, is_ok, if◌then◌else◌, OnOk, OnErr, Some};
ghost use Rattle.std.specs.BTreeMap.{Updates, IsUnchanged};
ghost use Rattle.std.specs.List.{AllPairs};
ghost use Rattle.tag_groups.specs.Keys.{HasThreshold};
ghost use Rattle.tag_groups.specs.Grouped.{groups_of};
ghost use Rattle.tag_groups.specs.Index.{Finds, rank_cmp, rank_of, has_key, joined, new_group};
ghost use Rattle.tag_groups.specs.Laws.{AreApart};
ghost use Rattle.star_lists.specs.Places.{place_of};

use crate::group::{Group, Groups};
use crate::key::{Key, Rank, rank_of};
use crate::listed::Listed;
use crate::recent::Recent;
use crate::row::{HeadedRow, Row, Rows};
use report_frame::Head;
use star_io::NoMemory;
use std::alloc::Global;
use std::collections::BTreeMap;
use std::marker::Model;

/// Rows that are grouped as they arrive. The group of a row is a recently met one, or an ordered map
/// finds it, so no choice of heads makes it slow.
#[derive(Drop)]
pub struct Grouper {
    alloc: Global,
    rows: Vec<Row>,
    groups: Vec<Group>,
    places: BTreeMap<Rank, u32>,
    recent: Recent,
}

impl Model for Grouper {
    ghost use Rattle.std.specs.Prelude.{List};
    ghost use Rattle.tag_groups.specs.RowView.{RowView};

    ghost Value = { List RowView };

    ghost use Rattle.tag_groups.specs.Indexed.{IsIndexed};

    ghost view = { λ g. g.rows.items };

    ghost invariant = { λ g. IsIndexed g.rows.items g.groups.items g.places };
}

/// Rows and their groups.
#[derive(Drop)]
pub struct Grouped {
    pub rows: Rows,
    pub groups: Groups,
}

impl Grouper {
    /// No rows. It takes no memory.
    pub fn new(alloc: Global) -> Grouper
        ensures { result ≡ [] }
    {
        Grouper {
            alloc,
            rows: Vec::new(alloc),
            groups: Vec::new(alloc),
            places: BTreeMap::new(alloc),
            recent: Recent::new(alloc),
        }
    }

    /// Puts the row last. After `NoMemory` the rows are as before, and the row is dropped.
    pub fn add(&mut self, row: Row) -> Result<(), NoMemory>
        requires { length self.old < 2 ^ 32 - 1 }
        ensures added { OnOk result (self.new ≡ self.old ++ row ∷ []) }
        ensures kept { OnErr result (self.new ≡ self.old) }
    {
        self.add_headed(HeadedRow::of(row))
    }

    /// Puts the row last, as [`add`](Grouper::add) does, and doesn't read its frame again.
    pub fn add_headed(&mut self, row: HeadedRow) -> Result<(), NoMemory>
        requires { length self.old < 2 ^ 32 - 1 }
        ensures added { OnOk result (self.new ≡ self.old ++ row ∷ []) }
        ensures kept { OnErr result (self.new ≡ self.old) }
    {
        let HeadedRow { row, head } = row;
        let key = Key {
            parent: row.parent(),
            head,
        };
        let member = self.rows.len() as u32;
        self.recent.grow(self.alloc, member);
        self.rows.push(row)?;
        let joined = join(
            self.alloc,
            &mut self.groups,
            &mut self.places,
            &mut self.recent,
            key,
            member,
        );
        if joined.is_err() {
            self.rows.pop();
        }
        joined
    }

    /// The rows and their groups. It takes no memory.
    pub fn finish(self) -> Grouped
        ensures rows { result.rows ≡ self }
        ensures groups { result.groups ≡ groups_of self }
    {
        Grouped {
            rows: Listed::from_vec(self.rows),
            groups: Listed::from_vec(self.groups),
        }
    }
}

// Puts the row of this place into the group of its key. After `NoMemory` all is as before.
fn join(
    alloc: Global,
    groups: &mut Vec<Group>,
    places: &mut BTreeMap<Rank, u32>,
    recent: &mut Recent,
    key: Key,
    member: u32,
) -> Result<(), NoMemory>
    requires finds { Finds places.old groups.old.items }
    requires apart { AllPairs AreApart groups.old.items }
    requires few { length groups.old.items < 2 ^ 32 }
    requires threshold { HasThreshold key.head }
    ensures groups { groups.new.items
        ≡ (if is_ok result then joined key member groups.old.items else groups.old.items) }
    ensures finds { Finds places.new groups.new.items }
{
    let rank = rank_of(key);
    match find(groups, places, recent, &rank) {
        Some(place) => {
            recent.put(rank.front, place);
            groups[place as usize].add_member(member)
        }
        None => {
            recent.put(rank.front, groups.len() as u32);
            begin(alloc, groups, places, rank, member)
        }
    }
}

// The place of the group of this rank's key: the one in its slot if that group has the key,
// otherwise what the map says.
fn find(
    groups: &Vec<Group>,
    places: &BTreeMap<Rank, u32>,
    recent: &Recent,
    rank: &Rank,
) -> Option<u32>
    requires finds { Finds places.now groups.now.items }
    requires apart { AllPairs AreApart groups.now.items }
    requires rank { rank.now ≡ rank_of rank.now.key }
    ensures { result ≡ place_of (has_key rank.now.key) groups.now.items }
{
    let place = recent.place(rank.front);
    if (place as usize) < groups.len() && groups[place as usize].is_of(&rank.key) {
        Some(place)
    } else {
        places.get(rank).copied()
    }
}

// Begins a group of this rank's key with the row of this place. After `NoMemory` all is as before.
fn begin(
    alloc: Global,
    groups: &mut Vec<Group>,
    places: &mut BTreeMap<Rank, u32>,
    rank: Rank,
    member: u32,
) -> Result<(), NoMemory>
    requires few { length groups.old.items < 2 ^ 32 }
    requires threshold { HasThreshold rank.key.head }
    ensures groups { groups.new.items
        ≡ (if is_ok result then groups.old.items
        ++ new_group rank.key member ∷ [] else groups.old.items) }
    ensures places { OnOk result (Updates rank_cmp places.old places.new rank
        (Some (length groups.old.items))) }
    ensures kept { OnErr result (IsUnchanged places.old places.new) }
{
    let mut members = Vec::new(alloc);
    members.push(member)?;
    let place = groups.len() as u32;
    groups.push(Group {
        parent: rank.key.parent,
        head: copy_head(&rank.key.head),
        members,
    })?;
    if places.insert(rank, place).is_err() {
        groups.pop();
        return Err(NoMemory);
    }
    Ok(())
}

// The same head once more.
fn copy_head(head: &Head) -> Head
    ensures { result ≡ head.now }
{
    Head {
        version: head.version,
        k: head.k,
        tag: head.tag,
        check: head.check,
        boxed: head.boxed.copy(),
    }
}
