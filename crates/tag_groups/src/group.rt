ghost use Rattle.std.specs.Prelude.{◌≡◌, ◌≤◌, is_ok, if◌then◌else◌};
ghost use Rattle.report_frame.specs.declared.limits.TheConstants.{MIN_THRESHOLD};
ghost use Rattle.report_frame.specs.Versions.{max_threshold};
ghost use Rattle.tag_groups.specs.Index.{has_key, with_member};

use crate::key::Key;
use crate::listed::Listed;
use report_frame::Head;
use star_io::NoMemory;
use std::marker::Model;

/// The rows of one parent and one head.
#[derive(Drop)]
pub struct Group {
    pub(crate) parent: u32,
    pub(crate) head: Head,
    pub(crate) members: Vec<u32>,
}

impl Model for Group {
    ghost use Rattle.tag_groups.specs.GroupView.{GroupView};

    ghost Value = { GroupView };

    ghost view = { λ g. record { parent = g.parent; head = g.head; members = g.members.items } };

    ghost use Rattle.tag_groups.specs.Keys.{HasThreshold};

    ghost invariant = { λ g. HasThreshold g.head };
}

impl Group {
    /// The parent of its rows.
    pub fn parent(&self) -> u32
        ensures { result ≡ self.now.parent }
    {
        self.parent
    }

    /// The head of its rows. Its threshold is one of its version.
    pub fn head(&self) -> &Head
        ensures head { result.now ≡ self.now.head }
        ensures low { MIN_THRESHOLD ≤ self.now.head.k }
        ensures high { self.now.head.k ≤ max_threshold self.now.head.version }
    {
        &self.head
    }

    /// The places of its rows, ascending.
    pub fn members(&self) -> &[u32]
        ensures { result.now ≡ self.now.members }
    {
        self.members.as_slice()
    }

    /// Whether it is the group of the key.
    pub(crate) fn is_of(&self, key: &Key) -> bool
        ensures { result ≡ has_key key.now self.now }
    {
        self.parent == key.parent && self.head == key.head
    }

    /// Puts a place last. After `NoMemory` the group is as before.
    pub(crate) fn add_member(&mut self, place: u32) -> Result<(), NoMemory>
        ensures { self.new ≡ (if is_ok result then with_member place self.old else self.old) }
    {
        self.members.push(place)?;
        Ok(())
    }
}

/// A list of groups.
pub type Groups = Listed<Group>;
