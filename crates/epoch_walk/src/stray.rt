ghost use Rattle.std.specs.Prelude.{◌≡◌, ◌++◌, ◌∷◌, [], OnOk, OnErr};

use layer_walk::Why;
use star_io::NoMemory;
use tag_groups::Listed;

/// A record that is no report of level 0, and so belongs to no epoch.
#[derive(Clone, Copy, Debug, PartialEq, Eq)]
pub struct Stray {
    /// The number of the record in the whole stream.
    pub index: u32,
    pub why: Why,
}

/// A list of strays.
pub type Strays = Listed<Stray>;

/// Keeps why the record of this number belongs to no epoch. After `NoMemory` all is as before.
pub(crate) fn keep(strays: &mut Strays, index: u32, why: Why) -> Result<(), NoMemory>
    ensures added { OnOk result (strays.new
        ≡ strays.old ++ record { index = index; why = why } ∷ []) }
    ensures kept { OnErr result (strays.new ≡ strays.old) }
{
    strays.push(Stray { index, why })
}
