use layer_walk::Revealed;
use tag_groups::Listed;

/// What the reports of one epoch reveal.
#[derive(Drop)]
pub struct EpochPart {
    pub epoch: u32,
    /// The reveal of the reports of this epoch alone. The numbers of records in it count these.
    pub reveal: Revealed,
}

/// A list of epochs with what their reports reveal.
pub type EpochParts = Listed<EpochPart>;
