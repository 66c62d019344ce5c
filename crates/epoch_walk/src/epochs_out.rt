use crate::part::EpochParts;
use crate::stray::Strays;

/// What a stream with reports of many epochs reveals.
#[derive(Drop)]
pub struct EpochsOut {
    /// The number of records.
    pub records: u32,
    /// What the reports of each epoch reveal, by epochs in ascending order.
    pub parts: EpochParts,
    /// The records that belong to no epoch, in their order.
    pub strays: Strays,
}
