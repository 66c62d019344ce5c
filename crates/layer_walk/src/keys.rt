use report_frame::Version;

/// The keys of an opened group, with its version and where it stands.
#[derive(Clone, Copy)]
pub(crate) struct Keys {
    pub(crate) seal: [u8; 32],
    pub(crate) body: [u8; 32],
    pub(crate) version: Version,
    pub(crate) epoch: u32,
    pub(crate) level: u8,
}
