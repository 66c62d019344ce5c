use crate::list::CertList;
use field61::Fe;
use report_frame::{CHECK_BYTES, Head};
use shamir_limbs::Point;

/// The points of a certificate.
pub type CertPoints = CertList<Point>;

/// The coefficients of the three polynomials of a certificate.
pub type Numbers = CertList<Fe>;

/// A certificate: what a group was opened with. Its polynomials are handed in, so whoever checks it
/// decodes nothing.
#[derive(Drop)]
pub struct Cert {
    /// The level of the group, from 0.
    pub level: u8,
    pub epoch: u32,
    /// The check of the group's parent, and 32 zero bytes at level 0.
    pub parent: [u8; CHECK_BYTES],
    /// What the members of the group have in common.
    pub head: Head,
    /// The points left of the group, in ascending x.
    pub points: CertPoints,
    /// The k coefficients of polynomial 0 from the lowest, then those of polynomials 1 and 2.
    pub numbers: Numbers,
}

/// A certificate that was read, and how many bytes it has.
#[derive(Drop)]
pub struct ReadCert {
    pub cert: Cert,
    pub used: u64,
}
