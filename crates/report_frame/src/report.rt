ghost use Rattle.std.specs.Prelude.{◌↔◌, IsTrue};
ghost use Rattle.report_frame.specs.Report.{IsGood};

use crate::head::Head;
use crate::limits::{FIXED_BYTES, MIN_THRESHOLD, NONCE_BYTES, SEAL_BYTES};
use field61::Fe;
use star_io::Bytes;

/// A report as a value, for someone who makes one. Its frame is made by `encode`.
#[derive(Debug, Drop)]
pub struct Report {
    /// The level, from 0.
    pub level: u8,
    pub epoch: u32,
    pub head: Head,
    /// Where the polynomials were evaluated.
    pub x: Fe,
    /// The share: the values of the three polynomials at x.
    pub y: [Fe; 3],
    /// The nonce of the body's keystream.
    pub nonce: [u8; NONCE_BYTES],
    /// The body, under its keystream.
    pub body: Bytes,
    pub seal: [u8; SEAL_BYTES],
}

impl Report {
    /// Whether the report has a frame.
    pub fn is_good(&self) -> bool
        ensures { IsTrue result ↔ IsGood self.now }
    {
        let version = self.head.version;
        let most = version.max_frame() - FIXED_BYTES - self.head.boxed.as_slice().len();
        let body = self.body.as_slice();
        self.level <= version.max_level()
            && MIN_THRESHOLD <= self.head.k
            && self.head.k <= version.max_threshold()
            && self.x.value() != 0
            && !body.is_empty()
            && body.len() <= most
    }
}
