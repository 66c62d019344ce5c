//! Certificates of openings: what a group was opened with, its bytes, and an audit that decodes
//! nothing.
#![tactic(auto)]

mod auditing;
mod cert;
mod fault;
mod fields;
mod front;
mod kind;
pub mod laws;
mod limits;
mod list;
mod points;
mod ranges;
mod read;
mod spell;
mod verdict;

pub use auditing::audit;
pub use cert::{Cert, CertPoints, Numbers, ReadCert};
pub use fault::{CertError, CertFault};
pub use kind::CertKind;
pub use limits::{CERT_FORMAT, CERT_MAGIC, MAX_POINTS};
pub use list::CertList;
pub use read::read_cert;
pub use spell::cert_bytes;
pub use verdict::Verdict;
