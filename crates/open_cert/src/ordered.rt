// Certificates in the order of a reveal.
ghost use Rattle.std.specs.Prelude.{◌≡◌, map, IfOk};
ghost use Rattle.layer_walk.specs.Kept.{IsSortOf};
ghost use Rattle.open_cert.specs.Certs.{by_told_path};

use crate::certified::Certified;
use cert_audit::{Cert, CertList};
use star_io::NoMemory;
use std::alloc::Global;
use std::cmp::Ordering;

/// The groups by their paths.
pub(crate) fn sorted_by_path(mut made: Vec<Certified>) -> Result<Vec<Certified>, NoMemory>
    ensures { IfOk result (λ sorted. IsSortOf by_told_path made.items sorted.items) }
{
    made.sort_by(by_path)?;
    Ok(made)
}

// By path: step by step, a proper prefix first.
fn by_path(a: &Certified, b: &Certified) -> Ordering
    ensures { result ≡ by_told_path a.now b.now }
{
    a.told.path.cmp(&b.told.path)
}

/// The certificates alone, in their order.
pub(crate) fn certs_alone(alloc: Global, made: Vec<Certified>) -> Result<CertList<Cert>, NoMemory>
    ensures { IfOk result (λ certs. certs ≡ map (λ m. m.cert) made.items) }
{
    let mut certs = Vec::with_capacity(alloc, made.len())?;
    for Certified { cert, .. } in made {
        certs.push(cert)?;
    }
    Ok(CertList::from_vec(certs))
}
