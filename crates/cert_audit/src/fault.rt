use crate::kind::CertKind;
use std::alloc::AllocError;

/// The one fault of bytes that begin with no certificate.
#[derive(Clone, Copy, Debug, PartialEq, Eq)]
pub struct CertFault {
    pub kind: CertKind,
    /// Where the faulty field starts, in bytes from the front.
    pub at: u64,
}

/// Why no certificate was read.
#[derive(Clone, Copy, Debug, PartialEq, Eq)]
pub enum CertError {
    /// The bytes begin with none: the first faulty field, and where it starts, in bytes from the
    /// front.
    Bad { kind: CertKind, at: u64 },
    /// Memory ran out.
    NoMemory,
}

impl From<CertFault> for CertError {
    ghost use Rattle.std.specs.Prelude.{◌≡◌};
    ghost use Rattle.cert_audit.specs.declared.fault.CertError.TheVariants.{Bad};

    ghost from_gives = { λ fault error. error ≡ Bad fault.kind fault.at };

    fn from(fault: CertFault) -> Self {
        CertError::Bad {
            kind: fault.kind,
            at: fault.at,
        }
    }
}

impl From<AllocError> for CertError {
    ghost use Rattle.std.specs.Prelude.{◌≡◌};
    ghost use Rattle.cert_audit.specs.declared.fault.CertError.TheVariants.{NoMemory};

    ghost from_gives = { λ _ error. error ≡ NoMemory };

    fn from(_: AllocError) -> Self {
        CertError::NoMemory
    }
}
