//! Laws of certificates. Each function does nothing: its clause is a fact about the definitions
//! that the other contracts cite.
ghost use Rattle.std.specs.Prelude.{◌≡◌, ◌⊎◌, ◌↔◌, ◌++◌, ◌≤◌, ℕ, List, length, Ok, Err, Some};
ghost use Rattle.star_io.specs.Bytes.{AreBytes};
ghost use Rattle.shamir_limbs.specs.KeyLine.{IsKeyLine};
ghost use Rattle.cert_audit.specs.declared.limits.TheConstants.{CERT_MAGIC, CERT_FORMAT, MAX_POINTS};
ghost use Rattle.cert_audit.specs.declared.cert.Cert.{Cert};
ghost use Rattle.cert_audit.specs.declared.cert.ReadCert.{ReadCert};
ghost use Rattle.cert_audit.specs.declared.fault.CertFault.{CertFault};
ghost use Rattle.cert_audit.specs.declared.verdict.Verdict.TheVariants.{Yes};
ghost use Rattle.cert_audit.specs.Audit.{polynomial_of, agree_of, claimed_value, verdict_of};
ghost use Rattle.cert_audit.specs.Certificate.{InRange, BeginsWith, FaultAt, cert_spelling};
ghost use Rattle.cert_audit.specs.Reading.{reading};
ghost use Rattle.cert_audit.specs.Laws.{Opens, BeginsWithOne, HasOneFault};

/// The limits in plain numbers.
pub fn limits()
    ensures magic { CERT_MAGIC ≡ 0x5354_4152_4345_5254 }
    ensures format { CERT_FORMAT ≡ 1 }
    ensures points { MAX_POINTS ≡ 131072 }
{}

/// No certificate's bytes are those of another one, or begin with them.
#[tactic(auto, using(crate::proofs::CertLaws::no_prefix))]
pub fn no_prefix()
    ensures { (c d : Cert) (more other : List ℕ) → InRange c → InRange d →
        cert_spelling c ++ more ≡ cert_spelling d ++ other → c ≡ d }
{}

/// Bytes begin with one certificate, or they have one fault, and never both.
#[tactic(auto, using(crate::proofs::CertLaws::cert_or_fault))]
pub fn cert_or_fault()
    ensures { (bytes : List ℕ) → AreBytes bytes → BeginsWithOne bytes ⊎ HasOneFault bytes }
{}

/// Reading the fields in turn gives a certificate exactly where the bytes begin with it.
pub fn reading_cert()
    ensures { (bytes : List ℕ) (r : ReadCert) → AreBytes bytes → (reading bytes ≡ Ok r)
        ↔ BeginsWith r.cert r.used bytes }
{}

/// Reading the fields in turn gives a fault exactly where it is the fault of the bytes.
pub fn reading_fault()
    ensures { (bytes : List ℕ) (fault : CertFault) → AreBytes bytes → (reading bytes ≡ Err fault)
        ↔ FaultAt bytes fault.kind fault.at }
{}

/// A certificate with the verdict Yes gives what its points and its head open to, whoever made it.
#[tactic(auto, using(crate::proofs::Sound::audit_sound))]
pub fn audit_sound()
    ensures { (c : Cert) (value : List ℕ) (agree : ℕ) → InRange c → verdict_of c ≡ Yes value agree →
        Opens c value agree }
{}

/// Polynomials on which enough of the points lie, and whose key opens the head, have the verdict
/// Yes.
#[tactic(auto, using(crate::proofs::Sound::audit_complete))]
pub fn audit_complete()
    ensures { (c : Cert) (value : List ℕ) → c.head.k ≤ length c.points →
        IsKeyLine (polynomial_of c 0) (polynomial_of c 1) (polynomial_of c 2) c.points c.head.k →
        claimed_value c ≡ Some value → verdict_of c ≡ Yes value (agree_of c) }
{}
