ghost use Rattle.std.specs.Prelude.{◌≡◌, Some};
ghost use Rattle.cert_audit.specs.Names.{name_of};

use std::fmt;

/// What is wrong with bytes that begin with no certificate.
#[derive(Clone, Copy, Debug, PartialEq, Eq)]
pub enum CertKind {
    /// The bytes end before this field does.
    Truncated,
    /// The bytes don't begin with `STARCERT`.
    Magic,
    /// The format isn't the one that is read.
    Format,
    /// A number is out of its range.
    Range,
}

impl CertKind {
    /// The name under which the fault is printed.
    pub fn name(self) -> &'static str
        ensures { result.now ≡ name_of self }
    {
        match self {
            CertKind::Truncated => "Truncated",
            CertKind::Magic => "Magic",
            CertKind::Format => "Format",
            CertKind::Range => "Range",
        }
    }
}

impl fmt::Display for CertKind {
    ghost output = { λ kind. Some (name_of kind) };

    fn fmt<W: fmt::Write>(&self, f: &mut fmt::Formatter<W>) -> fmt::Result {
        f.write_str(self.name())
    }
}
