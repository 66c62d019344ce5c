ghost use Rattle.std.specs.Prelude.{◌≡◌};
ghost use Rattle.cert_audit.specs.Names.{verdict_name};

use report_frame::Value;

/// What an audit says of a certificate.
#[derive(Debug, Drop, PartialEq, Eq)]
pub enum Verdict {
    /// The group opens to this value, and so many of its points agree.
    Yes { value: Value, agree: u32 },
    /// There are fewer points than the threshold.
    Few,
    /// The values of the polynomials at 0 aren't the limbs of a key.
    Key,
    /// Too few of the points lie on all three polynomials: this many.
    Short { agree: u32 },
    /// The value under the key doesn't give the head back.
    Value,
}

impl Verdict {
    /// The name under which the verdict is printed.
    pub fn name(&self) -> &'static str
        ensures { result.now ≡ verdict_name self.now }
    {
        match self {
            Verdict::Yes { .. } => "Yes",
            Verdict::Few => "Few",
            Verdict::Key => "Key",
            Verdict::Short { .. } => "Short",
            Verdict::Value => "Value",
        }
    }
}
