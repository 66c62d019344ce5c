ghost use Rattle.std.specs.Prelude.{◌≡◌, ◌<◌, ◌^◌, Some};
ghost use Rattle.report_frame.specs.Names.{name_of};
ghost use Rattle.report_frame.specs.Misread.{fault_of};

use std::fmt;

/// What is wrong with bytes that are no frame.
#[derive(Clone, Copy, Debug, PartialEq, Eq)]
pub enum FaultKind {
    /// There are more bytes than a frame may have.
    TooLong,
    /// The bytes end before this field does.
    Truncated,
    /// The frame doesn't begin with `ST`.
    Magic,
    /// The version isn't one that is read.
    Version,
    /// The level is above the deepest.
    Level,
    /// The threshold is out of its range.
    Threshold,
    /// The point x is 0 or no field element.
    Point,
    /// A share is no field element.
    Share,
    /// The length of the box is out of its range.
    BoxLength,
    /// The length of the body is 0.
    BodyLength,
    /// Bytes follow the seal.
    Trailing,
}

impl FaultKind {
    /// The name under which the fault is printed.
    pub fn name(self) -> &'static str
        ensures { result.now ≡ name_of self }
    {
        match self {
            FaultKind::TooLong => "TooLong",
            FaultKind::Truncated => "Truncated",
            FaultKind::Magic => "Magic",
            FaultKind::Version => "Version",
            FaultKind::Level => "Level",
            FaultKind::Threshold => "Threshold",
            FaultKind::Point => "Point",
            FaultKind::Share => "Share",
            FaultKind::BoxLength => "BoxLength",
            FaultKind::BodyLength => "BodyLength",
            FaultKind::Trailing => "Trailing",
        }
    }
}

impl fmt::Display for FaultKind {
    ghost output = { λ kind. Some (name_of kind) };

    fn fmt<W: fmt::Write>(&self, f: &mut fmt::Formatter<W>) -> fmt::Result {
        f.write_str(self.name())
    }
}

/// The one fault of bytes that are no frame.
#[derive(Clone, Copy, Debug, PartialEq, Eq)]
pub struct Fault {
    pub kind: FaultKind,
    /// Where the faulty field starts, in bytes from the front. For `TooLong` it is the most bytes
    /// of a frame, and for `Trailing` where the frame ends.
    pub at: u32,
}

/// A fault while a frame is read. Its place is as wide as a length, so that a result of it and one
/// of slices lie in memory alike: with a `Fault` in its place each field waits for the one before.
#[derive(Clone, Copy)]
pub(crate) struct Misread {
    pub(crate) kind: FaultKind,
    pub(crate) at: usize,
}

impl Misread {
    /// The fault.
    pub(crate) fn fault(self) -> Fault
        requires { self.at < 2 ^ 32 }
        ensures { result ≡ fault_of self }
    {
        Fault {
            kind: self.kind,
            at: self.at as u32,
        }
    }
}
