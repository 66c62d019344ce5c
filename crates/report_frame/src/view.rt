// A frame, field by field.
ghost use Rattle.std.specs.Prelude.{◌≡◌, ◌<◌, [], ◌∷◌};
ghost use Rattle.report_frame.specs.Parts.{ViewsFrame};

use crate::head::Head;
use crate::limits::{NONCE_BYTES, SEAL_BYTES};
use crate::parts::Parts;
use crate::value::Value;
use crate::version::Version;
use field61::Fe;

/// A frame, by its fields. Nothing is copied: the fields of bytes are slices of those that were
/// read.
#[derive(Clone, Copy)]
pub struct FrameView<'a> {
    pub(crate) parts: Parts<'a>,
    pub(crate) sealed: &'a [u8],
    ghost is_frame: { ViewsFrame parts sealed.now },
}

impl<'a> FrameView<'a> {
    ghost use Rattle.report_frame.specs.Frame.{sealed_part};
    ghost use Rattle.report_frame.specs.Laws.{InRange};
    ghost use Rattle.report_frame.specs.View.{fields_of, head_of};

    /// Does nothing when it runs. It makes known that each field of a frame is in its range.
    #[tactic(auto, using(crate::proofs::FrameLaws::range_of_entries))]
    pub fn know_ranges(&self)
        ensures { InRange (fields_of self.now) }
    {
        let _parts = self.parts;
    }

    /// The version.
    pub fn version(&self) -> Version
        ensures { result ≡ (fields_of self.now).version }
    {
        self.parts.front.version
    }

    /// The level, from 0.
    pub fn level(&self) -> u8
        ensures { result ≡ (fields_of self.now).level }
    {
        self.parts.front.level
    }

    /// The epoch.
    pub fn epoch(&self) -> u32
        ensures { result ≡ (fields_of self.now).epoch }
    {
        self.parts.front.epoch
    }

    /// The threshold.
    pub fn k(&self) -> u16
        ensures { result ≡ (fields_of self.now).k }
    {
        self.parts.front.k
    }

    /// Where the polynomials were evaluated. It is never 0.
    pub fn x(&self) -> Fe
        ensures value { result ≡ (fields_of self.now).x }
        ensures nonzero { 0 < result }
    {
        Fe::new(self.parts.front.x).unwrap()
    }

    /// The share: the values of the three polynomials at x.
    pub fn y(&self) -> [Fe; 3]
        ensures { let r = fields_of self.now in result ≡ r.y0 ∷ r.y1 ∷ r.y2 ∷ [] }
    {
        let front = &self.parts.front;
        [
            Fe::new(front.y0).unwrap(),
            Fe::new(front.y1).unwrap(),
            Fe::new(front.y2).unwrap(),
        ]
    }

    /// Threshold, tag, commitment and box.
    pub fn head(&self) -> Head
        ensures { result ≡ head_of (fields_of self.now) }
    {
        Head {
            version: self.parts.front.version,
            k: self.parts.front.k,
            tag: *self.parts.front.tag,
            check: *self.parts.front.check,
            boxed: Value::of(self.parts.boxed).unwrap(),
        }
    }

    /// The box, as a slice of the frame.
    pub fn boxed(&self) -> &'a [u8]
        ensures { result.now ≡ (fields_of self.now).boxed }
    {
        self.parts.boxed
    }

    /// The nonce of the body's keystream.
    pub fn nonce(&self) -> [u8; NONCE_BYTES]
        ensures { result ≡ (fields_of self.now).nonce }
    {
        *self.parts.nonce
    }

    /// The body, as a slice of the frame.
    pub fn body(&self) -> &'a [u8]
        ensures { result.now ≡ (fields_of self.now).body }
    {
        self.parts.body
    }

    /// Every byte before the seal, as a slice of the frame.
    pub fn sealed_part(&self) -> &'a [u8]
        ensures { result.now ≡ sealed_part (fields_of self.now) }
    {
        self.sealed
    }

    /// The seal.
    pub fn seal(&self) -> [u8; SEAL_BYTES]
        ensures { result ≡ (fields_of self.now).seal }
    {
        *self.parts.seal
    }
}
