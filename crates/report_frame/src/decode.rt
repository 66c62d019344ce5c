// Bytes as a frame, or their fault.
ghost use Rattle.std.specs.Prelude.{◌≡◌, ℕ, IfOk, IsOkAnd, IfErr, IsErrOf};
ghost use Rattle.report_frame.specs.declared.fault.FaultKind.{FaultKind};
ghost use Rattle.report_frame.specs.Frame.{Fields, IsFrame, FaultAt};
ghost use Rattle.byte_format.specs.Reading.{Gives};
ghost use Rattle.report_frame.specs.Reading.{decoded, passed_limit};
ghost use Rattle.report_frame.specs.View.{fields_of};

use crate::fault::{Fault, FaultKind};
use crate::frame::read_frame;
use crate::limits::{MAX_FRAME_ONE, MAX_FRAME_TWO, SEAL_BYTES};
use crate::view::FrameView;

// The magic and the number of version 1.
const FRONT_OF_ONE: [u8; 3] = *b"ST\x01";

/// The frame that the bytes are, or the one fault where they are none. The view borrows the bytes,
/// and no memory is taken.
pub fn decode_view(bytes: &[u8]) -> Result<FrameView<'_>, Fault>
    ensures decoded { Gives fields_of result (decoded bytes.now) }

    // Ok comes exactly where the bytes are a frame, with its report.
    ensures found { IfOk result (λ v. IsFrame (fields_of v) bytes.now) }
    ensures only { (r : Fields) → IsFrame r bytes.now → IsOkAnd result (λ v. fields_of v ≡ r) }

    // Else it is the one fault of these bytes.
    ensures fault { IfErr result (λ f. FaultAt bytes.now f.kind f.at) }
    ensures one { (kind : FaultKind) (at : ℕ) → FaultAt bytes.now kind at →
        IsErrOf result (record { kind = kind; at = at }) }
{
    if let Some(at) = passed_limit(bytes) {
        return Err(Fault {
            kind: FaultKind::TooLong,
            at,
        });
    }
    let parts = match read_frame(bytes) {
        Ok(parts) => parts,
        Err(misread) => return Err(misread.fault()),
    };
    let (sealed, _) = bytes.split_at(bytes.len() - SEAL_BYTES);
    Ok(FrameView { parts, sealed })
}

// The limit that the bytes pass, where they are too long for a frame: a frame of version 1 has a
// lower one.
fn passed_limit(bytes: &[u8]) -> Option<u32>
    ensures { result ≡ passed_limit bytes.now }
{
    if bytes.len() > MAX_FRAME_TWO {
        Some(MAX_FRAME_TWO as u32)
    } else if bytes.len() > MAX_FRAME_ONE && bytes.starts_with(&FRONT_OF_ONE) {
        Some(MAX_FRAME_ONE as u32)
    } else {
        None
    }
}
