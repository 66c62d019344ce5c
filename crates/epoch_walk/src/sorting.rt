// The epoch of a record.
ghost use Rattle.std.specs.Prelude.{◌≡◌};
ghost use Rattle.report_frame.specs.Reading.{decoded};
ghost use Rattle.epoch_walk.specs.Parts.{epoch_of, epoch_of_frame};

use layer_walk::Why;
use report_frame::{FaultKind, decode_view};
use star_io::Record;

/// The epoch of the frame of level 0 that the record is, or why it is a stray. Nothing is copied.
pub(crate) fn epoch_of(item: &Record) -> Result<u32, Why>
    ensures { result ≡ epoch_of item.now }
{
    match item {
        Record::Whole(bytes) => epoch_of_bytes(bytes.as_slice()),
        Record::TooLong { .. } => Err(Why::Frame(FaultKind::TooLong)),
        Record::CutLength { .. } => Err(Why::CutLength),
        Record::CutRecord { .. } => Err(Why::CutRecord),
    }
}

fn epoch_of_bytes(bytes: &[u8]) -> Result<u32, Why>
    ensures { result ≡ epoch_of_frame (decoded bytes.now) }
{
    match decode_view(bytes) {
        Err(fault) => Err(Why::Frame(fault.kind)),
        Ok(frame) => {
            if frame.level() != 0 {
                return Err(Why::WrongLevel);
            }
            Ok(frame.epoch())
        }
    }
}
