// Records as rows of level 0.
ghost use Rattle.std.specs.Prelude.{◌≡◌, Ok, Err, IfOk, IfErr};
ghost use Rattle.report_frame.specs.Reading.{decoded};
ghost use Rattle.report_frame.specs.View.{head_of};
ghost use Rattle.tag_groups.specs.RowView.{report_in, IsRead};
ghost use Rattle.layer_walk.specs.Members.{frame_for};
ghost use Rattle.layer_walk.specs.Outer.{first_row};
ghost use Rattle.layer_walk.specs.Reveal.{first_frame};

use crate::refusal::Why;
use report_frame::{FaultKind, Head, decode_view};
use star_io::{Bytes, NoMemory, Record};
use std::alloc::Global;
use tag_groups::HeadedRow;

/// The row of level 0 that the record of this number is, or why it is refused. Nothing is copied.
pub(crate) fn first_row(index: u32, item: Record, epoch: u32) -> Result<HeadedRow, Why>
    ensures { result ≡ first_row index (first_frame epoch item) }
{
    match item {
        Record::Whole(bytes) => whole_row(index, bytes, epoch),
        Record::TooLong { .. } => Err(Why::Frame(FaultKind::TooLong)),
        Record::CutLength { .. } => Err(Why::CutLength),
        Record::CutRecord { .. } => Err(Why::CutRecord),
    }
}

fn whole_row(index: u32, bytes: Bytes, epoch: u32) -> Result<HeadedRow, Why>
    ensures { result ≡ first_row index (frame_for epoch 0 (decoded bytes)) }
{
    match head_in(bytes.as_slice(), epoch) {
        Ok(head) => Ok(HeadedRow::new(index, 0, bytes, head)),
        Err(why) => Err(why),
    }
}

// The head of the frame of this epoch and level 0 that the bytes are, or why they are none.
fn head_in(bytes: &[u8], epoch: u32) -> Result<Head, Why>
    ensures refused { IfErr result (λ why. frame_for epoch 0 (decoded bytes.now) ≡ Err why) }
    ensures frame { IfOk result (λ _. frame_for epoch 0 (decoded bytes.now)
        ≡ Ok (report_in bytes.now)) }
    ensures read { IfOk result (λ _. IsRead bytes.now) }
    ensures head { IfOk result (λ head. head ≡ head_of (report_in bytes.now)) }
{
    match decode_view(bytes) {
        Err(fault) => Err(Why::Frame(fault.kind)),
        Ok(frame) => {
            if frame.epoch() != epoch {
                return Err(Why::WrongEpoch);
            }
            if frame.level() != 0 {
                return Err(Why::WrongLevel);
            }
            Ok(frame.head())
        }
    }
}

/// A copy of the record.
pub(crate) fn copy_record(alloc: Global, item: &Record) -> Result<Record, NoMemory>
    ensures { IfOk result (λ copy. copy ≡ item.now) }
{
    Ok(match item {
        Record::Whole(bytes) => Record::Whole(Bytes::of(alloc, bytes.as_slice())?),
        Record::TooLong { said } => Record::TooLong { said: *said },
        Record::CutLength { have } => Record::CutLength { have: *have },
        Record::CutRecord { said, have } => Record::CutRecord {
            said: *said,
            have: *have,
        },
    })
}
