ghost use Rattle.std.specs.Prelude.{◌≡◌, ◌≤◌, ◌+◌, length, Ok, IfOk, IsOk, IfErr};
ghost use Rattle.report_frame.specs.declared.limits.TheConstants.{FIXED_BYTES};
ghost use Rattle.report_frame.specs.Frame.{Fields, IsFrame, FaultAt};
ghost use Rattle.report_frame.specs.Laws.{InRange};
ghost use Rattle.report_frame.specs.Reading.{decoded};
ghost use Rattle.report_frame.specs.Versions.{max_frame};
ghost use Rattle.report_frame.specs.View.{fields_of, head_of};
ghost use Rattle.tag_groups.specs.RowView.{report_in, IsRead};
ghost use Rattle.tag_groups.specs.Rows.{row_from};

use crate::listed::Listed;
use report_frame::{Fault, FrameView, Head, decode_view};
use star_io::Bytes;
use std::marker::Model;

/// A report of a level: the number of its record, the number of the group of the level before in
/// which it was nested, and its frame.
#[derive(Drop)]
pub struct Row {
    index: u32,
    parent: u32,
    frame: Bytes,
}

impl Model for Row {
    ghost use Rattle.tag_groups.specs.RowView.{RowView, report_in, IsRead};

    ghost Value = { RowView };

    ghost view = { λ r. record { index = r.index; parent = r.parent; report = report_in r.frame } };

    ghost invariant = { λ r. IsRead r.frame };
}

/// Bytes that are no frame, and what is wrong with them.
#[derive(Drop)]
pub struct BadRow {
    pub frame: Bytes,
    pub fault: Fault,
}

impl Row {
    /// A row of these bytes if they are a frame. Otherwise they are returned with their fault.
    pub fn new(index: u32, parent: u32, frame: Bytes) -> Result<Row, BadRow>
        ensures row { result ≡ row_from index parent frame }
        // Ok is returned exactly if the bytes are a frame, and the row has its report.
        ensures frame { IfOk result (λ row. IsFrame row.report frame) }
        ensures decoded { IfOk result (λ row. decoded frame ≡ Ok row.report) }
        ensures only { (r : Fields) → IsFrame r frame → IsOk result }
        // Else it is their one fault.
        ensures fault { IfErr result (λ bad. FaultAt frame bad.fault.kind bad.fault.at) }
    {
        match decode_view(frame.as_slice()).err() {
            Some(fault) => Err(BadRow { frame, fault }),
            None => Ok(Row {
                index,
                parent,
                frame,
            }),
        }
    }

    /// The row of these bytes, which are a frame. They are not read.
    pub fn of_frame(index: u32, parent: u32, frame: Bytes) -> Row
        requires { IsRead frame }
        ensures { result ≡ record { index = index; parent = parent; report = report_in frame } }
    {
        Row {
            index,
            parent,
            frame,
        }
    }

    /// The number of its record.
    pub fn index(&self) -> u32
        ensures { result ≡ self.now.index }
    {
        self.index
    }

    /// The number of the group of the level before in which it was nested, and 0 at level 0.
    pub fn parent(&self) -> u32
        ensures { result ≡ self.now.parent }
    {
        self.parent
    }

    /// The fields of its frame. They are in their ranges.
    pub fn view(&self) -> FrameView<'_>
        ensures report { fields_of result ≡ self.now.report }
        ensures range { InRange self.now.report }
        ensures short { FIXED_BYTES + length self.now.report.boxed + length self.now.report.body
            ≤ max_frame self.now.report.version }
    {
        decode_view(self.frame.as_slice()).unwrap()
    }
}

/// A row whose head was read out of its frame.
#[derive(Drop)]
pub struct HeadedRow {
    pub(crate) row: Row,
    pub(crate) head: Head,
}

impl Model for HeadedRow {
    ghost use Rattle.std.specs.Prelude.{◌≡◌};
    ghost use Rattle.report_frame.specs.View.{head_of};
    ghost use Rattle.tag_groups.specs.RowView.{RowView};
    ghost use Rattle.tag_groups.specs.Keys.{HasThreshold};

    ghost Value = { RowView };

    ghost view = { λ h. h.row };

    ghost invariant = { λ h. (h.head ≡ head_of h.row.report) × HasThreshold h.head };
}

impl HeadedRow {
    /// The row of these bytes, which are a frame with this head. Nothing is read.
    pub fn new(index: u32, parent: u32, frame: Bytes, head: Head) -> HeadedRow
        requires read { IsRead frame }
        requires head { head ≡ head_of (report_in frame) }
        ensures { result ≡ record { index = index; parent = parent; report = report_in frame } }
    {
        HeadedRow {
            row: Row::of_frame(index, parent, frame),
            head,
        }
    }

    /// The row, whose head is read.
    pub fn of(row: Row) -> HeadedRow
        ensures { result ≡ row }
    {
        let head = row.view().head();
        HeadedRow { row, head }
    }

    /// The row alone.
    pub fn into_row(self) -> Row
        ensures { result ≡ self }
    {
        let HeadedRow { row, .. } = self;
        row
    }
}

/// A list of rows.
pub type Rows = Listed<Row>;
