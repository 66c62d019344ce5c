// The text of `check`.
ghost use Rattle.std.specs.Prelude.{◌≡◌, ◌≤◌, ◌<◌, ◌+◌, ◌-◌, ◌^◌, ◌++◌, ◌∷◌, [], List, length, map, IfOk, OnOk, string_bytes};
ghost use Rattle.std.specs.Fmt.{decimal};
ghost use Rattle.report_frame.specs.View.{fields_of};
ghost use Rattle.star_io.specs.declared.record.Record.{Record};
ghost use Rattle.star_io.specs.declared.record.TheConstants.{MAX_RECORDS};
ghost use Rattle.star_tool.specs.CheckText.{Finding, HasLines, WritesLine, finding_of, check_text_of, line, version_text, good_head, good_tail, count_line};
ghost use Rattle.star_tool.specs.CheckText.Finding.{Good, Refused};
ghost use Rattle.star_io.specs.declared.record.Record.TheVariants.{Whole};

use report_frame::{FrameView, Version, decode_view};
use star_io::{MAX_RECORD_BYTES, NoMemory, Record, RecordTaker};
use std::alloc::{AllocError, Global};
use std::fmt::Write;

/// The lines of `check`: one for each record, in order, and a last one that counts them.
pub fn check_text(alloc: Global, records: &[Record]) -> Result<Vec<u8>, NoMemory>
    requires { length records.now ≤ MAX_RECORDS }
    ensures { IfOk result (λ text. text.items ≡ check_text_of records.now) }
{
    let mut lines = CheckLines::new(alloc);
    for entry in records {
        lines.put(entry)?;
    }
    lines.finish()
}

/// The lines of the records that were taken, and how many of these are frames and how many not.
#[derive(Drop)]
pub(crate) struct CheckLines {
    text: String,
    good: u32,
    refused: u32,
}

impl CheckLines {
    /// No line yet. It takes no memory.
    pub(crate) fn new(alloc: Global) -> CheckLines
        ensures number { result.good + result.refused ≡ 0 }
        ensures lines { HasLines [] result.good result.refused (string_bytes result.text) }
    {
        CheckLines {
            text: String::new(alloc),
            good: 0,
            refused: 0,
        }
    }

    /// Writes the line of the next record.
    fn put(&mut self, entry: &Record) -> Result<(), NoMemory>
        requires { self.old.good + self.old.refused < 2 ^ 32 - 1 }
        ensures number { OnOk result (self.new.good + self.new.refused
            ≡ self.old.good + self.old.refused + 1) }
        ensures lines { OnOk result ((findings : List Finding) →
            HasLines findings self.old.good self.old.refused (string_bytes self.old.text) →
            HasLines (findings ++ finding_of entry.now ∷ []) self.new.good self.new.refused
            (string_bytes self.new.text)) }
    {
        let number = self.good + self.refused;
        let is_good = push_line(&mut self.text, number, entry)?;
        self.good += u32::from(is_good);
        self.refused += u32::from(!is_good);
        Ok(())
    }

    /// The lines, and behind them the one that counts them.
    pub(crate) fn finish(self) -> Result<Vec<u8>, NoMemory>
        requires { self.good + self.refused < 2 ^ 32 }
        ensures { (records : List Record) →
            HasLines (map finding_of records) self.good self.refused (string_bytes self.text) →
            IfOk result (λ text. text.items ≡ check_text_of records) }
    {
        let CheckLines {
            mut text,
            good,
            refused,
        } = self;
        push_count_line(&mut text, good + refused, good, refused)?;
        Ok(text.into_bytes())
    }
}

impl RecordTaker for CheckLines {
    ghost use Rattle.std.specs.Prelude.{◌+◌, ◌-◌, ◌^◌, map, string_bytes};
    ghost use Rattle.star_tool.specs.CheckText.{HasLines, finding_of};

    ghost most = { 2 ^ 32 - 1 };

    ghost taken = { λ t. t.good + t.refused };

    ghost stands = { λ t _ records.
        HasLines (map finding_of records) t.good t.refused (string_bytes t.text) };

    fn take_next(&mut self, item: Record) -> Result<(), NoMemory> {
        self.put(&item)
    }
}

// Writes the line of a record, and says whether it is a frame.
fn push_line(text: &mut String, number: u32, entry: &Record) -> Result<bool, AllocError>
    ensures { IfOk result (λ good.
        WritesLine number (finding_of entry.now) good (string_bytes text.old)
        (string_bytes text.new)) }
{
    match entry {
        Record::Whole(bytes) => push_whole(text, number, bytes.as_slice()),
        Record::TooLong { .. } => {
            push_refused(text, number, "TooLong", MAX_RECORD_BYTES)?;
            Ok(false)
        }
        Record::CutLength { have } => {
            push_refused(text, number, "CutLength", *have)?;
            Ok(false)
        }
        Record::CutRecord { have, .. } => {
            push_refused(text, number, "CutRecord", *have)?;
            Ok(false)
        }
    }
}

fn push_whole(text: &mut String, number: u32, bytes: &[u8]) -> Result<bool, AllocError>
    ensures { IfOk result (λ good.
        WritesLine number (finding_of (Whole bytes.now)) good (string_bytes text.old)
        (string_bytes text.new)) }
{
    match decode_view(bytes) {
        Ok(view) => {
            push_good(text, number, &view)?;
            Ok(true)
        }
        Err(fault) => {
            push_refused(text, number, fault.kind.name(), fault.at)?;
            Ok(false)
        }
    }
}

fn push_refused(text: &mut String, number: u32, name: &str, at: u32) -> Result<(), AllocError>
    ensures { OnOk result (string_bytes text.new
        ≡ string_bytes text.old ++ line number (Refused name.now at)) }
{
    write!(text, "{number} refused {name} {at}\n")
}

fn push_good(text: &mut String, number: u32, view: &FrameView<'_>) -> Result<(), AllocError>
    ensures { OnOk result (string_bytes text.new
        ≡ string_bytes text.old ++ line number (Good (fields_of view.now))) }
{
    push_good_head(text, number, view.version(), view.level(), view.epoch())?;
    push_good_tail(text, view.k(), view.boxed().len(), view.body().len())?;
    Ok(())
}

fn push_good_head(
    text: &mut String,
    number: u32,
    version: Version,
    level: u8,
    epoch: u32,
) -> Result<(), AllocError>
    ensures { OnOk result (string_bytes text.new
        ≡ string_bytes text.old ++ good_head number version level epoch) }
{
    write!(text, "{number} good")?;
    push_version(text, version)?;
    push_number(text, " level=", u64::from(level))?;
    push_number(text, " epoch=", u64::from(epoch))?;
    Ok(())
}

// Names a version that isn't the first.
fn push_version(text: &mut String, version: Version) -> Result<(), AllocError>
    ensures { OnOk result (string_bytes text.new ≡ string_bytes text.old ++ version_text version) }
{
    match version {
        Version::One => Ok(()),
        Version::Two => text.push_str(" version=2"),
    }
}

fn push_good_tail(text: &mut String, k: u16, boxed: usize, body: usize) -> Result<(), AllocError>
    ensures { OnOk result (string_bytes text.new
        ≡ string_bytes text.old ++ good_tail k boxed body) }
{
    push_number(text, " k=", u64::from(k))?;
    push_number(text, " box=", boxed as u64)?;
    push_number(text, " body=", body as u64)?;
    text.push_str("\n")?;
    Ok(())
}

fn push_count_line(
    text: &mut String,
    number: u32,
    good: u32,
    refused: u32,
) -> Result<(), AllocError>
    ensures { OnOk result (string_bytes text.new
        ≡ string_bytes text.old ++ count_line number good refused) }
{
    push_number(text, "records=", u64::from(number))?;
    push_number(text, " good=", u64::from(good))?;
    push_number(text, " refused=", u64::from(refused))?;
    text.push_str("\n")?;
    Ok(())
}

// Writes a label and a number.
fn push_number(text: &mut String, label: &str, n: u64) -> Result<(), AllocError>
    ensures { OnOk result (string_bytes text.new
        ≡ string_bytes text.old ++ (label.now ++ decimal n)) }
{
    write!(text, "{label}{n}")
}
