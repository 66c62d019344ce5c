// The counts of frames.
ghost use Rattle.std.specs.Prelude.{◌≡◌, ◌<◌, ◌≤◌, ◌+◌, ◌^◌, List, [], ◌∷◌, All, sum, OnOk, OnErr};
ghost use Rattle.std.specs.List.Sorted.{IsStrictlySortedBy};
ghost use Rattle.std.specs.Map.{keys_of, values_of};
ghost use Rattle.book_file.specs.Book.{Entry, is_outer_frame, by_bytes};
ghost use Rattle.book_file.specs.BookOf.{entries_sum};

use crate::frame_bytes::FrameBytes;
use report_frame::decode_view;
use star_io::NoMemory;
use std::alloc::Global;
use std::collections::BTreeMap;

/// Whether the bytes are a good frame of the epoch and of level 0.
pub(crate) fn is_outer_frame(bytes: &[u8], epoch: u32) -> bool
    ensures { result ≡ is_outer_frame epoch bytes.now }
{
    match decode_view(bytes) {
        Ok(frame) => frame.epoch() == epoch && frame.level() == 0,
        Err(_) => false,
    }
}

/// Counts so many more of a frame. After `NoMemory` all is as before.
pub(crate) fn count_more(
    alloc: Global,
    entries: &mut BTreeMap<FrameBytes, u32>,
    frame: &[u8],
    count: u32,
) -> Result<(), NoMemory>
    requires { sum (values_of entries.old.entries) + count < 2 ^ 32 }
    ensures counted { OnOk result (entries.new.entries
        ≡ entries_sum entries.old.entries ((frame.now, count) ∷ [])) }
    ensures total { OnOk result (sum (values_of entries.new.entries)
        ≡ sum (values_of entries.old.entries) + count) }
    ensures kept { OnErr result (entries.new.entries ≡ entries.old.entries) }
{
    let frame = FrameBytes::of(alloc, frame)?;
    let before = entries.get(&frame).copied().unwrap_or(0);
    entries.insert(frame, before + count)?;
    Ok(())
}

/// Counts so many fewer of a frame, which goes where none is left. It takes back what `count_more`
/// did.
pub(crate) fn count_fewer(entries: &mut BTreeMap<FrameBytes, u32>, frame: &FrameBytes, count: u32)
    ensures { (before : List Entry) → IsStrictlySortedBy by_bytes (keys_of before) →
        All (λ n. 1 ≤ n) (values_of before) →
        entries.old.entries ≡ entries_sum before ((frame.now, count) ∷ []) →
        entries.new.entries ≡ before }
{
    let have = entries.get(frame).copied().unwrap_or(0);
    if have == count {
        entries.remove(frame);
    } else if let Some(left) = entries.get_mut(frame) {
        *left = have.saturating_sub(count);
    }
}
