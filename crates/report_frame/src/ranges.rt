// What the types of a report's fields say of their values. These functions do nothing when they
// run: their clauses make known what a caller of `encode` need not state.
ghost use Rattle.std.specs.Prelude.{◌≡◌, ◌≤◌, ◌<◌, length, slice_index};
ghost use Rattle.report_frame.specs.Laws.{InRange};
ghost use Rattle.report_frame.specs.Report.{IsGood, fields_of_report};

use crate::limits::{CHECK_BYTES, MAX_VALUE, NONCE_BYTES, SEAL_BYTES, TAG_BYTES};
use crate::report::Report;
use field61::{Fe, MODULUS};

/// Says that each field of a good report is in its range, most of them by their types.
pub(crate) fn know_ranges(report: &Report)
    requires { IsGood report.now }
    ensures { InRange (fields_of_report report.now) }
{
    let _epoch = report.epoch;
    let _x = report.x.value();
    know_share(&report.y);
    know_bytes(report);
}

fn know_share(share: &[Fe; 3])
    ensures first { slice_index share.now 0 < MODULUS }
    ensures second { slice_index share.now 1 < MODULUS }
    ensures third { slice_index share.now 2 < MODULUS }
{
    let [first, second, third] = *share;
    let _values = (first.value(), second.value(), third.value());
}

fn know_bytes(report: &Report)
    ensures tag { length report.now.head.tag ≡ TAG_BYTES }
    ensures check { length report.now.head.check ≡ CHECK_BYTES }
    ensures box_low { 1 ≤ length report.now.head.boxed }
    ensures box_high { length report.now.head.boxed ≤ MAX_VALUE }
    ensures nonce { length report.now.nonce ≡ NONCE_BYTES }
    ensures seal { length report.now.seal ≡ SEAL_BYTES }
{
    let _boxed = report.head.boxed.as_slice();
    know_length(&report.head.tag);
    know_length(&report.head.check);
    know_length(&report.nonce);
    know_length(&report.seal);
}

fn know_length<const N: usize>(bytes: &[u8; N])
    ensures { length bytes.now ≡ N }
{
    let _bytes = bytes;
}
