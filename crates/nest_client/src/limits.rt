// The limits of what a client makes.

ghost use Rattle.std.specs.Prelude.{◌≡◌, ◌≤◌, ◌+◌, ◌*◌, length};
ghost use Rattle.report_frame.specs.declared.limits.TheConstants.{FIXED_BYTES, MAX_LAYERS};
ghost use Rattle.nest_client.specs.Place.{report_bytes};
ghost use Rattle.nest_client.specs.declared.limits.TheConstants.{LAYER_BYTES};

use report_frame::{Extra, FIXED_BYTES, MAX_EXTRA, MAX_LAYERS, MAX_LEVEL_ONE, MAX_VALUE, Value};

/// The most bytes that a layer adds to a report: its frame without a body, and the first byte of
/// its body.
pub(crate) const LAYER_BYTES: usize = FIXED_BYTES + MAX_VALUE + 1;

/// The most bytes of a report of version 1.
pub const MAX_REPORT_ONE: usize = LAYER_BYTES * (MAX_LEVEL_ONE as usize + 1);

/// The most bytes of a report of version 2.
pub const MAX_REPORT_TWO: usize = LAYER_BYTES * MAX_LAYERS + MAX_EXTRA;

/// The most reports of a stream that is made here.
pub const MAX_REPORTS: usize = 65_536;

/// The bytes of a report of the values, one layer for each, with these extra bytes in the last.
pub fn report_bytes(values: &[Value], extra: &Extra) -> usize
    requires { length values.now ≤ MAX_LAYERS }
    ensures bytes { result ≡ report_bytes values.now extra.now }
    ensures most { result ≤ LAYER_BYTES * length values.now + length extra.now }
{
    let mut bytes = extra.as_slice().len();
    'layers: for i in 0..values.len() {
        bytes += layer_bytes(&values[i]);
    }
    bytes
}

// The bytes that a layer with this value adds.
fn layer_bytes(value: &Value) -> usize
    ensures bytes { result ≡ FIXED_BYTES + 1 + length value.now }
    ensures most { result ≤ LAYER_BYTES }
{
    FIXED_BYTES + 1 + value.as_slice().len()
}
