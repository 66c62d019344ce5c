// The report of a client, from its last layer to its first.
ghost use Rattle.std.specs.Prelude.{◌≡◌, ◌≤◌, ◌+◌, ◌*◌, ℕ, ◌<◌, [], length, replicate, slice_index, IfOk};
ghost use Rattle.report_frame.specs.declared.limits.TheConstants.{MIN_THRESHOLD};
ghost use Rattle.report_frame.specs.declared.version.Version.TheVariants.{One, Two};
ghost use Rattle.report_frame.specs.Frame.{IsFrame};
ghost use Rattle.report_frame.specs.Thresholds.{AreThresholds};
ghost use Rattle.report_frame.specs.Versions.{max_layers, max_threshold, max_frame};
ghost use Rattle.nest_client.specs.declared.limits.TheConstants.{LAYER_BYTES, MAX_REPORT_ONE, MAX_REPORT_TWO};
ghost use Rattle.nest_client.specs.Place.{report_bytes};
ghost use Rattle.nest_client.specs.Report.{plain_body, client_of, report, report2, report_from, report_shifted, report_with};

use crate::client::Client;
use crate::layer::{body_start, write_layer};
use crate::limits::report_bytes;
use crate::reporter::Reporter;
use adss_commit::{Context, derive};
use field61::Fe;
use report_frame::{CHECK_BYTES, Extra, SEAL_BYTES, Value, Version};
use star_io::NoMemory;
use std::alloc::Global;

/// The first byte of the plain body of the last layer.
const LAST_LAYER: u8 = 0;

/// The first byte of a plain body that holds the frame of the next layer.
const NEXT_LAYER: u8 = 1;

/// The frame of the report of the values in version 1, one layer for each. It has at most 1,616
/// bytes.
///
/// The seed makes the coins of all clients; `client` is the number of this one. A seed and a number
/// make one report: another one wants another seed or number.
pub fn build(
    alloc: Global,
    values: &[Value],
    thresholds: &[u16],
    epoch: u32,
    seed: &[u8; 32],
    client: u32,
) -> Result<Vec<u8>, NoMemory>
    requires thresholds { AreThresholds One thresholds.now }
    requires width { length values.now ≡ length thresholds.now }
    ensures frame { IfOk result (λ v.
        IsFrame (report (client_of One epoch seed.now client) values.now thresholds.now) v.items) }
    ensures short { IfOk result (λ v. length v.items ≤ LAYER_BYTES * length values.now) }
    ensures most { IfOk result (λ v. length v.items ≤ MAX_REPORT_ONE) }
{
    build_shifted(alloc, values, thresholds, epoch, seed, client, Fe::ZERO)
}

/// As [`build`], with the first number of the share in layer 0 raised by the shift, and the seal
/// made over that: a report that is good by itself, and whose share is wrong if the shift isn't 0.
pub fn build_shifted(
    alloc: Global,
    values: &[Value],
    thresholds: &[u16],
    epoch: u32,
    seed: &[u8; 32],
    client: u32,
    shift: Fe,
) -> Result<Vec<u8>, NoMemory>
    requires thresholds { AreThresholds One thresholds.now }
    requires width { length values.now ≡ length thresholds.now }
    ensures frame { IfOk result (λ v.
        IsFrame (report_shifted (client_of One epoch seed.now client) shift values.now
        thresholds.now) v.items) }
    ensures short { IfOk result (λ v. length v.items ≤ LAYER_BYTES * length values.now) }
    ensures most { IfOk result (λ v. length v.items ≤ MAX_REPORT_ONE) }
{
    let sender = Client {
        version: Version::One,
        epoch,
        seed: *seed,
        number: client,
    };
    let none = Extra::default();
    made(alloc, sender, values, thresholds, &none, shift)
}

/// As [`build`], in version 2, with these extra bytes in the last layer. It has at most 3,487
/// bytes.
pub fn build2(
    alloc: Global,
    values: &[Value],
    thresholds: &[u16],
    epoch: u32,
    extra: &Extra,
    seed: &[u8; 32],
    client: u32,
) -> Result<Vec<u8>, NoMemory>
    requires thresholds { AreThresholds Two thresholds.now }
    requires width { length values.now ≡ length thresholds.now }
    ensures frame { IfOk result (λ v.
        IsFrame (report2 (client_of Two epoch seed.now client) extra.now values.now thresholds.now)
        v.items) }
    ensures short { IfOk result (λ v. length v.items
        ≤ LAYER_BYTES * length values.now + length extra.now) }
    ensures most { IfOk result (λ v. length v.items ≤ MAX_REPORT_TWO) }
{
    // This makes known how many extra bytes there may be.
    let _extra = extra.as_slice();
    let sender = Client {
        version: Version::Two,
        epoch,
        seed: *seed,
        number: client,
    };
    made(alloc, sender, values, thresholds, extra, Fe::ZERO)
}

/// Writes the report of a client in place, without allocating memory: the frame of layer 0, with the
/// extra bytes in the last layer. Those are for version 2.
pub fn write_report(
    frame: &mut [u8],
    client: Client,
    values: &[Value],
    thresholds: &[u16],
    extra: &Extra,
)
    requires thresholds { AreThresholds client.version thresholds.now }
    requires width { length values.now ≡ length thresholds.now }
    requires extra { client.version ≡ One → extra.now ≡ [] }
    requires long { length frame.old ≡ report_bytes values.now extra.now }
    ensures { IsFrame (report_with client extra.now values.now thresholds.now) frame.new }
{
    write_shifted(frame, client, values, thresholds, extra, Fe::ZERO);
}

// The report in memory of its own.
fn made(
    alloc: Global,
    client: Client,
    values: &[Value],
    thresholds: &[u16],
    extra: &Extra,
    shift: Fe,
) -> Result<Vec<u8>, NoMemory>
    requires thresholds { AreThresholds client.version thresholds.now }
    requires width { length values.now ≡ length thresholds.now }
    ensures frame { IfOk result (λ v.
        IsFrame (report_from client extra.now 0 (replicate 32 0) shift values.now thresholds.now)
        v.items) }
    ensures short { IfOk result (λ v. length v.items
        ≤ LAYER_BYTES * length values.now + length extra.now) }
{
    let mut frame = vec![in alloc; 0u8; report_bytes(values, extra)]?;
    write_shifted(&mut frame, client, values, thresholds, extra, shift);
    Ok(frame)
}

// Writes the report, with the first number of the share in layer 0 raised by the shift.
fn write_shifted(
    frame: &mut [u8],
    client: Client,
    values: &[Value],
    thresholds: &[u16],
    extra: &Extra,
    shift: Fe,
)
    requires thresholds { AreThresholds client.version thresholds.now }
    requires width { length values.now ≡ length thresholds.now }
    requires long { length frame.old ≡ report_bytes values.now extra.now }
    ensures { IsFrame (report_from client extra.now 0 (replicate 32 0) shift values.now
        thresholds.now) frame.new }
{
    // This makes known how long the frame is at most.
    let _bytes = report_bytes(values, extra);
    let reporter = Reporter::of(client, values.len(), extra.copy());
    let first_parent = [0; CHECK_BYTES];
    write_frame(
        frame,
        &reporter,
        0,
        &first_parent,
        shift,
        values,
        thresholds,
    );
}

// Writes the frame of the layers of these values, the first of which has this level and this
// parent. The first number of that layer's share is raised by the shift.
#[cycle(layers)]
fn write_frame(
    frame: &mut [u8],
    reporter: &Reporter,
    level: u8,
    parent: &[u8; CHECK_BYTES],
    shift: Fe,
    values: &[Value],
    thresholds: &[u16],
)
    requires some { 1 ≤ length values.now }
    requires deep { level + length values.now ≤ reporter.now.layers }
    requires width { length values.now ≡ length thresholds.now }
    requires low { (i : ℕ) → i < length thresholds.now →
        MIN_THRESHOLD ≤ slice_index thresholds.now i }
    requires high { (i : ℕ) → i < length thresholds.now →
        slice_index thresholds.now i ≤ max_threshold reporter.now.client.version }
    requires long { length frame.old ≡ report_bytes values.now reporter.now.extra }
    requires short { length frame.old ≤ max_frame reporter.now.client.version }
    ensures { IsFrame (report_from reporter.now.client reporter.now.extra level parent.now shift
        values.now thresholds.now) frame.new }
{
    let context = Context {
        version: reporter.client.version,
        parent: *parent,
        epoch: reporter.client.epoch,
        level,
        k: thresholds[0],
        value: values[0].copy(),
    };
    let derivation = derive(&context);
    let start = body_start(&context.value);
    let end = frame.len() - SEAL_BYTES;
    write_plain_body(
        &mut frame[start..end],
        reporter,
        level + 1,
        &derivation.check,
        &values[1..],
        &thresholds[1..],
    );
    write_layer(frame, reporter, shift, &context, &derivation);
}

// Writes the plain body before the layers of these values.
#[cycle(layers)]
fn write_plain_body(
    body: &mut [u8],
    reporter: &Reporter,
    level: u8,
    parent: &[u8; CHECK_BYTES],
    values: &[Value],
    thresholds: &[u16],
)
    requires deep { level + length values.now ≤ reporter.now.layers }
    requires width { length values.now ≡ length thresholds.now }
    requires low { (i : ℕ) → i < length thresholds.now →
        MIN_THRESHOLD ≤ slice_index thresholds.now i }
    requires high { (i : ℕ) → i < length thresholds.now →
        slice_index thresholds.now i ≤ max_threshold reporter.now.client.version }
    requires long { length body.old ≡ 1 + report_bytes values.now reporter.now.extra }
    requires short { length body.old ≤ max_frame reporter.now.client.version }
    ensures { body.new ≡ plain_body reporter.now.client reporter.now.extra level parent.now
        values.now thresholds.now }
{
    if values.is_empty() {
        body[0] = LAST_LAYER;
        body[1..].copy_from_slice(reporter.extra.as_slice());
        return;
    }
    body[0] = NEXT_LAYER;
    let next = &mut body[1..];
    write_frame(next, reporter, level, parent, Fe::ZERO, values, thresholds);
}
