//! The client for callers in C, and for all that can call C: it makes a report in a caller's
//! buffer, and takes no memory. bindings/c/star_client.h says what a caller must see to.
#![tactic(auto)]

ghost use Rattle.std.specs.Prelude.{◌≡◌, ◌≢◌, ◌↔◌, ◌≤◌, take, drop, length, IsSome, IfSome};
ghost use Rattle.star_client_c.specs.Request.{request, report_length, most_bytes, IsFault, IsGood, IsMakingFault, IsReport};
ghost use Rattle.star_client_c.specs.declared.status.TheConstants.{DONE};

pub mod laws;
mod request;
mod row;
mod status;

use crate::request::content_of;
use crate::status::{BAD_SEED, DONE, SMALL_BUFFER};
use nest_client::{Client, report_bytes, write_report};

/// Writes the report of a client into the front of `out`, and its length into `written`. Returns
/// `DONE`, or the first fault in the order of the numbers; after a fault nothing is written.
///
/// `cells` has for each value one byte with its length, and then its bytes; `thresholds` has one
/// number for each value.
#[unsafe(no_mangle)]
pub extern "C" fn star_client_report(
    version: u32,
    cells: &[u8],
    thresholds: &[u16],
    extra: &[u8],
    epoch: u32,
    seed: &[u8],
    client: u32,
    out: &mut [u8],
    written: &mut usize,
) -> u32
    ensures made { result ≡ DONE →
        IsReport (request version cells.now thresholds.now extra.now) epoch seed.now client
        (take written.new out.new) }
    ensures length { result ≡ DONE →
        written.new ≡ report_length (request version cells.now thresholds.now extra.now) }
    ensures most { result ≡ DONE → written.new ≤ most_bytes version }
    ensures rest { result ≡ DONE → drop written.new out.new ≡ drop written.new out.old }
    ensures good { result ≡ DONE → IsGood (request version cells.now thresholds.now extra.now)
        × (length seed.now ≡ 32) × (written.new ≤ length out.old) }
    ensures fault { result ≢ DONE →
        IsMakingFault result (request version cells.now thresholds.now extra.now) seed.now
        (length out.old) }
    ensures kept { result ≢ DONE → out.new ≡ out.old }
    ensures kept_length { result ≢ DONE → written.new ≡ written.old }
{
    let content = match content_of(version, cells, thresholds, extra) {
        Ok(content) => content,
        Err(status) => return status,
    };
    let Some(seed) = seed_of(seed) else {
        return BAD_SEED;
    };
    let n = report_bytes(content.row.as_slice(), &content.extra);
    if out.len() < n {
        return SMALL_BUFFER;
    }
    let client = Client {
        version: content.version,
        epoch,
        seed,
        number: client,
    };
    let values = content.row.as_slice();
    write_report(&mut out[..n], client, values, thresholds, &content.extra);
    *written = n;
    DONE
}

/// Writes the length of the report that `star_client_report` makes from the same arguments into
/// `written`. Returns `DONE`, or the first fault in the order of the numbers; after a fault nothing
/// is written.
#[unsafe(no_mangle)]
pub extern "C" fn star_client_length(
    version: u32,
    cells: &[u8],
    thresholds: &[u16],
    extra: &[u8],
    written: &mut usize,
) -> u32
    ensures good { result ≡ DONE → IsGood (request version cells.now thresholds.now extra.now) }
    ensures length { result ≡ DONE →
        written.new ≡ report_length (request version cells.now thresholds.now extra.now) }
    ensures most { result ≡ DONE → written.new ≤ most_bytes version }
    ensures fault { result ≢ DONE →
        IsFault result (request version cells.now thresholds.now extra.now) }
    ensures kept { result ≢ DONE → written.new ≡ written.old }
{
    match content_of(version, cells, thresholds, extra) {
        Ok(content) => {
            *written = report_bytes(content.row.as_slice(), &content.extra);
            DONE
        }
        Err(status) => status,
    }
}

// The bytes of a seed, if there are 32.
fn seed_of(bytes: &[u8]) -> Option<[u8; 32]>
    ensures found { IsSome result ↔ length bytes.now ≡ 32 }
    ensures seed { IfSome result (λ seed. seed ≡ bytes.now) }
{
    if bytes.len() != 32 {
        return None;
    }
    let mut seed = [0u8; 32];
    seed.copy_from_slice(bytes);
    Some(seed)
}

#[cfg(test)]
mod tests;
