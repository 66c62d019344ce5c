// Streams for trials.
ghost use Rattle.std.specs.Prelude.{◌≡◌, ◌≤◌, ◌<◌, ◌+◌, ◌++◌, ℕ, length, slice_index, IfOk};
ghost use Rattle.std.specs.Int.{w32, to_be_bytes};
ghost use Rattle.sha2.specs.Sha256.{sha256};
ghost use Rattle.star_io.specs.RecordLists.{stream_of};
ghost use Rattle.star_io.specs.Records.{AreRecords};
ghost use Rattle.star_io.specs.declared.record.TheConstants.{MAX_RECORD_BYTES};
ghost use Rattle.nest_client.specs.declared.limits.TheConstants.{MAX_REPORTS};
ghost use Rattle.nest_client.specs.Generator.{drawn, lettered, drawn_frame, drawn_frames, drawn_records};

use crate::client::client_nonce;
use crate::reports::build_shifted;
use crate::stream::push_record;
use byteorder::{BigEndian, ByteOrder};
use chacha_stream::xor_stream;
use field61::Fe;
use report_frame::Value;
use sha2::{Digest, Sha256};
use star_io::NoMemory;
use std::alloc::Global;

/// A stream for trials, which two numbers determine: reports of two layers with thresholds 20 and
/// 10.
///
/// `liars` is how many in a hundred have a wrong share in layer 0.
pub fn gen_text(alloc: Global, number: u32, reports: u32, liars: u32) -> Result<Vec<u8>, NoMemory>
    requires some { 1 ≤ reports }
    requires few { reports ≤ MAX_REPORTS }
    requires part { liars ≤ 100 }
    ensures stream { IfOk result (λ v. v.items ≡ stream_of (drawn_frames number reports liars)) }
    ensures records { IfOk result (λ v. AreRecords (drawn_records number reports liars) v.items) }
{
    let mut text = Vec::new(alloc);
    'reports: for i in 0..reports {
        let report = drawn_frame(alloc, number, liars, i)?;
        push_record(&mut text, &report)?;
    }
    Ok(text)
}

// The frame of client i.
fn drawn_frame(alloc: Global, number: u32, liars: u32, i: u32) -> Result<Vec<u8>, NoMemory>
    ensures bytes { IfOk result (λ v. v.items ≡ drawn_frame number liars i) }
    ensures short { IfOk result (λ v. length v.items ≤ MAX_RECORD_BYTES) }
{
    let seed = labelled(b"STARGENB", number);
    let draws = draws_of(number, i);
    let values = [
        lettered(b'c', (draws[0] % 20).min(draws[1] % 20) as u8),
        lettered(b't', (draws[2] % 10) as u8),
    ];
    let shift = if draws[3] % 100 < u64::from(liars) {
        Fe::ONE
    } else {
        Fe::ZERO
    };
    build_shifted(alloc, &values, &[20, 10], 1, &seed, i, shift)
}

// The four numbers that are drawn for client i.
fn draws_of(number: u32, i: u32) -> [u64; 4]
    ensures { (j : ℕ) → j < 4 → slice_index result j ≡ drawn number i j }
{
    let mut bytes = [0u8; 32];
    xor_stream(
        &labelled(b"STARGENA", number),
        &client_nonce(i),
        0,
        &mut bytes,
    );
    let mut numbers = [0u64; 4];
    BigEndian::read_u64_into(&bytes, &mut numbers);
    numbers
}

// SHA-256 of a label and a number.
fn labelled(label: &[u8; 8], number: u32) -> [u8; 32]
    ensures { result ≡ sha256 (label.now ++ to_be_bytes w32 number) }
{
    let mut hasher = Sha256::new();
    hasher.update(label);
    hasher.update(&number.to_be_bytes());
    hasher.finalize()
}

// A letter, and a number in decimal.
fn lettered(letter: u8, n: u8) -> Value
    requires { n < 100 }
    ensures { result ≡ lettered letter n }
{
    if n < 10 {
        Value::of(&[letter, b'0' + n]).unwrap()
    } else {
        Value::of(&[letter, b'0' + n / 10, b'0' + n % 10]).unwrap()
    }
}
