// The bytes of a certificate.
ghost use Rattle.std.specs.Prelude.{◌≡◌, ◌++◌, ◌+◌, ◌*◌, length, IfOk, OnOk, Ok};
ghost use Rattle.std.specs.Int.{w8, w64, to_be_bytes};
ghost use Rattle.cert_audit.specs.Certificate.{IsCert, cert_spelling, certificate, behind_threshold, start_entries, head_entries, front_entries, bytes_of_point, point_bytes, number_bytes};
ghost use Rattle.byte_format.specs.Format.{spelling};
ghost use Rattle.cert_audit.specs.Reading.{reading};

use crate::cert::Cert;
use crate::limits::{CERT_FORMAT, CERT_MAGIC};
use crate::ranges::{know_cert, know_point};
use field61::Fe;
use shamir_limbs::Point;
use star_io::NoMemory;
use std::alloc::Global;

/// The bytes of the certificate.
pub fn cert_bytes(alloc: Global, cert: &Cert) -> Result<Vec<u8>, NoMemory>
    requires { IsCert cert.now }
    ensures spelt { IfOk result (λ bytes. bytes.items ≡ cert_spelling cert.now) }
    // What reads it back gives the same certificate.
    ensures read { IfOk result (λ bytes. reading bytes.items
        ≡ Ok (record { cert = cert.now; used = length bytes.items })) }
{
    know_cert(cert);
    let mut bytes = spell_front(alloc, cert)?;
    spell_points(&mut bytes, cert.points.as_slice())?;
    spell_numbers(&mut bytes, cert.numbers.as_slice())?;
    Ok(bytes)
}

// The fields before the points, with room for the whole certificate.
fn spell_front(alloc: Global, cert: &Cert) -> Result<Vec<u8>, NoMemory>
    requires { IsCert cert.now }
    ensures { IfOk result (λ bytes. bytes.items ≡ spelling certificate (front_entries cert.now)) }
{
    let points = cert.points.as_slice().len();
    let numbers = cert.numbers.as_slice().len();
    let boxed = cert.head.boxed.as_slice().len();
    let mut bytes = Vec::with_capacity(alloc, 102 + boxed + 32 * points + 8 * numbers)?;
    spell_start(&mut bytes, cert)?;
    spell_head(&mut bytes, cert)?;
    Ok(bytes)
}

// Puts the fields up to the threshold behind the bytes.
fn spell_start(bytes: &mut Vec<u8>, cert: &Cert) -> Result<(), NoMemory>
    ensures { OnOk result (bytes.new.items
        ≡ bytes.old.items ++ spelling certificate (start_entries cert.now)) }
{
    bytes.extend_from_slice(&CERT_MAGIC.to_be_bytes())?;
    spell_byte(bytes, CERT_FORMAT)?;
    spell_byte(bytes, cert.head.version.number())?;
    spell_byte(bytes, cert.level)?;
    bytes.extend_from_slice(&cert.epoch.to_be_bytes())?;
    bytes.extend_from_slice(&cert.head.k.to_be_bytes())?;
    Ok(())
}

// Puts the fields behind the threshold up to the number of points behind the bytes.
fn spell_head(bytes: &mut Vec<u8>, cert: &Cert) -> Result<(), NoMemory>
    requires { IsCert cert.now }
    ensures { OnOk result (bytes.new.items
        ≡ bytes.old.items ++ spelling (behind_threshold cert.now.head.k) (head_entries cert.now)) }
{
    let boxed = cert.head.boxed.as_slice();
    let points = cert.points.as_slice().len() as u32;
    bytes.extend_from_slice(&cert.parent)?;
    bytes.extend_from_slice(&cert.head.tag)?;
    bytes.extend_from_slice(&cert.head.check)?;
    bytes.push(boxed.len() as u8)?;
    bytes.extend_from_slice(boxed)?;
    bytes.extend_from_slice(&points.to_be_bytes())?;
    Ok(())
}

// Puts the points behind the bytes.
fn spell_points(bytes: &mut Vec<u8>, points: &[Point]) -> Result<(), NoMemory>
    ensures { OnOk result (bytes.new.items ≡ bytes.old.items ++ point_bytes points.now) }
{
    for point in points {
        spell_point(bytes, point)?;
    }
    Ok(())
}

fn spell_point(bytes: &mut Vec<u8>, point: &Point) -> Result<(), NoMemory>
    ensures { OnOk result (bytes.new.items ≡ bytes.old.items ++ bytes_of_point point.now) }
{
    know_point(point);
    let [y0, y1, y2] = point.y;
    spell_number(bytes, point.x)?;
    spell_number(bytes, y0)?;
    spell_number(bytes, y1)?;
    spell_number(bytes, y2)?;
    Ok(())
}

// Puts the numbers behind the bytes.
fn spell_numbers(bytes: &mut Vec<u8>, numbers: &[Fe]) -> Result<(), NoMemory>
    ensures { OnOk result (bytes.new.items ≡ bytes.old.items ++ number_bytes numbers.now) }
{
    for number in numbers {
        spell_number(bytes, *number)?;
    }
    Ok(())
}

fn spell_number(bytes: &mut Vec<u8>, number: Fe) -> Result<(), NoMemory>
    ensures { OnOk result (bytes.new.items ≡ bytes.old.items ++ to_be_bytes w64 number) }
{
    bytes.extend_from_slice(&number.value().to_be_bytes())?;
    Ok(())
}

fn spell_byte(bytes: &mut Vec<u8>, byte: u8) -> Result<(), NoMemory>
    ensures { OnOk result (bytes.new.items ≡ bytes.old.items ++ to_be_bytes w8 byte) }
{
    bytes.push(byte)?;
    Ok(())
}
