// The certificates of a list of records.
ghost use Rattle.std.specs.Prelude.{◌≡◌, ◌≤◌, ◌<◌, ◌^◌, ◌++◌, length, All, IfOk};
ghost use Rattle.std.specs.List.{AllZip};
ghost use Rattle.star_io.specs.Bytes.{AreBytes};
ghost use Rattle.cert_audit.specs.declared.limits.TheConstants.{MAX_POINTS};
ghost use Rattle.layer_walk.specs.Laws.{IsByteRecord, AreByteRecords};
ghost use Rattle.layer_walk.specs.Reveal.{outer_rows, reveal_of};
ghost use Rattle.cert_audit.specs.Certificate.{IsCert};
ghost use Rattle.open_cert.specs.Certs.{certs_list, IsCertOf};

use crate::certified::Certified;
use crate::opened::{OpenedLevel, open_level};
use crate::ordered::{certs_alone, sorted_by_path};
use cert_audit::{Cert, CertList};
use layer_walk::{group_level, level_after, level_zero};
use report_frame::MAX_LAYERS;
use star_io::{NoMemory, Record};
use std::alloc::Global;

/// A list of certificates.
pub type Certs = CertList<Cert>;

/// One certificate for each group that the reveal of the records opens for the epoch, in the order
/// of its groups.
pub fn certs_of(alloc: Global, records: &[Record], epoch: u32) -> Result<Certs, NoMemory>
    requires { length records.now < 2 ^ 32 }
    ensures certs { IfOk result (λ certs. certs ≡ certs_list epoch records.now) }
    // There is one for each group of the reveal, in their order, and an audit says Yes to each.
    ensures complete { IfOk result (λ certs.
        AllZip (IsCertOf epoch (outer_rows epoch records.now)) (reveal_of epoch records.now).groups
        certs) }
    ensures range { length records.now ≤ MAX_POINTS → IfOk result (λ certs. All IsCert certs) }
{
    know_records(records);
    let zero = level_zero(alloc, records, epoch)?;
    let mut here = group_level(alloc, zero)?;
    let mut made = Vec::new(alloc);
    for _done in 0..MAX_LAYERS {
        let OpenedLevel { outs, made: more } = open_level(alloc, &here.level, &here.groups)?;
        put_all(&mut made, more)?;
        let after = level_after(alloc, &here.level, &here.groups, outs.as_slice())?;
        here = group_level(alloc, after)?;
    }
    let sorted = sorted_by_path(made)?;
    certs_alone(alloc, sorted)
}

// Puts them last.
fn put_all(made: &mut Vec<Certified>, more: Vec<Certified>) -> Result<(), NoMemory>
    ensures { IfOk result (λ _. made.new.items ≡ made.old.items ++ more.items) }
{
    for one in more {
        made.push(one)?;
    }
    Ok(())
}

// Says that the bytes of records are bytes, which their types do.
fn know_records(records: &[Record])
    ensures { AreByteRecords records.now }
{
    for item in records {
        know_record(item);
    }
}

fn know_record(item: &Record)
    ensures { IsByteRecord item.now }
{
    if let Record::Whole(bytes) = item {
        know_bytes(bytes.as_slice());
    }
}

fn know_bytes(bytes: &[u8])
    ensures { AreBytes bytes.now }
{
    let _bytes = bytes;
}
