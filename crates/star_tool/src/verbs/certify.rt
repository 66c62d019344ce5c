// The command `certify`.
ghost use Rattle.std.specs.Prelude.{◌≡◌, ◌≤◌, All, IfOk, IfErr};
ghost use Rattle.std.specs.List.{flat_map};
ghost use Rattle.cert_audit.specs.Certificate.{IsCert, cert_spelling};
ghost use Rattle.command_words.specs.declared.command.Command.{Command};
ghost use Rattle.star_tool.specs.Run.{Makes, Reason};
ghost use Rattle.star_tool.specs.Seen.{Seen, seen, unseen};

use crate::status::Status;
use cert_audit::{Cert, cert_bytes};
use open_cert::certs_of;
use star_io::{MAX_RECORDS, NoMemory, Source, read_records};
use std::alloc::Global;

/// How the verb is written.
pub(crate) const USAGE: &str = "certify --epoch E";

/// The certificates of what an input opens for an epoch, one after the other.
pub(crate) fn certify_output<S: Source>(
    alloc: Global,
    epoch: u32,
    input: &mut S,
) -> Result<Vec<u8>, Status>
    ensures output { (coins : Seen) → IfOk result (Makes (Command.Certify epoch)
        (seen S.left S.faults input.old input.new) coins) }
    ensures reason { IfErr result (Reason (Command.Certify epoch)
        (seen S.left S.faults input.old input.new) unseen) }
    ensures later { S.faults input.old ≤ S.faults input.new }
{
    let records = read_records(alloc, input, MAX_RECORDS)?;
    let certs = certs_of(alloc, &records, epoch)?;
    let bytes = certs_bytes(alloc, certs.as_slice())?;
    Ok(bytes)
}

// The bytes of the certificates, one after the other.
fn certs_bytes(alloc: Global, certs: &[Cert]) -> Result<Vec<u8>, NoMemory>
    requires { All IsCert certs.now }
    ensures { IfOk result (λ bytes. bytes.items ≡ flat_map cert_spelling certs.now) }
{
    let mut bytes = Vec::new(alloc);
    for cert in certs {
        let spelt = cert_bytes(alloc, cert)?;
        bytes.extend_from_slice(&spelt)?;
    }
    Ok(bytes)
}
