// The text of `audit`.
ghost use Rattle.std.specs.Prelude.{◌≡◌, ◌≤◌, ◌++◌, length, None, IfOk, IfErr, OnOk, string_bytes};
ghost use Rattle.cert_audit.specs.Certificate.{IsCert, BeginsWith};
ghost use Rattle.cert_audit.specs.Reading.{reading};
ghost use Rattle.reveal_report.specs.Paths.{step_text};
ghost use Rattle.star_tool.specs.AuditText.{AuditEnds, CertEnds, WritesVerdict, last_line, yes_line, step_of, counts_text, certs_in, audit_text_of};
ghost use Rattle.star_tool.specs.declared.verbs.audit.TheConstants.{MAX_CERTS_BYTES};

use crate::status::Status;
use cert_audit::{Cert, CertError, ReadCert, Verdict, audit, read_cert};
use layer_walk::Step;
use report_frame::Value;
use reveal_report::push_step;
use star_io::NoMemory;
use std::alloc::{AllocError, Global};
use std::fmt::Write;

/// The lines of `audit`: one for each certificate, in order, and a last one that counts them.
///
/// `BadCert` where the bytes after the last whole certificate aren't the end, and begin with none.
pub(crate) fn audit_text(alloc: Global, bytes: &[u8]) -> Result<Vec<u8>, Status>
    requires { length bytes.now ≤ MAX_CERTS_BYTES }
    ensures good { IfOk result (λ _. (certs_in bytes.now).fault ≡ None) }
    ensures text { IfOk result (λ text. text.items ≡ audit_text_of (certs_in bytes.now).certs) }
    ensures bad { IfErr result (AuditEnds (certs_in bytes.now)) }
{
    let mut text = String::new(alloc);
    let mut certs = 0u32;
    let mut yes = 0u32;
    let mut at = 0usize;
    while at < bytes.len() {
        let ReadCert { cert, used } = next_cert(alloc, &bytes[at..], certs)?;
        let says_yes = push_verdict(&mut text, certs, &cert)?;
        yes += u32::from(says_yes);
        certs += 1;
        at += used as usize;
    }
    push_last_line(&mut text, certs, yes)?;
    Ok(text.into_bytes())
}

// The next certificate, before which there are so many.
fn next_cert(alloc: Global, bytes: &[u8], certs: u32) -> Result<ReadCert, Status>
    ensures read { IfOk result (λ r. reading bytes.now ≡ Ok r) }
    ensures found { IfOk result (λ r. BeginsWith r.cert r.used bytes.now) }
    ensures bad { IfErr result (CertEnds certs (reading bytes.now)) }
{
    match read_cert(alloc, bytes) {
        Ok(found) => Ok(found),
        Err(CertError::Bad { kind, at }) => Err(Status::BadCert {
            cert: certs,
            kind,
            at,
        }),
        Err(CertError::NoMemory) => Err(Status::NoMemory),
    }
}

// Writes the line of a certificate, and says whether its verdict is Yes.
fn push_verdict(text: &mut String, number: u32, cert: &Cert) -> Result<bool, NoMemory>
    requires { IsCert cert.now }
    ensures { IfOk result (λ says.
        WritesVerdict number cert.now says (string_bytes text.old) (string_bytes text.new)) }
{
    let verdict = audit(cert);
    match &verdict {
        Verdict::Yes { value, agree } => {
            push_yes(text, number, cert, value, *agree)?;
            Ok(true)
        }
        _ => {
            let name = verdict.name();
            write!(text, "{number} no {name}\n")?;
            Ok(false)
        }
    }
}

fn push_yes(
    text: &mut String,
    number: u32,
    cert: &Cert,
    value: &Value,
    agree: u32,
) -> Result<(), AllocError>
    ensures { OnOk result (string_bytes text.new
        ≡ string_bytes text.old ++ yes_line number cert.now value.now agree) }
{
    write!(text, "{number} yes ")?;
    push_opened(text, cert, value)?;
    push_counts(text, cert, agree)?;
    Ok(())
}

// Writes a value with the threshold and the version of its group.
fn push_opened(text: &mut String, cert: &Cert, value: &Value) -> Result<(), AllocError>
    ensures { OnOk result (string_bytes text.new
        ≡ string_bytes text.old ++ step_text (step_of cert.now value.now)) }
{
    let step = Step {
        value: value.copy(),
        k: cert.head.k,
        version: cert.head.version,
    };
    push_step(text, &step)?;
    Ok(())
}

// Writes the level of a certificate, how many points it has, and how many of them agree.
fn push_counts(text: &mut String, cert: &Cert, agree: u32) -> Result<(), AllocError>
    ensures { OnOk result (string_bytes text.new
        ≡ string_bytes text.old ++ counts_text cert.now agree) }
{
    let level = cert.level;
    let points = cert.points.len();
    write!(text, " level={level} points={points} agree={agree}\n")
}

fn push_last_line(text: &mut String, certs: u32, yes: u32) -> Result<(), NoMemory>
    ensures { OnOk result (string_bytes text.new ≡ string_bytes text.old ++ last_line certs yes) }
{
    write!(text, "certs={certs} yes={yes}\n")?;
    Ok(())
}
