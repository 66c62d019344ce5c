// The fields of a certificate before its points.
ghost use Rattle.std.specs.Prelude.{◌≡◌, ◌≤◌, ◌*◌, [], length, IfOk, IfErr, Err};
ghost use Rattle.byte_format.specs.Format.Size.{OneByte};
ghost use Rattle.report_frame.specs.Versions.{version_number};
ghost use Rattle.report_frame.specs.declared.version.Version.TheVariants.{One, Two};
ghost use Rattle.cert_audit.specs.Certificate.{certificate, behind_threshold, points_layout, numbers_layout};
ghost use Rattle.cert_audit.specs.Front.{entries_of_start, entries_of_front};
ghost use Rattle.byte_format.specs.Reading.{Gives, number_at, read};
ghost use Rattle.cert_audit.specs.Reading.{certs};
ghost use Rattle.cert_audit.specs.declared.kind.CertKind.TheVariants.{Range};

use crate::fault::CertFault;
use crate::fields::{read_array, read_bytes, read_u8, read_u16, read_u32, read_u64};
use crate::kind::CertKind;
use crate::limits::{CERT_FORMAT, CERT_MAGIC, MAX_POINTS};
use report_frame::{CHECK_BYTES, MAX_VALUE, MIN_THRESHOLD, TAG_BYTES, Version};

// Where the fields before the box start, in bytes from the front.
const FORMAT_AT: u64 = 8;

const VERSION_AT: u64 = FORMAT_AT + 1;

const LEVEL_AT: u64 = VERSION_AT + 1;

const EPOCH_AT: u64 = LEVEL_AT + 1;

const THRESHOLD_AT: u64 = EPOCH_AT + 4;

const PARENT_AT: u64 = THRESHOLD_AT + 2;

const TAG_AT: u64 = PARENT_AT + CHECK_BYTES as u64;

const CHECK_AT: u64 = TAG_AT + TAG_BYTES as u64;

const BOX_LENGTH_AT: u64 = CHECK_AT + CHECK_BYTES as u64;

const BOX_AT: u64 = BOX_LENGTH_AT + 1;

/// The fields of a certificate up to its threshold.
#[derive(Clone, Copy)]
pub(crate) struct Start {
    pub(crate) version: Version,
    pub(crate) level: u8,
    pub(crate) epoch: u32,
    pub(crate) k: u16,
}

/// The fields of a certificate before its points, how many points it has, and the bytes behind them
/// with the place where they start.
#[derive(Clone, Copy)]
pub(crate) struct Front<'a> {
    pub(crate) start: Start,
    pub(crate) parent: &'a [u8; CHECK_BYTES],
    pub(crate) tag: &'a [u8; TAG_BYTES],
    pub(crate) check: &'a [u8; CHECK_BYTES],
    pub(crate) boxed: &'a [u8],
    pub(crate) points: u32,
    pub(crate) rest: &'a [u8],
    pub(crate) at: u64,
}

/// The fields before the points, or the first fault among them.
#[tactic(auto, unfolding(byte_format::specs::Reading::read))]
pub(crate) fn read_front(bytes: &[u8]) -> Result<Front<'_>, CertFault>
    ensures ok { IfOk result (λ f. read certs certificate 0 [] bytes.now
        ≡ read certs (points_layout f.points 0 (numbers_layout (3 * f.start.k))) f.at (entries_of_front f)
        f.rest.now) }
    ensures fault { IfErr result (λ e. read certs certificate 0 [] bytes.now ≡ Err e) }
    ensures box_low { IfOk result (λ f. 1 ≤ length f.boxed.now) }
    ensures box_high { IfOk result (λ f. length f.boxed.now ≤ MAX_VALUE) }
    ensures place { IfOk result (λ f. f.at ≤ 200) }
{
    let (_, rest) = read_u64(bytes, 0, CertKind::Magic, CERT_MAGIC, CERT_MAGIC)?;
    let (_, rest) = read_u8(rest, FORMAT_AT, CertKind::Format, CERT_FORMAT, CERT_FORMAT)?;
    let (version, rest) = read_version(rest)?;
    let (level, rest) = read_u8(rest, LEVEL_AT, CertKind::Range, 0, version.max_level())?;
    let (epoch, rest) = read_u32(rest, EPOCH_AT, u32::MAX)?;
    let (k, rest) = read_u16(rest, THRESHOLD_AT, MIN_THRESHOLD, version.max_threshold())?;
    let start = Start {
        version,
        level,
        epoch,
        k,
    };
    read_behind(start, rest)
}

// The version, and what follows it.
fn read_version(bytes: &[u8]) -> Result<(Version, &[u8]), CertFault>
    ensures { Gives (λ x. (version_number x.0, x.1.now)) result
        (number_at certs OneByte Range (version_number One) (version_number Two) VERSION_AT bytes.now) }
{
    let (front, rest) = read_bytes(bytes, VERSION_AT, 1)?;
    match Version::of(front[0]) {
        Some(version) => Ok((version, rest)),
        None => Err(CertFault {
            kind: CertKind::Range,
            at: VERSION_AT,
        }),
    }
}

// The fields behind the threshold up to the number of points.
#[tactic(auto, unfolding(byte_format::specs::Reading::read))]
fn read_behind(start: Start, bytes: &[u8]) -> Result<Front<'_>, CertFault>
    ensures ok { IfOk result (λ f.
        read certs (behind_threshold start.k) PARENT_AT (entries_of_start start) bytes.now
        ≡ read certs (points_layout f.points 0 (numbers_layout (3 * f.start.k))) f.at (entries_of_front f)
        f.rest.now) }
    ensures fault { IfErr result (λ e.
        read certs (behind_threshold start.k) PARENT_AT (entries_of_start start) bytes.now ≡ Err e) }
    ensures box_low { IfOk result (λ f. 1 ≤ length f.boxed.now) }
    ensures box_high { IfOk result (λ f. length f.boxed.now ≤ MAX_VALUE) }
    ensures place { IfOk result (λ f. f.at ≤ 200) }
{
    let (parent, rest) = read_array::<CHECK_BYTES>(bytes, PARENT_AT)?;
    let (tag, rest) = read_array::<TAG_BYTES>(rest, TAG_AT)?;
    let (check, rest) = read_array::<CHECK_BYTES>(rest, CHECK_AT)?;
    let (size, rest) = read_u8(rest, BOX_LENGTH_AT, CertKind::Range, 1, MAX_VALUE as u8)?;
    let (boxed, rest) = read_bytes(rest, BOX_AT, size as usize)?;
    let at = BOX_AT + u64::from(size);
    let (points, rest) = read_u32(rest, at, MAX_POINTS)?;
    Ok(Front {
        start,
        parent,
        tag,
        check,
        boxed,
        points,
        rest,
        at: at + 4,
    })
}
