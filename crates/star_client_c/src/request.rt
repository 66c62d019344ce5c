// What a caller asks for, in types of its own.
ghost use Rattle.std.specs.Prelude.{◌≡◌, ◌↔◌, ◌⊎◌, ◌≤◌, [], length, IsTrue, IsSome, IfSome, IfOk, IfErr};
ghost use Rattle.report_frame.specs.declared.limits.TheConstants.{MAX_EXTRA};
ghost use Rattle.report_frame.specs.declared.version.Version.TheVariants.{One};
ghost use Rattle.report_frame.specs.Thresholds.{AreThresholds};
ghost use Rattle.report_frame.specs.Versions.{version_of};
ghost use Rattle.star_client_c.specs.Cells.{IsRow, HasRow};
ghost use Rattle.star_client_c.specs.Request.{request, IsFault, IsGood};

use crate::row::take_cells;
use crate::status::{BAD_EXTRA, BAD_THRESHOLDS, BAD_VALUES, BAD_VERSION};
use arrayvec::ArrayVec;
use report_frame::{Extra, MAX_LAYERS, MIN_THRESHOLD, Value, Version};

/// What the report of a good request holds.
#[derive(Drop)]
pub(crate) struct Content {
    pub(crate) version: Version,
    pub(crate) row: ArrayVec<Value, MAX_LAYERS>,
    pub(crate) extra: Extra,
}

/// The content of a request, or what is wrong with it first.
pub(crate) fn content_of(
    version: u32,
    cells: &[u8],
    thresholds: &[u16],
    extra: &[u8],
) -> Result<Content, u32>
    ensures good { IfOk result (λ _. IsGood (request version cells.now thresholds.now extra.now)) }
    ensures version { IfOk result (λ r. r.version ≡ version_of version) }
    ensures row { IfOk result (λ r. IsRow r.row.items cells.now (length thresholds.now)) }
    ensures extra { IfOk result (λ r. r.extra ≡ extra.now) }
    ensures fault { IfErr result (λ status.
        IsFault status (request version cells.now thresholds.now extra.now)) }
{
    let Some(version) = version_in(version) else {
        return Err(BAD_VERSION);
    };
    if !are_thresholds(version, thresholds) {
        return Err(BAD_THRESHOLDS);
    }
    let Some(row) = row_of(cells, thresholds.len()) else {
        return Err(BAD_VALUES);
    };
    let Some(extra) = extra_of(version, extra) else {
        return Err(BAD_EXTRA);
    };
    Ok(Content {
        version,
        row,
        extra,
    })
}

// The version of this number.
fn version_in(number: u32) -> Option<Version>
    ensures found { IsSome result ↔ ((number ≡ 1) ⊎ (number ≡ 2)) }
    ensures version { IfSome result (λ v. v ≡ version_of number) }
{
    match number {
        1 => Some(Version::One),
        2 => Some(Version::Two),
        _ => None,
    }
}

// Whether the numbers are the thresholds of a report of this version.
fn are_thresholds(version: Version, thresholds: &[u16]) -> bool
    ensures { IsTrue result ↔ AreThresholds version thresholds.now }
{
    !thresholds.is_empty()
        && thresholds.len() <= usize::from(version.max_level()) + 1
        && thresholds
            .iter()
            .all(|k| MIN_THRESHOLD <= *k && *k <= version.max_threshold())
}

// The values of the cells, one for each layer.
fn row_of(cells: &[u8], layers: usize) -> Option<ArrayVec<Value, MAX_LAYERS>>
    requires { layers ≤ MAX_LAYERS }
    ensures found { IsSome result ↔ HasRow cells.now layers }
    ensures row { IfSome result (λ row. IsRow row.items cells.now layers) }
{
    let mut row = ArrayVec::new();
    if take_cells(&mut row, cells, layers) {
        Some(row)
    } else {
        None
    }
}

// The extra bytes, which version 1 has none of.
fn extra_of(version: Version, bytes: &[u8]) -> Option<Extra>
    ensures found { IsSome result
        ↔ ((length bytes.now ≤ MAX_EXTRA) × (version ≡ One → bytes.now ≡ [])) }
    ensures extra { IfSome result (λ extra. extra ≡ bytes.now) }
{
    if version == Version::One && !bytes.is_empty() {
        return None;
    }
    Extra::of(bytes)
}
