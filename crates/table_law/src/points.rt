// The points of the reports of a table.
ghost use Rattle.std.specs.Prelude.{◌<◌, ◌≤◌, ◌↔◌, ℕ, List, length, get_or, slice_index, [], IsTrue, IfOk};
ghost use Rattle.report_frame.specs.declared.version.Version.TheVariants.{One};
ghost use Rattle.report_frame.specs.declared.limits.TheConstants.{MAX_LAYERS};
ghost use Rattle.report_frame.specs.Versions.{max_layers};
ghost use Rattle.nest_client.specs.declared.limits.TheConstants.{MAX_REPORTS};
ghost use Rattle.table_law.specs.Marks.{ArePoints, PointsDiffer};

use crate::firsts::first_place;
use field61::Fe;
use nest_client::layer_points;
use report_frame::MAX_LAYERS;
use star_io::NoMemory;
use std::alloc::Global;
use std::collections::BTreeMap;

/// The points of the layers of one client.
pub(crate) type LayerPoints = [Fe; MAX_LAYERS];

/// A point, and the first row that begins with the same values as its row.
#[derive(Drop, PartialEq, Eq, PartialOrd, Ord)]
pub(crate) struct PointMark {
    pub(crate) first: u32,
    pub(crate) x: Fe,
}

/// The points of the layers of each row's client. The coins of a client are drawn once.
pub(crate) fn points_of(
    alloc: Global,
    rows: usize,
    layers: usize,
    seed: &[u8; 32],
) -> Result<Vec<LayerPoints>, NoMemory>
    requires few { rows ≤ MAX_REPORTS }
    requires layers { layers ≤ max_layers One }
    ensures { IfOk result (λ points. ArePoints seed.now rows layers points.items) }
{
    let mut points = Vec::new(alloc);
    'rows: for i in 0..rows {
        points.push(layer_points(seed, i as u32, layers))?;
    }
    Ok(points)
}

/// Whether no two rows that begin with the same values have the same point in this layer.
pub(crate) fn points_differ(
    alloc: Global,
    points: &[LayerPoints],
    layer: usize,
    firsts: &[u32],
) -> Result<bool, NoMemory>
    requires layer { layer < MAX_LAYERS }
    requires long { length firsts.now ≤ length points.now }
    requires few { length firsts.now ≤ MAX_REPORTS }
    requires some { (i : ℕ) → i < length firsts.now →
        1 ≤ slice_index (get_or points.now i []) layer }
    ensures { IfOk result (λ differ. IsTrue differ ↔ PointsDiffer points.now layer firsts.now) }
{
    let mut places = BTreeMap::new(alloc);
    'rows: for i in 0..firsts.len() {
        let mark = PointMark {
            first: firsts[i],
            x: points[i][layer],
        };
        if first_place(&mut places, mark, i as u32)? != i as u32 {
            return Ok(false);
        }
    }
    Ok(true)
}
