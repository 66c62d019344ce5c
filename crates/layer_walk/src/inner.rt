use star_io::Bytes;
use std::marker::Model;
use tag_groups::Listed;

/// A report of the next level: the number of its record, and its frame.
#[derive(Drop)]
pub struct Inner {
    pub index: u32,
    pub frame: Bytes,
}

impl Model for Inner {
    ghost use Rattle.tag_groups.specs.RowView.{report_in, IsRead};
    ghost use Rattle.layer_walk.specs.Seen.{InnerView};

    ghost Value = { InnerView };

    ghost view = { λ i. record { index = i.index; frame = report_in i.frame } };

    ghost invariant = { λ i. IsRead i.frame };
}

/// A list of reports of the next level.
pub type Inners = Listed<Inner>;
