// What is printed as one line each.
ghost use Rattle.std.specs.Prelude.{◌≡◌, ◌++◌, List, ℕ, OnOk, string_bytes};
ghost use Rattle.std.specs.List.{flat_map};
ghost use Rattle.reveal_report.specs.RevealText.{open_line, refusal_line, aux_line};

use crate::escape::push_escaped;
use crate::names::{name_of_why, push_stage};
use crate::paths::push_path;
use layer_walk::{Aux, OpenedGroup, Refusal};
use std::alloc::AllocError;
use std::fmt::Write;

// Something that has a line of its own.
pub(crate) trait Line {
    ghost line: { Self → List ℕ };

    fn push_to(&self, text: &mut String) -> Result<(), AllocError>
        ensures { OnOk result (string_bytes text.new ≡ string_bytes text.old ++ line self.now) };
}

impl Line for OpenedGroup {
    ghost line = { open_line };

    fn push_to(&self, text: &mut String) -> Result<(), AllocError> {
        text.push_str("open ")?;
        push_path(text, &self.path)?;
        write!(
            text,
            " points={} agree={} members={}\n",
            self.points, self.agree, self.members
        )
    }
}

impl Line for Refusal {
    ghost line = { refusal_line };

    fn push_to(&self, text: &mut String) -> Result<(), AllocError> {
        write!(text, "refused {} ", self.index)?;
        push_stage(text, self.stage)?;
        write!(text, " {}\n", name_of_why(self.why))
    }
}

impl Line for Aux {
    ghost line = { aux_line };

    fn push_to(&self, text: &mut String) -> Result<(), AllocError> {
        write!(text, "aux {} {} ", self.index, self.level)?;
        push_escaped(text, self.bytes.as_slice())?;
        text.push_str("\n")
    }
}

// Writes the line of each item, in order.
pub(crate) fn push_lines<T: Line>(text: &mut String, items: &[T]) -> Result<(), AllocError>
    ensures { OnOk result (string_bytes text.new
        ≡ string_bytes text.old ++ flat_map T.line items.now) }
{
    for item in items {
        item.push_to(text)?;
    }
    Ok(())
}
