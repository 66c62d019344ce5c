ghost use Rattle.std.specs.Prelude.{◌≡◌, Some};
ghost use Rattle.book_file.specs.Names.{name_of};

use std::fmt;

/// What is wrong with bytes that don't begin with a book.
#[derive(Clone, Copy, Debug, PartialEq, Eq)]
pub enum BookKind {
    /// The bytes end before this field does.
    Truncated,
    /// The book doesn't begin with `STARBOOK`.
    Magic,
    /// The version isn't the one that is read.
    Version,
    /// More records were dropped than a book may count, or a count is 0 or takes the total above
    /// that limit.
    Count,
    /// The bytes aren't a good frame of the book's epoch and of level 0.
    Frame,
    /// The frame isn't above the one before it.
    Order,
}

impl BookKind {
    /// The name under which the fault is printed.
    pub fn name(self) -> &'static str
        ensures { result.now ≡ name_of self }
    {
        match self {
            BookKind::Truncated => "Truncated",
            BookKind::Magic => "Magic",
            BookKind::Version => "Version",
            BookKind::Count => "Count",
            BookKind::Frame => "Frame",
            BookKind::Order => "Order",
        }
    }
}

impl fmt::Display for BookKind {
    ghost output = { λ kind. Some (name_of kind) };

    fn fmt<W: fmt::Write>(&self, f: &mut fmt::Formatter<W>) -> fmt::Result {
        f.write_str(self.name())
    }
}
