//! Laws of tables. Each function does nothing: its clause is a fact about the definitions that the
//! contracts of `read_table` and `read_table2` cite.
ghost use Rattle.std.specs.Prelude.{◌≡◌, ◌⊎◌, ◌↔◌, ◌≤◌, ℕ, List, Some, None, length};
ghost use Rattle.report_frame.specs.declared.version.Version.{Version};
ghost use Rattle.client_table.specs.declared.read.TheConstants.{MAX_ROWS};
ghost use Rattle.client_table.specs.Table.{HasBadPlace, HasTooManyRows, IsBadTable, IsTable};
ghost use Rattle.client_table.specs.BadPlace.{bad_place};

/// The most rows in plain numbers.
pub fn limits()
    ensures { MAX_ROWS ≡ 65536 }
{}

/// Records are a table, or there are too many of them, or they have a first bad place.
pub fn some_outcome()
    ensures { (version : Version) (width : ℕ) (rows : List (List (List ℕ))) →
        IsTable version width rows ⊎ HasTooManyRows rows ⊎ HasBadPlace version width rows }
{}

/// They are never two of these.
pub fn one_outcome()
    ensures table { (version : Version) (width : ℕ) (rows : List (List (List ℕ))) →
        IsTable version width rows → ¬ (HasTooManyRows rows) × ¬ (HasBadPlace version width rows) }
    ensures bad { (version : Version) (width : ℕ) (rows : List (List (List ℕ))) →
        HasBadPlace version width rows → ¬ (HasTooManyRows rows) }
{}

/// The first bad place is one place.
pub fn one_place()
    ensures { (version : Version) (width row column other_row other_column : ℕ)
        (rows : List (List (List ℕ))) →
        IsBadTable version width rows row column →
        IsBadTable version width rows other_row other_column →
        (row ≡ other_row) × (column ≡ other_column) }
{}

/// The function that looks for the first bad place finds it, and finds none in a table alone.
pub fn first_bad_place()
    ensures found { (version : Version) (width row column : ℕ) (rows : List (List (List ℕ))) →
        length rows ≤ MAX_ROWS →
        (bad_place version width rows ≡ Some (row, column))
        ↔ IsBadTable version width rows row column }
    ensures none { (version : Version) (width : ℕ) (rows : List (List (List ℕ))) →
        length rows ≤ MAX_ROWS →
        (bad_place version width rows ≡ None) ↔ IsTable version width rows }
{}
