ghost use Rattle.std.specs.Prelude.{◌≡◌, ◌<◌, [], ◌∷◌, ◌++◌, length, get_or, OnOk, OnErr};

use crate::extra::Extra;
use crate::table::copy_row;
use crate::value::Value;
use star_io::NoMemory;
use std::alloc::Global;
use std::marker::Model;

/// Rows of values and extra bytes, one row for each client of version 2.
#[derive(Drop)]
pub struct Table2 {
    alloc: Global,
    rows: Vec<Row2>,
}

// What a client of version 2 reports.
#[derive(Drop)]
struct Row2 {
    values: Vec<Value>,
    extra: Extra,
}

impl Model for Table2 {
    ghost use Rattle.std.specs.Prelude.{ℕ, List, map};

    ghost Value = { List (List (List ℕ) × List ℕ) };

    ghost view = { λ t. map (λ row. (row.values.items, row.extra)) t.rows.items };
}

impl Table2 {
    /// No rows. It takes no memory.
    pub fn new(alloc: Global) -> Table2
        ensures { result ≡ [] }
    {
        Table2 {
            alloc,
            rows: Vec::new(alloc),
        }
    }

    /// Puts a copy of the row last. After `NoMemory` the table is as before.
    pub fn add_row(&mut self, row: &[Value], extra: &Extra) -> Result<(), NoMemory>
        ensures added { OnOk result (self.new ≡ self.old ++ (row.now, extra.now) ∷ []) }
        ensures kept { OnErr result (self.new ≡ self.old) }
    {
        let values = copy_row(self.alloc, row)?;
        self.push_row(values, extra.copy())
    }

    /// Puts the row last, itself and no copy. After `NoMemory` the table is as before.
    pub fn push_row(&mut self, values: Vec<Value>, extra: Extra) -> Result<(), NoMemory>
        ensures added { OnOk result (self.new ≡ self.old ++ (values.items, extra) ∷ []) }
        ensures kept { OnErr result (self.new ≡ self.old) }
    {
        self.rows.push(Row2 { values, extra })?;
        Ok(())
    }

    /// The number of rows.
    pub fn len(&self) -> usize
        ensures { result ≡ length self.now }
    {
        self.rows.len()
    }

    /// The values of row i.
    pub fn row(&self, i: usize) -> &[Value]
        requires { i < length self.now }
        ensures { result.now ≡ (get_or self.now i ([], [])).0 }
    {
        self.rows[i].values.as_slice()
    }

    /// The extra bytes of row i.
    pub fn extra(&self, i: usize) -> &Extra
        requires { i < length self.now }
        ensures { result.now ≡ (get_or self.now i ([], [])).1 }
    {
        &self.rows[i].extra
    }
}
