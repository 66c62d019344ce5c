// Tables of the values of clients.
ghost use Rattle.std.specs.Prelude.{◌≡◌, ◌<◌, [], ◌∷◌, ◌++◌, length, get_or, IfOk, OnOk, OnErr};

use crate::value::Value;
use star_io::NoMemory;
use std::alloc::Global;
use std::marker::Model;

/// Rows of values, one row for each client of version 1.
#[derive(Drop)]
pub struct Table {
    alloc: Global,
    rows: Vec<Vec<Value>>,
}

impl Model for Table {
    ghost use Rattle.std.specs.Prelude.{ℕ, List, map};

    ghost Value = { List (List (List ℕ)) };

    ghost view = { λ t. map (λ row. row.items) t.rows.items };
}

impl Table {
    /// No rows. It takes no memory.
    pub fn new(alloc: Global) -> Table
        ensures { result ≡ [] }
    {
        Table {
            alloc,
            rows: Vec::new(alloc),
        }
    }

    /// Puts a copy of the row last. After `NoMemory` the table is as before.
    pub fn add_row(&mut self, row: &[Value]) -> Result<(), NoMemory>
        ensures added { OnOk result (self.new ≡ self.old ++ row.now ∷ []) }
        ensures kept { OnErr result (self.new ≡ self.old) }
    {
        let copy = copy_row(self.alloc, row)?;
        self.push_row(copy)
    }

    /// Puts the row last, itself and no copy. After `NoMemory` the table is as before.
    pub fn push_row(&mut self, row: Vec<Value>) -> Result<(), NoMemory>
        ensures added { OnOk result (self.new ≡ self.old ++ row.items ∷ []) }
        ensures kept { OnErr result (self.new ≡ self.old) }
    {
        self.rows.push(row)?;
        Ok(())
    }

    /// The number of rows.
    pub fn len(&self) -> usize
        ensures { result ≡ length self.now }
    {
        self.rows.len()
    }

    /// Row i.
    pub fn row(&self, i: usize) -> &[Value]
        requires { i < length self.now }
        ensures { result.now ≡ get_or self.now i [] }
    {
        self.rows[i].as_slice()
    }
}

/// The values once more, in memory of their own.
pub(crate) fn copy_row(alloc: Global, row: &[Value]) -> Result<Vec<Value>, NoMemory>
    ensures { IfOk result (λ v. v.items ≡ row.now) }
{
    let mut copy = Vec::with_capacity(alloc, row.len())?;
    for value in row {
        copy.push(value.copy())?;
    }
    Ok(copy)
}
