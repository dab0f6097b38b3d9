ghost use Rattle.std.specs.Prelude.{◌≡◌, ◌==◌, ◌∷◌, ◌++◌, [], OnErr, OnOk, length, slice_get};
ghost use Rattle.std.specs.Option.{option_map};

use crate::name::Memory;
use sqlite_items::{Items, at};
use std::alloc::Global;
use std::marker::Model;

/// Rows of values.
#[derive(Drop)]
pub struct Rows {
    rows: Vec<Items<u32>>,
}

impl Model for Rows {
    ghost use Rattle.std.specs.Prelude.{List, ℕ};

    ghost Value = { List (List ℕ) };

    ghost view = { λ r. r.rows.items };
}

impl Rows {
    pub fn new(alloc: Global) -> Rows
        ensures { result ≡ [] }
    {
        Rows {
            rows: Vec::new(alloc),
        }
    }

    /// Adds a row at the end. After want of memory the rows are as they were.
    pub fn push(&mut self, alloc: Global, row: &[u32]) -> Result<(), Memory>
        ensures pushed { OnOk result (self.new ≡ self.old ++ row.now ∷ []) }
        ensures kept { OnErr result (self.new ≡ self.old) }
    {
        let Ok(row) = Items::from_slice(alloc, row) else {
            return Err(Memory);
        };
        match self.rows.push(row) {
            Ok(()) => Ok(()),
            Err(_) => Err(Memory),
        }
    }

    pub fn len(&self) -> usize
        ensures { result ≡ length self.now }
    {
        self.rows.len()
    }

    pub fn is_empty(&self) -> bool
        ensures { result ≡ (length self.now == 0) }
    {
        self.rows.is_empty()
    }

    /// The row of an instant.
    pub fn get(&self, instant: usize) -> Option<&[u32]>
        ensures { option_map (λ row. row.now) result ≡ slice_get self.now instant }
    {
        match at(self.rows.as_slice(), instant) {
            Some(row) => Some(row.as_slice()),
            None => None,
        }
    }
}
