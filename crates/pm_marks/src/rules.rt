//! Which mark types exclude which.
ghost use Rattle.std.specs.Prelude.{◌≡◌, map, IfOk};
ghost use Rattle.pm_marks.specs.Rules.{excludes};

use crate::mark::MarkId;
use std::alloc::{AllocError, Global};
use std::marker::Model;

/// The rules of a schema's marks: for each type, the types that it excludes. A contract sees the table of truth values.
#[derive(Drop, Debug)]
pub struct MarkRules {
    table: Vec<Vec<bool>>,
}

impl Model for MarkRules {
    ghost use Rattle.std.specs.Prelude.{List, Bool, map};

    ghost Value = { List (List Bool) };

    ghost view = { λ r. map (λ row. row.items) r.table.items };
}

impl MarkRules {
    /// The rules by which type a excludes type b where `excludes[a][b]` is there and true. It takes no memory.
    pub fn new(excludes: Vec<Vec<bool>>) -> MarkRules
        ensures { result ≡ map (λ row. row.items) excludes.items }
    {
        MarkRules { table: excludes }
    }

    /// Whether type `a` excludes type `b`. It takes no memory.
    /// ProseMirror: `MarkType.excludes`.
    pub fn excludes(&self, a: MarkId, b: MarkId) -> bool
        ensures { result ≡ excludes self.now a b }
    {
        a < self.table.len() && b < self.table[a].len() && self.table[a][b]
    }

    /// Rules equal to these.
    pub fn copy(&self, alloc: Global) -> Result<MarkRules, AllocError>
        ensures { IfOk result (λ r. r ≡ self.now) }
    {
        let mut table = Vec::new(alloc);
        for row in &self.table {
            table.push(Vec::from_slice(alloc, row)?)?;
        }
        Ok(MarkRules { table })
    }
}
