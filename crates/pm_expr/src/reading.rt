//! Reading a text.
ghost use Rattle.std.specs.Prelude.{◌≡◌, Result, ◌↔◌};
ghost use Rattle.pm_auto.specs.Tree.{Tree, tree};
ghost use Rattle.pm_expr.specs.Reading.{Reads, Is};
ghost use Rattle.pm_expr.specs.Reader.{expr_of};
ghost use Rattle.pm_expr.specs.declared.error.ExprError.{ExprError as Fault};

use crate::error::ExprError;
use crate::levels::Levels;
use crate::names::Names;
use crate::reader::Reader;
use crate::tokens::Tokens;
use pm_auto::Expr;
use std::alloc::Global;

/// The content expression that the text writes, or the first fault from the left. A choice is sequences separated by `|`.
/// A sequence is one or more items. An item is a name or a choice in brackets, followed by any number of the suffixes
/// `+`, `*`, `?`, `{n}`, `{n,}` and `{n,m}`. A name is that of a node type, or else of a group, and then stands for the
/// choice of all types of the group in schema order. A text of blanks alone is the empty expression. A choice or sequence
/// of one part is that part.
///
/// `Deep` comes where an item gets more than 500 levels, since walks over an expression take stack for each of its levels. A
/// name has no level. A suffix has one more than the item it stands after. A pair of brackets has one more than the deepest
/// item inside, or those of the one item where there is no other. Running out of memory may come at any point.
pub fn parse(alloc: Global, text: &str, names: &Names) -> Result<Expr, ExprError>
    // The answer is a reading of the text by the grammar, and every reading of it is the answer.
    ensures told { (r : Result Tree Fault) × Reads names.now text.now r × Is tree result r }
    ensures only { (r : Result Tree Fault) → Reads names.now text.now r → Is tree result r }

    // That reading, computed by a reader with a stack.
    ensures computed { Is tree result (expr_of names.now text.now) }
{
    let mut tokens = Tokens::new(text.as_bytes());
    let mut reader = Reader::new(alloc);
    let mut levels = Levels::new(alloc);
    while let Some(token) = tokens.take() {
        reader.read(alloc, names, token)?;
        levels.count(token)?;
    }
    reader.finish(text.len())
}
