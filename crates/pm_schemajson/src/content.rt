//! The content of a type, from its text.
ghost use Rattle.std.specs.Prelude.{◌≡◌, IfOk, OnOk, IfSome, Ok};
ghost use Rattle.pm_auto.specs.Tree.{tree};
ghost use Rattle.pm_expr.specs.Reader.{expr_of as text_says};
ghost use Rattle.pm_schemajson.specs.Answers.{Gives};
ghost use Rattle.pm_schemajson.specs.Contents.{content_of as content_from};
ghost use Rattle.pm_schemajson.specs.Known.{AreRead};

use crate::error::SchemaReadError;
use crate::kinds::Known;
use pm_auto::{Expr, TypeId};
use pm_expr::{ExprError, Names, parse};
use pm_value::Text;
use std::alloc::{AllocError, Global};

/// The content of the type of this number: a copy of what the same text said before, or else what is read anew, which is then
/// known. Schemas have many types and few contents.
pub(crate) fn content_of(
    alloc: Global,
    names: &Names,
    known: &mut Vec<Known>,
    kind: TypeId,
    text: &str,
) -> Result<Expr, SchemaReadError>
    requires { AreRead names.now known.old.items }
    ensures known { OnOk result (AreRead names.now known.new.items) }
    ensures content { Gives tree result (content_from kind (text_says names.now text.now)) }
{
    match found(alloc, names, known.as_slice(), text)? {
        Some(content) => Ok(content),
        None => {
            let content = read(alloc, names, kind, text)?;
            remember(alloc, names, known, text, &content)?;
            Ok(content)
        }
    }
}

/// A copy of what the text said before.
fn found(
    alloc: Global,
    names: &Names,
    known: &[Known],
    text: &str,
) -> Result<Option<Expr>, AllocError>
    requires { AreRead names.now known.now }
    ensures { IfOk result (λ o. IfSome o (λ e. text_says names.now text.now ≡ Ok (tree e))) }
{
    let _ = names;
    for entry in known {
        if entry.text.as_str() == text {
            let content = entry.content.copy(alloc)?;
            return Ok(Some(content));
        }
    }
    Ok(None)
}

/// What the text says, for the type of this number.
fn read(alloc: Global, names: &Names, kind: TypeId, text: &str) -> Result<Expr, SchemaReadError>
    ensures { Gives tree result (content_from kind (text_says names.now text.now)) }
{
    match parse(alloc, text, names) {
        Ok(content) => Ok(content),
        Err(ExprError::NoMemory) => Err(SchemaReadError::NoMemory),
        Err(error) => Err(SchemaReadError::Expr { kind, error }),
    }
}

/// Makes it known what the text says.
fn remember(
    alloc: Global,
    names: &Names,
    known: &mut Vec<Known>,
    text: &str,
    content: &Expr,
) -> Result<(), AllocError>
    requires known { AreRead names.now known.old.items }
    requires says { text_says names.now text.now ≡ Ok (tree content.now) }
    ensures { OnOk result (AreRead names.now known.new.items) }
{
    let _ = names;
    let text = Text::from_str(alloc, text)?;
    let content = content.copy(alloc)?;
    known.push(Known { text, content })?;
    Ok(())
}
