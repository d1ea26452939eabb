//! A text as a tree.
ghost use Rattle.std.specs.Prelude.{◌≡◌, ◌≤◌, IfOk, IfSome};
ghost use Rattle.json.specs.Tree.{HasNumbers, depth};
ghost use Rattle.json.specs.Value.{value_view};
ghost use Rattle.serde_json.specs.Read.{of_json, read, max_depth};

use json::{Error, Reader, Scratch, Value as Tree};
use std::alloc::{AllocError, Global};

/// How many levels arrays and objects may nest, as in `serde_json`.
const MAX_DEPTH: usize = 127;

/// The tree that a text writes. It borrows the text, and what the text writes with escapes lies in `scratch`. `None` says
/// nothing of the text: it may be no JSON, and it is to be read as a value then.
pub fn tree_in<'a>(
    alloc: Global,
    text: &'a str,
    scratch: &'a mut Scratch,
) -> Result<Option<Tree<'a>>, AllocError>
    ensures read { IfOk result (λ o. IfSome o (λ t. read text.now ≡ of_json (value_view t))) }
    ensures numbers { IfOk result (λ o. IfSome o (λ t. HasNumbers (value_view t))) }
    ensures shallow { IfOk result (λ o. IfSome o (λ t. depth (value_view t) ≤ max_depth)) }
{
    let mut reader = Reader::new(text, scratch)?;
    let tree = match Tree::read(alloc, &mut reader, MAX_DEPTH) {
        Ok(tree) => tree,
        Err(Error::OutOfMemory) => return Err(AllocError),
        Err(_) => return Ok(None),
    };
    if reader.next().is_some() {
        return Ok(None);
    }
    Ok(Some(tree))
}
