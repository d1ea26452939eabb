//! The tokens before a range, those of a slice, and those after the range.
ghost use Rattle.std.specs.Prelude.{◌≡◌, ◌+◌, ◌-◌, ◌<◌, ◌≤◌, ◌^◌, true, length, IfOk, IfSome};
ghost use Rattle.pm_tokens.specs.Schemas.{compatible};
ghost use Rattle.pm_tokens.specs.Slices.{slice_size, spliced, depths_fit};
ghost use Rattle.pm_schema.specs.Documents.{documents_of};
ghost use Rattle.pm_replace.specs.Splices.{Splices, Joins, IsWhole};

use pm_build::{Builder, OpenTypes, Refused, typed};
use pm_node::Fragment;
use pm_schema::Schema;
use pm_slice::Slice;
use std::alloc::{AllocError, Global};

/// The content with the range from..to replaced by the slice. It shares each whole node. A joined node keeps the type, the
/// attributes and the marks of the left one. It is refused exactly where a close meets no open node of a compatible type.
pub fn splice(
    alloc: Global,
    schema: &Schema,
    content: &Fragment,
    from: usize,
    to: usize,
    slice: &Slice,
) -> Result<Fragment, Refused>
    requires order { from ≤ to }
    requires within { to ≤ length content.now }
    requires fits { depths_fit content.now from to slice.now ≡ true }
    requires room { from + slice_size slice.now + (length content.now - to) < 2 ^ 32 }
    ensures { Splices (compatible (documents_of schema.now.spec)) (spliced content.now from to slice.now) result }
{
    match spliced_letters(alloc, content, from, to, slice)? {
        Some(made) => Ok(made),
        None => built(alloc, schema, content, from, to, slice),
    }
}

/// The same, where letters of one text are replaced by letters with its marks, or by none; `None` elsewhere.
fn spliced_letters(
    alloc: Global,
    content: &Fragment,
    from: usize,
    to: usize,
    slice: &Slice,
) -> Result<Option<Fragment>, AllocError>
    requires order { from ≤ to }
    requires within { to ≤ length content.now }
    requires room { from + slice_size slice.now + (length content.now - to) < 2 ^ 32 }
    ensures { IfOk result (λ o. IfSome o (λ f. IsWhole (spliced content.now from to slice.now) f)) }
{
    if slice.open_start() > 0 || slice.open_end() > 0 {
        return Ok(None);
    }
    let new = slice.content();
    let _ = new.size();
    match typed(alloc, content, from, to, new)? {
        Some(made) => {
            let _ = made.size();
            Ok(Some(made))
        }
        None => Ok(None),
    }
}

/// The same as `splice`, built from left to right.
fn built(
    alloc: Global,
    schema: &Schema,
    content: &Fragment,
    from: usize,
    to: usize,
    slice: &Slice,
) -> Result<Fragment, Refused>
    requires order { from ≤ to }
    requires within { to ≤ length content.now }
    requires fits { depths_fit content.now from to slice.now ≡ true }
    requires room { from + slice_size slice.now + (length content.now - to) < 2 ^ 32 }
    ensures { Splices (compatible (documents_of schema.now.spec)) (spliced content.now from to slice.now) result }
{
    let size = content.size();
    let inner = slice.content();
    let _ = inner.size();
    let start = slice.open_start();
    let added = slice.size();
    let end = start + added;
    let mut builder = Builder::new(alloc);
    builder.feed(alloc, schema, content, 0, from)?;
    builder.feed(alloc, schema, inner, start, end)?;
    builder.feed(alloc, schema, content, to, size)?;
    Ok(builder.finish())
}

/// Whether the content with the range from..to replaced by the slice joins, told without its tokens. It is refused exactly
/// where a close meets no open node of a compatible type.
pub fn join(
    alloc: Global,
    schema: &Schema,
    content: &Fragment,
    from: usize,
    to: usize,
    slice: &Slice,
) -> Result<(), Refused>
    ensures { Joins (compatible (documents_of schema.now.spec)) (spliced content.now from to slice.now) result }
{
    let size = content.size();
    let inner = slice.content();
    let _ = inner.size();
    let start = slice.open_start();
    let added = slice.size();
    let end = start + added;
    let mut open = OpenTypes::new(alloc);
    open.cross(schema, content, 0, from)?;
    open.cross(schema, inner, start, end)?;
    open.cross(schema, content, to, size)?;
    Ok(())
}
