//! Places of a small document.
ghost use Rattle.std.specs.Prelude.{◌≡◌, length};

use pm_head::{doc_line, schema_line};
use pm_node::Document;
use pm_resolve::{Place, resolve};
use pm_schema::Schema;
use std::alloc::{AllocError, Global};
use std::test::Fail;

/// A paragraph with two letters.
const LETTERS: &str =
    r#"{"type":"doc","content":[{"type":"paragraph","content":[{"type":"text","text":"ac"}]}]}"#;

const SCHEMA: &str = r#"{"nodes":[
    {"name":"doc","content":"paragraph+"},{"name":"paragraph","content":"text*"},{"name":"text"}]}"#;

/// The depth of a position; there the type, the index, the start and the end; and the depths that it shares with the positions
/// 3 and 4. Or why there is no place.
fn told(alloc: Global, doc: &Document, pos: usize) -> Result<String, AllocError> {
    match resolve(alloc, doc, pos) {
        Ok(place) => path_of(alloc, &place, doc.size()),
        Err(fault) => format!(in alloc; "{fault:?}"),
    }
}

fn path_of(alloc: Global, place: &Place<'_>, size: usize) -> Result<String, AllocError>
    requires { size ≡ length place.now.doc.tokens }
{
    let d = place.depth();
    let mut text = format!(in alloc; "{d} {}", place.node(d).kind)?;
    write!(
        text,
        " {} {} {}",
        place.index(d),
        place.start(d),
        place.end(d)
    )?;
    if 4 <= size {
        write!(text, " {} {}", place.shared_depth(3), place.shared_depth(4))?;
    }
    Ok(text)
}

/// Positions in a document of one paragraph, which is of type 1, with two letters.
const PATHS: [(usize, &str); 2] = [(2, "1 1 0 1 3 1 0"), (5, "OutOfRange")];

fn is_told(alloc: Global, schema: &Schema, pos: usize, want: &str) -> Result<bool, Fail> {
    let doc = doc_line(alloc, schema, LETTERS.as_bytes())?;
    Ok(told(alloc, &doc, pos)?.as_str() == want)
}

#[test]
fn a_place_tells_its_path(rt: HostRuntime) -> Result<(), Fail> {
    let schema = schema_line(rt.alloc(), SCHEMA.as_bytes())?;
    for (pos, want) in &PATHS {
        assert!(rt; is_told(rt.alloc(), &schema, *pos, want)?, "{want}");
    }
    Ok(())
}
