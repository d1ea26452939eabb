//! Schemas, and whether they are told to be loose.
use pm_head::schema_line;
use pm_loose::is_loose;
use std::alloc::{AllocError, Global};
use std::test::Fail;

/// A schema of paragraphs, quotes, headings and lists of inline text and images.
const LISTS: &str =
    "{\"nodes\":[{\"name\":\"doc\",\"content\":\"block+\"},{\"name\":\"paragraph\",\"content\":\"inline*\",\"group\":\"block\"},{\"name\":\"blockquote\",\"content\":\"block+\",\"group\":\"block\"},{\"name\":\"heading\",\"content\":\"inline*\",\"group\":\"block\",\"attrs\":{\"level\":{\"default\":1}}},{\"name\":\"bullet_list\",\"content\":\"list_item+\",\"group\":\"block\"},{\"name\":\"list_item\",\"content\":\"paragraph block*\"},{\"name\":\"image\",\"group\":\"inline\",\"inline\":true,\"attrs\":{\"src\":{}}},{\"name\":\"text\",\"group\":\"inline\"}],\"marks\":[{\"name\":\"link\",\"attrs\":{\"href\":{}},\"inclusive\":false},{\"name\":\"em\"},{\"name\":\"strong\"},{\"name\":\"code\",\"excludes\":\"_\"}]}";

/// ProseMirror's basic schema.
const BASIC: &str =
    "{\"nodes\":[{\"name\":\"doc\",\"content\":\"block+\"},{\"name\":\"paragraph\",\"content\":\"inline*\",\"group\":\"block\"},{\"name\":\"blockquote\",\"content\":\"block+\",\"group\":\"block\"},{\"name\":\"horizontal_rule\",\"group\":\"block\"},{\"name\":\"heading\",\"content\":\"inline*\",\"group\":\"block\",\"attrs\":{\"level\":{\"default\":1}}},{\"name\":\"code_block\",\"content\":\"text*\",\"group\":\"block\",\"marks\":\"\"},{\"name\":\"text\",\"group\":\"inline\"},{\"name\":\"image\",\"group\":\"inline\",\"inline\":true,\"attrs\":{\"src\":{},\"alt\":{\"default\":null},\"title\":{\"default\":null}}},{\"name\":\"hard_break\",\"group\":\"inline\",\"inline\":true}],\"marks\":[{\"name\":\"link\",\"attrs\":{\"href\":{},\"title\":{\"default\":null}},\"inclusive\":false},{\"name\":\"em\"},{\"name\":\"strong\"},{\"name\":\"code\"}]}";

/// Contents of a paragraph, and whether a schema with it is told to be loose.
const CONTENTS: [(&str, bool); 7] = [
    ("text*", true),
    ("text* image text*", true),
    ("image", true),
    ("text?", false),
    ("text? text?", false),
    ("(text image)*", false),
    ("image (text* image text?)*", false),
];

/// The schema whose paragraphs have this content.
fn with(alloc: Global, content: &str) -> Result<String, AllocError> {
    format!(in alloc;
        "{{\"nodes\":[{{\"name\":\"doc\",\"content\":\"paragraph+\"}},{{\"name\":\"paragraph\",\"content\":\"{content}\"}},{{\"name\":\"image\",\"inline\":true}},{{\"name\":\"text\"}}]}}"
    )
}

/// Whether the schema that the text writes is told to be loose.
fn told(alloc: Global, text: &str) -> Result<bool, Fail> {
    let schema = schema_line(alloc, text.as_bytes())?;
    Ok(is_loose(&schema))
}

#[test]
fn tells_schemas_that_are_loose(rt: HostRuntime) -> Result<(), Fail> {
    let alloc = rt.alloc();
    assert!(rt; told(alloc, LISTS)?);
    assert!(rt; told(alloc, BASIC)?);
    for (content, loose) in CONTENTS {
        let found = told(alloc, with(alloc, content)?.as_str())?;
        assert!(rt; found == loose, "{content}");
    }
    Ok(())
}
