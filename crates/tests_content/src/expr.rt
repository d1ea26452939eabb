//! Where the first faults of texts are. The types are 0 doc, 1 paragraph, 2 blockquote, 3 heading, 4 text, 5 image, 6 hr, and
//! the groups block (1, 2, 3), inline (4, 5) and rule (6). The name `heading` is also a group of type 1.
use pm_auto::Expr;
use pm_expr::{ExprError, NameGroups, Names, parse};
use std::alloc::{AllocError, Global};
use std::test::Fail;

fn kind(alloc: Global, name: &str, groups: &[&str]) -> Result<NameGroups, AllocError> {
    let mut list = Vec::new(alloc);
    for group in groups {
        list.push(String::from_str(alloc, group)?)?;
    }
    Ok(NameGroups {
        name: String::from_str(alloc, name)?,
        groups: list,
    })
}

/// The types by their numbers, with their groups.
const KINDS: [(&str, &[&str]); 7] = [
    ("doc", &[]),
    ("paragraph", &["block", "heading"]),
    ("blockquote", &["block"]),
    ("heading", &["block"]),
    ("text", &["inline"]),
    ("image", &["inline"]),
    ("hr", &["rule"]),
];

fn names(alloc: Global) -> Result<Names, AllocError> {
    let mut types = Vec::new(alloc);
    for (name, groups) in &KINDS {
        types.push(kind(alloc, name, groups)?)?;
    }
    Names::new(alloc, types.as_slice())
}

fn parsed(alloc: Global, text: &str) -> Result<Expr, ExprError> {
    let names = names(alloc)?;
    parse(alloc, text, &names)
}

/// Texts, and their first faults.
const FAULTS: [(&str, ExprError); 27] = [
    ("paragraph{3,2}", ExprError::Range { at: 9 }),
    ("(", ExprError::Syntax { at: 1 }),
    ("zzz", ExprError::UnknownName { at: 0 }),
    ("_", ExprError::UnknownName { at: 0 }),
    ("paragraph{65}", ExprError::Range { at: 9 }),
    ("hr{0,65}", ExprError::Range { at: 2 }),
    ("hr{99999999999999999999,}", ExprError::Range { at: 2 }),
    ("hr{3,2", ExprError::Syntax { at: 6 }),
    ("hr{3,2 hr}", ExprError::Syntax { at: 7 }),
    ("hr {3,2} zzz )", ExprError::Range { at: 3 }),
    ("zzz{3,2} )", ExprError::UnknownName { at: 0 }),
    (") zzz", ExprError::Syntax { at: 0 }),
    ("hr | ", ExprError::Syntax { at: 5 }),
    ("hr || hr", ExprError::Syntax { at: 4 }),
    ("()", ExprError::Syntax { at: 1 }),
    ("hr{}", ExprError::Syntax { at: 3 }),
    ("hr{,2}", ExprError::Syntax { at: 3 }),
    ("hr{1 2}", ExprError::Syntax { at: 5 }),
    ("hr{a}", ExprError::Syntax { at: 3 }),
    ("{2}", ExprError::Syntax { at: 0 }),
    ("+", ExprError::Syntax { at: 0 }),
    ("(hr", ExprError::Syntax { at: 3 }),
    ("hr)", ExprError::Syntax { at: 2 }),
    ("hr, hr", ExprError::Syntax { at: 2 }),
    ("hr \u{e9}", ExprError::Syntax { at: 3 }),
    ("hr-hr", ExprError::Syntax { at: 2 }),
    ("hr 2hr", ExprError::UnknownName { at: 3 }),
];

#[test]
fn tells_the_first_fault(rt: HostRuntime) {
    for (text, fault) in &FAULTS {
        assert!(rt; parsed(rt.alloc(), text).err() == Some(*fault), "{text}");
    }
}
