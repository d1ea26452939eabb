//! The eight kinds of steps.
ghost use Rattle.std.specs.Prelude.{◌≡◌};
ghost use Rattle.pm_stepjson.specs.Kinds.{kind_named};

/// A kind of steps.
#[derive(Clone, Copy)]
pub(crate) enum Kind {
    Replace,
    ReplaceAround,
    AddMark,
    RemoveMark,
    AddNodeMark,
    RemoveNodeMark,
    Attr,
    DocAttr,
}

impl Kind {
    /// The kind of this name, if there is one.
    pub(crate) fn named(name: &str) -> Option<Kind>
        ensures { result ≡ kind_named name.now }
    {
        if name == "replace" {
            Some(Kind::Replace)
        } else if name == "replaceAround" {
            Some(Kind::ReplaceAround)
        } else if name == "addMark" {
            Some(Kind::AddMark)
        } else if name == "removeMark" {
            Some(Kind::RemoveMark)
        } else if name == "addNodeMark" {
            Some(Kind::AddNodeMark)
        } else if name == "removeNodeMark" {
            Some(Kind::RemoveNodeMark)
        } else if name == "attr" {
            Some(Kind::Attr)
        } else if name == "docAttr" {
            Some(Kind::DocAttr)
        } else {
            None
        }
    }
}
