//! The edits by their words.
ghost use Rattle.std.specs.Prelude.{◌≡◌};
ghost use Rattle.pm_opjson.specs.Words.{edit_named};

/// An edit, as the `op` of a line names it.
#[derive(Clone, Copy, Debug, PartialEq, Eq)]
pub enum EditKind {
    Step,
    Text,
    Delete,
    Paste,
    Insert,
    Split,
    Join,
    Wrap,
    Lift,
    SetType,
    AddMark,
    RemoveMark,
    Attr,
    DocAttr,
}

impl EditKind {
    /// The edit of this word, if there is one: of the variant's name in small letters.
    pub fn named(text: &str) -> Option<EditKind>
        ensures { result ≡ edit_named text.now }
    {
        if text == "step" {
            Some(EditKind::Step)
        } else if text == "text" {
            Some(EditKind::Text)
        } else if text == "delete" {
            Some(EditKind::Delete)
        } else if text == "paste" {
            Some(EditKind::Paste)
        } else if text == "insert" {
            Some(EditKind::Insert)
        } else if text == "split" {
            Some(EditKind::Split)
        } else if text == "join" {
            Some(EditKind::Join)
        } else if text == "wrap" {
            Some(EditKind::Wrap)
        } else if text == "lift" {
            Some(EditKind::Lift)
        } else if text == "settype" {
            Some(EditKind::SetType)
        } else if text == "addmark" {
            Some(EditKind::AddMark)
        } else if text == "removemark" {
            Some(EditKind::RemoveMark)
        } else if text == "attr" {
            Some(EditKind::Attr)
        } else if text == "docattr" {
            Some(EditKind::DocAttr)
        } else {
            None
        }
    }
}
