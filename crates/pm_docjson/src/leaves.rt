//! What a reader does with content that a leaf type has all the same.
ghost use Rattle.std.specs.Prelude.{◌≡◌};
ghost use Rattle.pm_docjson.specs.Reading.{refuses};

/// Content of a node of a leaf type.
#[derive(Clone, Copy, Debug, PartialEq, Eq)]
pub enum LeafContent {
    /// It is kept, so that a check of the document finds it.
    Kept,
    /// Where it is not empty, it is the fault `Shape`, before what is in it is read.
    Refused,
}

impl LeafContent {
    /// Whether it is a fault.
    pub(crate) fn refuses(self) -> bool
        ensures { result ≡ refuses self }
    {
        match self {
            LeafContent::Kept => false,
            LeafContent::Refused => true,
        }
    }
}
