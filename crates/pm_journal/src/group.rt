//! Lines that come together.
ghost use Rattle.std.specs.Prelude.{◌≡◌, ◌++◌, ◌∷◌, [], IfOk, IsTrue, IfSome, IfNone, ◌↔◌, ◌<◌, ◌+◌, length, take, drop};
ghost use Rattle.pm_journal.specs.Lines.{IsLine, HoldsLines, lines_of};

use std::alloc::{AllocError, Global};

/// An open gate, which stands before a line.
pub(crate) const OPEN: u8 = 32;

/// The end of a line. As a gate it is closed.
pub(crate) const LF: u8 = 10;

/// Lines that come into a file at once or not at all: one at least.
#[derive(Drop)]
pub struct Group {
    /// The lines as they will stand in the file, without the first gate and the last LF.
    pub text: Vec<u8>,
}

impl Group {
    /// This line alone.
    pub fn of(alloc: Global, line: &[u8]) -> Result<Group, AllocError>
        requires { IsLine line.now }
        ensures holds { IfOk result (λ g. HoldsLines g.text.items) }
        ensures lines { IfOk result (λ g. lines_of g.text.items ≡ line.now ∷ []) }
    {
        Ok(Group {
            text: line.to_vec(alloc)?,
        })
    }

    /// These lines and one more.
    pub fn with(&self, alloc: Global, line: &[u8]) -> Result<Group, AllocError>
        requires holds { HoldsLines self.now.text.items }
        requires line { IsLine line.now }
        ensures holds { IfOk result (λ g. HoldsLines g.text.items) }
        ensures lines { IfOk result (λ g. lines_of g.text.items ≡ lines_of self.now.text.items ++ line.now ∷ []) }
    {
        let mut text = self.text.to_vec(alloc)?;
        text.extend_from_slice(&[LF, OPEN])?;
        text.extend_from_slice(line)?;
        Ok(Group { text })
    }
}

/// Whether no byte of it is LF.
pub fn is_line(bytes: &[u8]) -> bool
    ensures { IsTrue result ↔ IsLine bytes.now }
{
    match line_len(bytes) {
        Some(_) => false,
        None => true,
    }
}

/// How many bytes stand before the first LF.
pub(crate) fn line_len(bytes: &[u8]) -> Option<usize>
    ensures some { IfSome result (λ n. (n < length bytes.now) × IsLine (take n bytes.now) × (bytes.now ≡ take n bytes.now ++ 10 ∷ drop (n + 1) bytes.now)) }
    ensures none { IfNone result (IsLine bytes.now) }
{
    for at in 0..bytes.len() {
        if bytes[at] == LF {
            return Some(at);
        }
    }
    None
}
