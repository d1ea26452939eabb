//! The text of the one paragraph.
ghost use Rattle.std.specs.Prelude.{◌≡◌, ◌≤◌, ◌-◌, ◌++◌, length, take, drop, true, IfOk};
ghost use Rattle.pm_flat.specs.Letters.{is_printable, all_printable};

use std::alloc::{AllocError, Global};
use std::marker::Model;

/// Characters from U+0020 to U+007E. Each is one UTF-16 unit and one byte.
#[derive(Debug, Drop)]
pub struct Letters {
    text: String,
}

impl Model for Letters {
    ghost use Rattle.std.specs.Prelude.{◌≡◌, true, List, ℕ, string_bytes};
    ghost use Rattle.pm_flat.specs.Letters.{all_printable};

    ghost Value = { List ℕ };

    ghost view = { λ l. string_bytes l.text };

    ghost invariant = { λ l. all_printable (string_bytes l.text) ≡ true };
}

impl Letters {
    /// These characters.
    pub fn new(alloc: Global, text: &str) -> Result<Letters, AllocError>
        requires { all_printable text.now ≡ true }
        ensures { IfOk result (λ l. l ≡ text.now) }
    {
        Ok(Letters {
            text: String::from_str(alloc, text)?,
        })
    }

    pub fn as_str(&self) -> &str
        ensures text { result.now ≡ self.now }
        ensures printable { all_printable self.now ≡ true }
    {
        self.text.as_str()
    }

    /// How many units there are.
    pub fn len(&self) -> usize
        ensures { result ≡ length self.now }
    {
        self.text.len()
    }

    /// The same characters.
    pub fn copy(&self, alloc: Global) -> Result<Letters, AllocError>
        ensures { IfOk result (λ l. l ≡ self.now) }
    {
        Letters::new(alloc, self.as_str())
    }

    /// Those from unit `from` to unit `to`.
    #[tactic(auto, using(crate::proofs::LetterLists::printable))]
    pub fn part(&self, alloc: Global, from: usize, to: usize) -> Result<Letters, AllocError>
        requires ordered { from ≤ to }
        requires within { to ≤ length self.now }
        ensures { IfOk result (λ l. l ≡ take (to - from) (drop from self.now)) }
    {
        Ok(Letters {
            text: String::from_str(alloc, &self.as_str()[from..to])?,
        })
    }

    /// These with `more` in place of those from unit `from` to unit `to`.
    #[tactic(auto, using(crate::proofs::LetterLists::printable))]
    pub fn spliced(
        &self,
        alloc: Global,
        from: usize,
        to: usize,
        more: &Letters,
    ) -> Result<Letters, AllocError>
        requires ordered { from ≤ to }
        requires within { to ≤ length self.now }
        ensures { IfOk result (λ l. l ≡ take from self.now ++ more.now ++ drop to self.now) }
    {
        let old = self.as_str();
        let mut text = String::from_str(alloc, &old[..from])?;
        text.push_str(more.as_str())?;
        text.push_str(&old[to..])?;
        Ok(Letters { text })
    }
}

/// Whether all characters are from U+0020 to U+007E.
pub fn all_printable(text: &str) -> bool
    ensures { result ≡ all_printable text.now }
{
    text.as_bytes().iter().all(|b| is_printable(*b))
}

/// Whether a character is from U+0020 to U+007E.
fn is_printable(byte: u8) -> bool
    ensures { result ≡ is_printable byte }
{
    32 <= byte && byte <= 126
}
