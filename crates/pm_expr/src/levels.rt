//! How deep a text nests.
ghost use Rattle.std.specs.Prelude.{◌≡◌, OnOk, IfErr, None, Some};
ghost use Rattle.pm_expr.specs.Levels.{deeper as deeper_of, risen, levels, no_levels, in_brackets, unless_shallow, IsShallow};
ghost use Rattle.pm_expr.specs.Tokens.{end_bracket};
ghost use Rattle.pm_expr.specs.Views.{levels_in, token_of, Counts};
ghost use Rattle.pm_expr.specs.declared.error.ExprError.TheVariants.{Deep};

use crate::error::ExprError;
use crate::tokens::Token;
use std::alloc::Global;

/// The most levels that an item may have. Each walk over an expression takes stack for each of its levels, and letting one go
/// is such a walk, so a deeper expression could end the process.
const MAX_LEVELS: usize = 500;

/// The levels of what was read. A name has none. A suffix has one more than the item it stands after. A pair of brackets has
/// one more than the deepest item inside, or those of the one item where there is no other.
#[derive(Drop)]
pub(crate) struct Levels {
    /// For each open bracket, the outermost first, the levels of the deepest item before it in its choice.
    pub over: Vec<Option<usize>>,
    /// The levels of the deepest item before the last one in the innermost choice, `None` where there is none.
    pub before: Option<usize>,
    /// The levels of the last item, `None` where there is none.
    pub last: Option<usize>,
}

impl Levels {
    pub fn new(alloc: Global) -> Levels
        ensures { levels_in result ≡ no_levels }
    {
        Levels {
            over: Vec::new(alloc),
            before: None,
            last: None,
        }
    }

    /// Counts a token. `Deep` is told where an item gets more levels by it than it may have.
    pub fn count(&mut self, token: Token<'_>) -> Result<(), ExprError>
        requires { IsShallow self.old.last }
        ensures { Counts result (levels_in self.new) (levels_in self.old) (token_of token.entry) }
    {
        match token {
            Token::Name { .. } => {
                self.before = deeper(self.before, self.last);
                self.last = Some(0);
                Ok(())
            }
            Token::Bracket { .. } => {
                self.over.push(deeper(self.before, self.last))?;
                self.before = None;
                self.last = None;
                Ok(())
            }
            Token::EndBracket { at } => self.end_bracket(at),
            Token::Plus { at } => self.rise(at),
            Token::Star { at } => self.rise(at),
            Token::Query { at } => self.rise(at),
            Token::Brace { at } => self.rise(at),
            _ => Ok(()),
        }
    }

    /// Ends the innermost pair of brackets, by the token at this byte.
    fn end_bracket(&mut self, at: usize) -> Result<(), ExprError>
        requires { IsShallow self.old.last }
        ensures { Counts result (levels_in self.new) (levels_in self.old) (end_bracket at) }
    {
        let inside = self.before;
        self.before = self.over.pop().unwrap_or(None);
        match inside {
            None => Ok(()),
            Some(_) => {
                self.last = deeper(inside, self.last);
                self.rise(at)
            }
        }
    }

    /// The last item has one level more, by the token at this byte.
    fn rise(&mut self, at: usize) -> Result<(), ExprError>
        ensures ok { OnOk result (let l = levels_in self.old in (levels_in self.new ≡ levels l.over l.before (risen l.last)) × IsShallow (risen l.last)) }
        ensures err { IfErr result (λ e. (e ≡ Deep at) × (unless_shallow at (risen self.old.last) ≡ Some e)) }
    {
        let levels = self.last.unwrap_or(0);
        if levels >= MAX_LEVELS {
            return Err(ExprError::Deep { at });
        }
        self.last = Some(levels + 1);
        Ok(())
    }
}

/// The deeper of both, where there are two.
fn deeper(a: Option<usize>, b: Option<usize>) -> Option<usize>
    ensures { result ≡ deeper_of a b }
{
    match a {
        None => b,
        Some(a) => match b {
            None => Some(a),
            Some(b) => Some(a.max(b)),
        },
    }
}
