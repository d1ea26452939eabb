//! The tokens of a text.
ghost use Rattle.std.specs.Prelude.{◌≡◌, ◌≤◌, ◌<◌, [], ◌∷◌, length, MatchOption, OnSome};

use crate::scan::{inside_after, run_end, sign, skip_blanks};

/// A token and the byte at which it begins.
#[derive(Clone, Copy)]
pub(crate) enum Token<'a> {
    Name { at: usize, word: &'a [u8] },
    Bracket { at: usize },
    EndBracket { at: usize },
    Bar { at: usize },
    Plus { at: usize },
    Star { at: usize },
    Query { at: usize },
    Brace { at: usize },
    EndBrace { at: usize },
    Number { at: usize, digits: &'a [u8] },
    Comma { at: usize },
    Stray { at: usize },
}

/// A text from whose front tokens are taken.
#[derive(Drop)]
pub(crate) struct Tokens<'a> {
    pub text: &'a [u8],
    pub at: usize,
    pub inside: bool,
    ghost within: { at ≤ length text.now },
}

impl<'a> Tokens<'a> {
    ghost use Rattle.pm_expr.specs.Views.{token_of, left_of};
    ghost use Rattle.pm_expr.specs.Tokens.{tokens};

    pub fn new(text: &'a [u8]) -> Tokens<'a>
        ensures same { result.text.now ≡ text.now }
        ensures all { left_of result ≡ tokens text.now }
    {
        Tokens {
            text,
            at: 0,
            inside: false,
        }
    }

    /// Takes the next token.
    pub fn take(&mut self) -> Option<Token<'a>>
        ensures same { self.new.text.now ≡ self.old.text.now }
        ensures token { MatchOption result (left_of self.old ≡ []) (λ t. left_of self.old ≡ token_of t ∷ left_of self.new) }
        ensures onward { OnSome result (self.old.at < self.new.at) }
    {
        let text = self.text;
        let from = skip_blanks(text, self.at, self.inside);
        if from == text.len() {
            return None;
        }
        let to = run_end(text, from, self.inside);
        if from < to {
            self.at = to;
            let run = &text[from..to];
            return Some(if self.inside {
                Token::Number {
                    at: from,
                    digits: run,
                }
            } else {
                Token::Name {
                    at: from,
                    word: run,
                }
            });
        }
        let byte = text[from];
        self.at = from + 1;
        self.inside = inside_after(byte, self.inside);
        Some(sign(from, byte))
    }
}
