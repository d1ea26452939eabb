//! A stack of open brackets, into which tokens are read.
ghost use Rattle.std.specs.Prelude.{◌≡◌, [], ◌∷◌, Some, None, MatchOption, IfOk, IfErr, OnOk, map, option_map};
ghost use Rattle.pm_auto.specs.Tree.{tree};
ghost use Rattle.pm_expr.specs.Reading.{Is, unless_fit, fit};
ghost use Rattle.pm_expr.specs.Reader.{start, state, frame, settled, closed, after_point, step, stepped, checked, repeated, finished, outside};
ghost use Rattle.pm_expr.specs.Views.{state_of, frame_of, token_of, point_of, Steps};
ghost use Rattle.pm_expr.specs.Tokens.{bar as bar_token, place as begins};
ghost use Rattle.pm_expr.specs.declared.error.ExprError.TheVariants.{Syntax};

use crate::error::ExprError;
use crate::join::{choice, plus, query, range, sequence, star};
use crate::names::Names;
use crate::scan::number;
use crate::tokens::Token;
use pm_auto::Expr;
use std::alloc::{AllocError, Global};
use std::mem;

/// The greatest number that may stand in braces.
const MAX_REPEATS: u32 = 64;

/// Where in braces the reader is: outside, or after the opening brace at this byte, after the first number, after the
/// comma, after the second number.
#[derive(Clone, Copy)]
pub(crate) enum Point {
    Outside,
    Opened { at: usize },
    Low { at: usize, low: u32 },
    Parted { at: usize, low: u32 },
    High { at: usize, low: u32, high: u32 },
}

/// What was read of a choice when a bracket opened in it: its complete sequences, and the items of the one that goes on.
#[derive(Drop)]
pub(crate) struct Open {
    pub done: Vec<Expr>,
    pub items: Vec<Expr>,
}

/// What was read: the brackets that are open, the outermost first; of the innermost choice the complete sequences, the
/// items before the last one, and the last item, to which a suffix applies.
#[derive(Drop)]
pub(crate) struct Reader {
    pub over: Vec<Open>,
    pub done: Vec<Expr>,
    pub items: Vec<Expr>,
    pub last: Option<Expr>,
    pub point: Point,
}

impl Reader {
    pub fn new(alloc: Global) -> Reader
        ensures { state_of result ≡ start }
    {
        Reader {
            over: Vec::new(alloc),
            done: Vec::new(alloc),
            items: Vec::new(alloc),
            last: None,
            point: Point::Outside,
        }
    }

    /// Reads a token. After an error nothing is said of the reader.
    pub fn read(&mut self, alloc: Global, names: &Names, token: Token<'_>) -> Result<(), ExprError>
        ensures { Steps result (state_of self.new) (step names.now (state_of self.old) (token_of token.entry)) }
    {
        match self.point {
            Point::Outside => self.read_outside(alloc, names, token),
            Point::Opened { at } => self.read_low(at, token),
            Point::Low { at, low } => self.read_comma(alloc, at, low, token),
            Point::Parted { at, low } => self.read_high(alloc, at, low, token),
            Point::High { at, low, high } => self.read_end(alloc, at, low, high, token),
        }
    }

    /// Reads a token outside of braces.
    fn read_outside(
        &mut self,
        alloc: Global,
        names: &Names,
        token: Token<'_>,
    ) -> Result<(), ExprError>
        requires { self.old.point ≡ Point.Outside }
        ensures { Steps result (state_of self.new) (step names.now (state_of self.old) (token_of token.entry)) }
    {
        match token {
            Token::Name { at, word } => match names.expr(alloc, word)? {
                Some(item) => {
                    self.put(item)?;
                    Ok(())
                }
                None => Err(ExprError::UnknownName { at }),
            },
            Token::Bracket { .. } => {
                self.open(alloc)?;
                Ok(())
            }
            Token::EndBracket { at } => self.close(at),
            Token::Bar { at } => self.bar(alloc, at),
            Token::Plus { at } => {
                let last = self.take_last(at)?;
                self.last = Some(plus(alloc, last)?);
                Ok(())
            }
            Token::Star { at } => {
                let last = self.take_last(at)?;
                self.last = Some(star(alloc, last)?);
                Ok(())
            }
            Token::Query { at } => {
                let last = self.take_last(at)?;
                self.last = Some(query(alloc, last)?);
                Ok(())
            }
            Token::Brace { at } => {
                let last = self.take_last(at)?;
                self.last = Some(last);
                self.point = Point::Opened { at };
                Ok(())
            }
            Token::EndBrace { at } => Err(ExprError::Syntax { at }),
            Token::Number { at, .. } => Err(ExprError::Syntax { at }),
            Token::Comma { at } => Err(ExprError::Syntax { at }),
            Token::Stray { at } => Err(ExprError::Syntax { at }),
        }
    }

    /// Appends an item.
    fn put(&mut self, item: Expr) -> Result<(), AllocError>
        ensures { OnOk result (let s = state_of self.old in state_of self.new ≡ state s.over s.done (settled s.items s.last) (Some (tree item)) s.point) }
    {
        self.settle()?;
        self.last = Some(item);
        Ok(())
    }

    /// The last item is complete.
    fn settle(&mut self) -> Result<(), AllocError>
        ensures { OnOk result (let s = state_of self.old in state_of self.new ≡ state s.over s.done (settled s.items s.last) None s.point) }
    {
        if let Some(item) = self.last.take() {
            self.items.push(item)?;
        }
        Ok(())
    }

    /// Opens a bracket.
    fn open(&mut self, alloc: Global) -> Result<(), AllocError>
        ensures { OnOk result (let s = state_of self.old in state_of self.new ≡ state (frame s.done (settled s.items s.last) ∷ s.over) [] [] None s.point) }
    {
        self.settle()?;
        let done = mem::replace(&mut self.done, Vec::new(alloc));
        let items = mem::replace(&mut self.items, Vec::new(alloc));
        self.over.push(Open { done, items })?;
        Ok(())
    }

    /// Closes the innermost bracket, by the token at this byte.
    fn close(&mut self, at: usize) -> Result<(), ExprError>
        requires { self.old.point ≡ Point.Outside }
        ensures { let s = state_of self.old in Steps result (state_of self.new) (stepped at None (closed s.over s.done s.items s.last)) }
    {
        let last = self.take_last(at)?;
        match self.pop() {
            Some(outer) => {
                let Open {
                    done: outer_done,
                    items: outer_items,
                } = outer;
                let done = mem::replace(&mut self.done, outer_done);
                let items = mem::replace(&mut self.items, outer_items);
                self.last = Some(choice(done, items, last)?);
                Ok(())
            }
            None => Err(ExprError::Syntax { at }),
        }
    }

    /// The innermost bracket, which is open no more.
    fn pop(&mut self) -> Option<Open>
        ensures { let s = state_of self.old in MatchOption result ((s.over ≡ []) × (state_of self.new ≡ s)) (λ f. (s.over ≡ frame_of f ∷ (state_of self.new).over) × (state_of self.new ≡ state (state_of self.new).over s.done s.items s.last s.point)) }
    {
        self.over.pop()
    }

    /// The last item, which a token at this byte needs.
    fn take_last(&mut self, at: usize) -> Result<Expr, ExprError>
        ensures ok { let s = state_of self.old in IfOk result (λ e. (s.last ≡ Some (tree e)) × (state_of self.new ≡ state s.over s.done s.items None s.point)) }
        ensures err { IfErr result (λ e. (e ≡ Syntax at) × ((state_of self.old).last ≡ None)) }
    {
        match self.last.take() {
            Some(last) => Ok(last),
            None => Err(ExprError::Syntax { at }),
        }
    }

    /// Ends a sequence, by a bar at this byte.
    fn bar(&mut self, alloc: Global, at: usize) -> Result<(), ExprError>
        requires { self.old.point ≡ Point.Outside }
        ensures { let s = state_of self.old in Steps result (state_of self.new) (stepped at None (after_point [] s s.point (bar_token at))) }
    {
        let last = self.take_last(at)?;
        let items = mem::replace(&mut self.items, Vec::new(alloc));
        self.done.push(sequence(items, last)?)?;
        Ok(())
    }

    /// After an opening brace a number comes.
    fn read_low(&mut self, at: usize, token: Token<'_>) -> Result<(), ExprError>
        requires { self.old.point ≡ Point.Opened at }
        ensures { Steps result (state_of self.new) (step [] (state_of self.old) (token_of token.entry)) }
    {
        match token {
            Token::Number { digits, .. } => {
                self.point = Point::Low {
                    at,
                    low: number(digits),
                };
                Ok(())
            }
            other => Err(ExprError::Syntax { at: place(other) }),
        }
    }

    /// After the first number a comma comes, or the end.
    fn read_comma(
        &mut self,
        alloc: Global,
        at: usize,
        low: u32,
        token: Token<'_>,
    ) -> Result<(), ExprError>
        requires { self.old.point ≡ Point.Low at low }
        ensures { Steps result (state_of self.new) (step [] (state_of self.old) (token_of token.entry)) }
    {
        match token {
            Token::Comma { .. } => {
                self.point = Point::Parted { at, low };
                Ok(())
            }
            Token::EndBrace { .. } => self.repeat(alloc, at, low, Some(low)),
            other => Err(ExprError::Syntax { at: place(other) }),
        }
    }

    /// After the comma a second number comes, or the end.
    fn read_high(
        &mut self,
        alloc: Global,
        at: usize,
        low: u32,
        token: Token<'_>,
    ) -> Result<(), ExprError>
        requires { self.old.point ≡ Point.Parted at low }
        ensures { Steps result (state_of self.new) (step [] (state_of self.old) (token_of token.entry)) }
    {
        match token {
            Token::Number { digits, .. } => {
                self.point = Point::High {
                    at,
                    low,
                    high: number(digits),
                };
                Ok(())
            }
            Token::EndBrace { .. } => self.repeat(alloc, at, low, None),
            other => Err(ExprError::Syntax { at: place(other) }),
        }
    }

    /// After the second number the end comes.
    fn read_end(
        &mut self,
        alloc: Global,
        at: usize,
        low: u32,
        high: u32,
        token: Token<'_>,
    ) -> Result<(), ExprError>
        requires { self.old.point ≡ Point.High at low high }
        ensures { Steps result (state_of self.new) (step [] (state_of self.old) (token_of token.entry)) }
    {
        match token {
            Token::EndBrace { .. } => self.repeat(alloc, at, low, Some(high)),
            other => Err(ExprError::Syntax { at: place(other) }),
        }
    }

    /// Repeats the last item by the numbers of the braces that opened at this byte.
    fn repeat(
        &mut self,
        alloc: Global,
        at: usize,
        low: u32,
        high: Option<u32>,
    ) -> Result<(), ExprError>
        ensures { let s = state_of self.old in Steps result (state_of self.new) (checked (unless_fit at low high) (repeated s low high)) }
    {
        if !fits(low, high) {
            return Err(ExprError::Range { at });
        }
        if let Some(last) = self.last.take() {
            self.last = Some(range(alloc, last, low, high)?);
        }
        self.point = Point::Outside;
        Ok(())
    }

    /// The expression that was read, at the end of a text of `size` bytes.
    pub fn finish(mut self, size: usize) -> Result<Expr, ExprError>
        ensures { Is tree result (finished size (state_of self)) }
    {
        let outer = self.pop();
        match self.point {
            Point::Outside => {}
            _ => return Err(ExprError::Syntax { at: size }),
        }
        if let Some(_) = outer {
            return Err(ExprError::Syntax { at: size });
        }
        finish_choice(self.done, self.items, self.last, size)
    }
}

/// What was read outside of brackets and braces.
fn finish_choice(
    done: Vec<Expr>,
    items: Vec<Expr>,
    last: Option<Expr>,
    size: usize,
) -> Result<Expr, ExprError>
    ensures { Is tree result (finished size (state [] (map tree done.items) (map tree items.items) (option_map tree last) outside)) }
{
    match last {
        Some(last) => Ok(choice(done, items, last)?),
        None if done.is_empty() && items.is_empty() => Ok(Expr::Empty),
        None => Err(ExprError::Syntax { at: size }),
    }
}

/// Whether the numbers are at most 64, and the second no less than the first.
fn fits(low: u32, high: Option<u32>) -> bool
    ensures { result ≡ fit low high }
{
    match high {
        None => low <= MAX_REPEATS,
        Some(high) => low <= high && high <= MAX_REPEATS,
    }
}

/// Where a token begins.
fn place(token: Token<'_>) -> usize
    ensures { result ≡ begins (token_of token.entry) }
{
    match token {
        Token::Name { at, .. } => at,
        Token::Bracket { at } => at,
        Token::EndBracket { at } => at,
        Token::Bar { at } => at,
        Token::Plus { at } => at,
        Token::Star { at } => at,
        Token::Query { at } => at,
        Token::Brace { at } => at,
        Token::EndBrace { at } => at,
        Token::Number { at, .. } => at,
        Token::Comma { at } => at,
        Token::Stray { at } => at,
    }
}
