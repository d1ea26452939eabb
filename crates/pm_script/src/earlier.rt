//! The op lines read so far.
ghost use Rattle.std.specs.Prelude.{◌≡◌, ◌<◌, ◌+◌, ◌^◌, ◌++◌, ◌∷◌, [], ℕ, length, vec_len, slice_index, slice_set, if◌then◌else◌, IfOk, OnOk};
ghost use Rattle.pm_session.specs.Suits.{composed_by, answered_by};
ghost use Rattle.pm_versions.specs.Suiting.{has_line};
ghost use Rattle.pm_script.specs.Lines.{cursors_by, lines_by};

use pm_apply::DocChange;
use pm_ops::Op;
use pm_session::Line;
use std::alloc::{AllocError, Global};

/// The op lines read so far, with how many messages each client composed on them, how many answers it
/// got, how many cursors it set, and how many of them are its own.
#[derive(Drop)]
pub struct Earlier {
    pub lines: Vec<Line<Op, DocChange>>,
    pub composed: Vec<u64>,
    pub answered: Vec<u64>,
    pub cursors: Vec<u64>,
    pub own: Vec<u64>,
    ghost composed_is: { (k : ℕ) → k < vec_len composed → slice_index composed.items k ≡ composed_by k lines.items },
    ghost answered_is: { (k : ℕ) → k < vec_len answered → slice_index answered.items k ≡ answered_by k lines.items },
    ghost cursors_are: { (k : ℕ) → k < vec_len cursors → slice_index cursors.items k ≡ cursors_by k lines.items },
    ghost own_are: { (k : ℕ) → k < vec_len own → slice_index own.items k ≡ lines_by k lines.items },
}

impl Earlier {
    /// No line yet, of so many clients.
    pub fn new(alloc: Global, clients: usize) -> Result<Earlier, AllocError>
        ensures none { IfOk result (λ e. e.lines.items ≡ []) }
        ensures composed { IfOk result (λ e. vec_len e.composed ≡ clients) }
        ensures answered { IfOk result (λ e. vec_len e.answered ≡ clients) }
        ensures cursors { IfOk result (λ e. vec_len e.cursors ≡ clients) }
        ensures own { IfOk result (λ e. vec_len e.own ≡ clients) }
    {
        Ok(Earlier {
            lines: Vec::new(alloc),
            composed: vec![in alloc; 0u64; clients]?,
            answered: vec![in alloc; 0u64; clients]?,
            cursors: vec![in alloc; 0u64; clients]?,
            own: vec![in alloc; 0u64; clients]?,
        })
    }

    /// How many messages a client composed.
    pub fn composed(&self, client: usize) -> u64
        requires { client < vec_len self.now.composed }
        ensures { result ≡ composed_by client self.now.lines.items }
    {
        self.composed[client]
    }

    /// How many answers a client got.
    pub fn answered(&self, client: usize) -> u64
        requires { client < vec_len self.now.answered }
        ensures { result ≡ answered_by client self.now.lines.items }
    {
        self.answered[client]
    }

    /// How many cursors a client set.
    pub fn cursors(&self, client: usize) -> u64
        requires { client < vec_len self.now.cursors }
        ensures { result ≡ cursors_by client self.now.lines.items }
    {
        self.cursors[client]
    }

    /// Whether a line is the client's.
    #[tactic(auto, using(crate::proofs::Tallies::own_lines))]
    pub fn has_line(&self, client: usize) -> bool
        requires { client < vec_len self.now.own }
        ensures { result ≡ has_line client self.now.lines.items }
    {
        self.own[client] > 0
    }

    /// The lines.
    pub fn into_lines(self) -> Vec<Line<Op, DocChange>>
        ensures { result.items ≡ self.lines.items }
    {
        let Earlier {
            lines,
            composed,
            answered,
            cursors,
            own,
        } = self;
        drop(composed);
        drop(answered);
        drop(cursors);
        drop(own);
        lines
    }

    /// Adds the next line.
    pub fn add(&mut self, line: Line<Op, DocChange>) -> Result<(), AllocError>
        requires composed { line.client < vec_len self.old.composed }
        requires answered { line.client < vec_len self.old.answered }
        requires cursors { line.client < vec_len self.old.cursors }
        requires own { line.client < vec_len self.old.own }
        requires few { vec_len self.old.lines < 2 ^ 32 }
        ensures ok { OnOk result (self.new.lines.items ≡ self.old.lines.items ++ line ∷ []) }
        ensures len { OnOk result (vec_len self.new.lines ≡ vec_len self.old.lines + 1) }
        ensures composed { vec_len self.new.composed ≡ vec_len self.old.composed }
        ensures answered { vec_len self.new.answered ≡ vec_len self.old.answered }
        ensures cursors { vec_len self.new.cursors ≡ vec_len self.old.cursors }
        ensures own { vec_len self.new.own ≡ vec_len self.old.own }
    {
        let client = line.client as usize;
        let composes = line.act.composes();
        let answers = line.act.answers();
        let sets = line.act.sets_cursor();
        self.lines.push(line)?;
        count(&mut self.composed, client, composes);
        count(&mut self.answered, client, answers);
        count(&mut self.cursors, client, sets);
        count(&mut self.own, client, true);
        Ok(())
    }
}

/// One more for a client, where the test holds.
fn count(counts: &mut Vec<u64>, client: usize, more: bool)
    requires within { client < vec_len counts.old }
    requires small { slice_index counts.old.items client < 2 ^ 32 }
    ensures counted { counts.new.items ≡ (if more then slice_set counts.old.items client (slice_index counts.old.items client + 1) else counts.old.items) }
    ensures len { vec_len counts.new ≡ vec_len counts.old }
{
    if more {
        counts[client] += 1;
    }
}
