//! Sets of marks.
ghost use Rattle.std.specs.Prelude.{◌≡◌, ◌↔◌, ◌≤◌, length, List, Bool, [], nat_lt, IsTrue, IfOk, OnOk, IsErrOf};
ghost use Rattle.std.specs.List.{AllPairs, position};
ghost use Rattle.pm_marks.specs.Sets.{same_marks, has, removed, keeps_out, kept, rank_place, added, all_added, IsSet};
ghost use Rattle.pm_marks.specs.Together.{StandsBefore};

use crate::fault::SetError;
use crate::mark::Mark;
use crate::rules::MarkRules;
use crate::same::Same;
use std::alloc::{AllocError, Global};
use std::marker::Model;

/// Marks in the order of their ranks, where they were added by one schema's rules. A contract sees the list of the marks.
#[derive(Drop, Debug)]
pub struct MarkSet<A> {
    marks: Vec<Mark<A>>,
}

impl<A> Model for MarkSet<A> {
    ghost use Rattle.std.specs.Prelude.{List};
    ghost use Rattle.pm_marks.specs.declared.mark.Mark.{Mark};

    ghost Value = { List (Mark A) };

    ghost view = { λ s. s.marks.items };
}

impl<A: Same> MarkSet<A> {
    /// The set without marks. It takes no memory.
    pub fn empty(alloc: Global) -> MarkSet<A>
        ensures { result ≡ [] }
    {
        MarkSet {
            marks: Vec::new(alloc),
        }
    }

    /// The marks in order. It takes no memory.
    pub fn marks(&self) -> &[Mark<A>]
        ensures { result.now ≡ self.now }
    {
        self.marks.as_slice()
    }

    /// Whether the same mark is in the set, of one type and with equal attributes. It takes no memory.
    /// ProseMirror: `Mark.isInSet`.
    pub fn has(&self, mark: &Mark<A>) -> bool
        ensures { result ≡ has A.equal self.now mark.now }
    {
        self.marks.iter().any(|m| m.same(mark))
    }

    /// The set with `mark` added. Where the same mark is there, the set stays. Else, where a mark that `mark` does not
    /// exclude excludes `mark`, the set stays. Else the marks that `mark` excludes go, and it is put before the first
    /// mark of higher rank, or last. Adding it once more would change nothing, and a valid set stays valid.
    /// ProseMirror: `Mark.addToSet`.
    pub fn add(
        &self,
        alloc: Global,
        rules: &MarkRules,
        mark: &Mark<A>,
    ) -> Result<MarkSet<A>, AllocError>
        ensures added { IfOk result (λ s. s ≡ added A.equal rules.now self.now mark.now) }
        ensures once { IfOk result (λ s. added A.equal rules.now s mark.now ≡ s) }
        ensures valid { IsSet A.equal rules.now self.now → IfOk result (λ s. IsSet A.equal rules.now s) }
    {
        self.with_mark(alloc, rules, mark)
    }

    #[tactic(auto, unfolding(crate::specs::Sets::added))]
    fn with_mark(
        &self,
        alloc: Global,
        rules: &MarkRules,
        mark: &Mark<A>,
    ) -> Result<MarkSet<A>, AllocError>
        ensures { IfOk result (λ s. s ≡ added A.equal rules.now self.now mark.now) }
    {
        if self.has(mark) || self.keeps_out(rules, mark) {
            return self.copy(alloc);
        }
        let mut marks = self.kept(alloc, rules, mark)?;
        let place = rank_place(&marks, mark);
        marks.insert(place, mark.copy(alloc)?)?;
        Ok(MarkSet { marks })
    }

    /// Whether a mark that `mark` does not exclude excludes `mark`.
    fn keeps_out(&self, rules: &MarkRules, mark: &Mark<A>) -> bool
        ensures { result ≡ keeps_out rules.now self.now mark.now }
    {
        self.marks.iter().any(|m| rules.excludes(m.kind, mark.kind)
            && !rules.excludes(mark.kind, m.kind))
    }

    /// Copies of the marks that `mark` does not exclude.
    fn kept(
        &self,
        alloc: Global,
        rules: &MarkRules,
        mark: &Mark<A>,
    ) -> Result<Vec<Mark<A>>, AllocError>
        ensures { IfOk result (λ v. v.items ≡ kept rules.now self.now mark.now) }
    {
        let mut marks = Vec::new(alloc);
        for m in self.marks() {
            if !rules.excludes(mark.kind, m.kind) {
                marks.push(m.copy(alloc)?)?;
            }
        }
        Ok(marks)
    }

    /// The set without `mark`. A valid set stays valid.
    /// ProseMirror: `Mark.removeFromSet`.
    pub fn remove(&self, alloc: Global, mark: &Mark<A>) -> Result<MarkSet<A>, AllocError>
        ensures removed { IfOk result (λ s. s ≡ removed A.equal self.now mark.now) }
        ensures valid { (table : List (List Bool)) → IsSet A.equal table self.now → IfOk result (λ s. IsSet A.equal table s) }
    {
        self.without_mark(alloc, mark)
    }

    fn without_mark(&self, alloc: Global, mark: &Mark<A>) -> Result<MarkSet<A>, AllocError>
        ensures { IfOk result (λ s. s ≡ removed A.equal self.now mark.now) }
    {
        let mut marks = Vec::new(alloc);
        for m in self.marks() {
            if !m.same(mark) {
                marks.push(m.copy(alloc)?)?;
            }
        }
        Ok(MarkSet { marks })
    }

    /// The set of these marks. `NotASet` comes exactly where adding them in order to the empty set does not give the
    /// list back. In a set each mark stands before the later ones by its rank, and none excludes another.
    pub fn from_list(
        alloc: Global,
        rules: &MarkRules,
        marks: Vec<Mark<A>>,
    ) -> Result<MarkSet<A>, SetError>
        ensures list { IfOk result (λ s. s ≡ marks.items) }
        ensures set { OnOk result (IsSet A.equal rules.now marks.items) }
        ensures not_a_set { IsErrOf result SetError.NotASet → ¬ IsSet A.equal rules.now marks.items }
        ensures together { OnOk result (AllPairs (StandsBefore rules.now) marks.items) }
    {
        let mut set = MarkSet::empty(alloc);
        for mark in &marks {
            set = set.add(alloc, rules, mark)?;
        }
        let given = MarkSet { marks };
        if set.same(&given) {
            Ok(given)
        } else {
            Err(SetError::NotASet)
        }
    }

    /// Whether both sets have the same marks in the same order. It takes no memory.
    /// ProseMirror: `Mark.sameSet`.
    pub fn same(&self, other: &MarkSet<A>) -> bool
        ensures same { result ≡ same_marks A.equal self.now other.now }
        ensures equality { IsTrue result ↔ (self.now ≡ other.now) }
    {
        same_marks(self.marks(), other.marks())
    }

    /// A set equal to this one.
    pub fn copy(&self, alloc: Global) -> Result<MarkSet<A>, AllocError>
        ensures { IfOk result (λ s. s ≡ self.now) }
    {
        let mut marks = Vec::new(alloc);
        for m in self.marks() {
            marks.push(m.copy(alloc)?)?;
        }
        Ok(MarkSet { marks })
    }
}

/// The place of the first mark of higher rank than `mark`, or the number of the marks.
fn rank_place<A>(marks: &[Mark<A>], mark: &Mark<A>) -> usize
    ensures place { result ≡ rank_place marks.now mark.now }
    ensures bound { result ≤ length marks.now }
{
    match first_higher(marks, mark) {
        Some(place) => place,
        None => marks.len(),
    }
}

fn first_higher<A>(marks: &[Mark<A>], mark: &Mark<A>) -> Option<usize>
    ensures { result ≡ position (λ m. nat_lt mark.now.kind m.kind) marks.now }
{
    marks.iter().position(|m| mark.kind < m.kind)
}

fn same_marks<A: Same>(left: &[Mark<A>], right: &[Mark<A>]) -> bool
    ensures { result ≡ same_marks A.equal left.now right.now }
{
    if left.len() != right.len() {
        return false;
    }
    for i in 0..left.len() {
        if !left[i].same(&right[i]) {
            return false;
        }
    }
    true
}
