//! A step of the timeline, as a history keeps it.
ghost use Rattle.std.specs.Prelude.{◌≡◌, ◌<◌, ◌^◌, [], None, Some, IfOk, IfSome};
ghost use Rattle.pm_map.specs.declared.side.Side.{Side};
ghost use Rattle.pm_map.specs.Moves.{moved, kept_at};
ghost use Rattle.pm_map.specs.Through.{IsIn};
ghost use Rattle.pm_history.specs.Items.{one_step, foreign_item, brings_back};

use crate::form::{Form, NOT_HELD, Whole, held, ranged, restores, small, span_of};
use crate::ranges::{passed_by, shifted};
use pm_change::Name;
use pm_list::Listed;
use pm_map::{Moved, Side, StepMap};
use std::alloc::{AllocError, Global};
use std::marker::Model;

/// A step of the timeline. `name`: its name, None for a step of another client. `map`: its map. `inverse`: the changes that
/// undo it, made one after another right after it; a foreign step has none. `undoes`: the name of the own step that it was
/// made to undo. Most steps of a long timeline are others' with at most one range: such an item takes no memory of its own.
/// ProseMirror: `Item`.
#[derive(Drop)]
pub struct Item<C> {
    form: Form<C>,
}

impl<C> Model for Item<C> {
    ghost use Rattle.pm_history.specs.Kept.{Kept};

    ghost Value = { Kept C };

    ghost use Rattle.pm_history.specs.Forms.{seen, Holds};

    ghost view = { λ i. seen i.form };

    ghost invariant = { λ i. Holds i.form };
}

impl<C> Item<C> {
    /// The item of another client's step.
    pub fn foreign(alloc: Global, map: StepMap) -> Result<Item<C>, AllocError>
    where
        C: Drop,
        ensures { IfOk result (λ i. i ≡ foreign_item map) }
    {
        if let Some(form) = small(&map) {
            return Ok(Item { form });
        }
        let whole = Whole {
            name: None,
            map,
            inverse: Listed::new(alloc),
            undoes: None,
        };
        Ok(Item {
            form: held(alloc, whole)?,
        })
    }

    /// The item of an own step. `inverse`: the changes that undo it, and `undoes`: the step that it was made to undo.
    pub fn own(
        alloc: Global,
        name: Name,
        map: StepMap,
        inverse: Listed<C>,
        undoes: Option<Name>,
    ) -> Result<Item<C>, AllocError>
    where
        C: Drop,
        ensures { IfOk result (λ i. i ≡ record { name = Some name; map = map; inverse = inverse; undoes = undoes }) }
    {
        let whole = Whole {
            name: Some(name),
            map,
            inverse,
            undoes,
        };
        Ok(Item {
            form: held(alloc, whole)?,
        })
    }

    /// The name of the step; None for a step of another client.
    pub fn name(&self) -> Option<Name>
        ensures { result ≡ self.now.name }
    {
        match &self.form {
            Form::Whole { whole, .. } => whole.name,
            _ => None,
        }
    }

    /// The map of the step.
    pub fn map(&self) -> StepMap
        ensures { result ≡ self.now.map }
    {
        match &self.form {
            Form::Still => StepMap::new(None, None, false),
            Form::Ranged {
                start,
                old_size,
                new_size,
            } => ranged(*start, *old_size, *new_size),
            Form::Whole { whole, .. } => whole.map.copy(),
        }
    }

    /// Where the position `pos`, in tokens, goes over the map of the step, as `StepMap::map` says it.
    pub(crate) fn moved(&self, pos: u64, side: Side) -> Moved
        requires { (moved self.now.map pos side).pos < 2 ^ 64 }
        ensures moved { result ≡ moved self.now.map pos side }
        ensures back { IfSome result.recover (IsIn self.now.map) }
    {
        self.map().map(pos, side)
    }

    /// Where a position goes that stands before or after all ranges of the step, as most do. None where this is not seen at
    /// once.
    pub(crate) fn passed(&self, pos: u64) -> Option<u64>
        requires { ((side : Side) × ((moved self.now.map pos side).pos < 2 ^ 64)) }
        ensures { IfSome result (λ p. (side : Side) → moved self.now.map pos side ≡ kept_at p) }
    {
        match &self.form {
            Form::Still => Some(pos),
            Form::Ranged {
                start,
                old_size,
                new_size,
            } => shifted(span_of(*start, *old_size, *new_size), pos),
            Form::Whole {
                old_size,
                new_size,
                start,
                whole,
                ..
            } => {
                if pos < *start as u64 {
                    Some(pos)
                } else if *old_size != NOT_HELD {
                    shifted(span_of(*start, *old_size as u32, *new_size as u32), pos)
                } else {
                    passed_by(&whole.map, pos)
                }
            }
        }
    }

    /// The changes that undo the step, to be made one after another right after it. A foreign step has none.
    pub fn inverse(&self) -> &[C]
        ensures { result.now ≡ self.now.inverse }
    {
        match &self.form {
            Form::Whole { whole, .. } => whole.inverse.as_slice(),
            _ => &[],
        }
    }

    /// The name of the own step that this one was made to undo.
    pub fn undoes(&self) -> Option<Name>
        ensures { result ≡ self.now.undoes }
    {
        match &self.form {
            Form::Whole { whole, .. } => whole.undoes,
            _ => None,
        }
    }

    /// Whether the step was made to undo another and puts tokens in.
    pub(crate) fn brings_back(&self) -> bool
        ensures { result ≡ brings_back self.now }
    {
        match &self.form {
            Form::Whole { brings_back, .. } => *brings_back,
            _ => false,
        }
    }

    /// Lets the changes that undo the step go.
    pub(crate) fn forget(&mut self, alloc: Global)
    where
        C: Drop,
        ensures { self.new ≡ record self.old { inverse = [] } }
    {
        if let Form::Whole { whole, .. } = &mut self.form {
            whole.inverse = Listed::new(alloc);
        }
    }

    /// From now on it was made to undo this step. Another's step undoes none.
    pub(crate) fn tie(&mut self, undoes: Option<Name>)
        requires { self.old.name ≡ None → undoes ≡ None }
        ensures { self.new ≡ record self.old { undoes = undoes } }
    {
        if let Form::Whole {
            brings_back,
            whole,
            ..
        } = &mut self.form
        {
            *brings_back = restores(undoes, &whole.map);
            whole.undoes = undoes;
        }
    }
}

/// Whether these are names of one step.
pub fn one_step(a: Option<Name>, b: Option<Name>) -> bool
    ensures { result ≡ one_step a b }
{
    match (a, b) {
        (Some(n), Some(m)) => n.client == m.client && n.serial == m.serial,
        _ => false,
    }
}
