//! Whether a line is more work than a limit.
ghost use Rattle.std.specs.Prelude.{◌≡◌, IfOk, Ok, codes};
ghost use Rattle.serde_json.specs.View.{view};
ghost use Rattle.pm_opjson.specs.Fields.{text_in};
ghost use Rattle.pm_order.specs.Words.{word_in};
ghost use Rattle.pm_order.specs.Wishes.{wish_in};
ghost use Rattle.pm_house.specs.Limits.{is_over, is_over_at, is_over_in, is_over_by};

use crate::house::House;
use pm_archive::Archive;
use pm_head::LineError;
use pm_opjson::text_in;
use pm_order::{DocWord, Wish, Word, wish_in, word_in};
use pm_talk::works;
use serde_json::Value;
use std::alloc::{AllocError, Global};

impl House {
    /// Whether a value submits steps to an open document that go over more than `limit` tokens together. For that they are read, and
    /// once more where they are submitted.
    pub(crate) fn is_over(
        &self,
        alloc: Global,
        limit: u64,
        json: &Value,
    ) -> Result<bool, AllocError>
        ensures { IfOk result (λ over. over ≡ is_over_by limit self.now (view json.now) (word_in (view json.now))) }
    {
        match word_in(json) {
            Ok(word) => self.is_over_by(alloc, limit, word, json),
            Err(LineError::Code(_)) => Ok(false),
            Err(LineError::NoMemory) => Err(AllocError),
        }
    }

    /// The same of a value with this word.
    fn is_over_by(
        &self,
        alloc: Global,
        limit: u64,
        word: Word,
        json: &Value,
    ) -> Result<bool, AllocError>
        ensures { IfOk result (λ over. over ≡ is_over_by limit self.now (view json.now) (Ok word)) }
    {
        match word {
            Word::In(word) => self.is_over_in(alloc, limit, word, json),
            Word::Schema | Word::Open | Word::Close | Word::Documents | Word::Statistics => {
                Ok(false)
            }
        }
    }

    /// The same of a value that speaks to one document.
    fn is_over_in(
        &self,
        alloc: Global,
        limit: u64,
        word: DocWord,
        json: &Value,
    ) -> Result<bool, AllocError>
        ensures { IfOk result (λ over. over ≡ is_over_in limit self.now word (view json.now) (text_in (codes "in") (view json.now))) }
    {
        match text_in(json, "in") {
            Ok(name) => self.is_over_at(alloc, limit, self.documents.place(name), word, json),
            Err(LineError::Code(_)) => Ok(false),
            Err(LineError::NoMemory) => Err(AllocError),
        }
    }

    /// The same of the document at the place, if there is one.
    fn is_over_at(
        &self,
        alloc: Global,
        limit: u64,
        place: Option<usize>,
        word: DocWord,
        json: &Value,
    ) -> Result<bool, AllocError>
        ensures { IfOk result (λ over. over ≡ is_over_at limit self.now word (view json.now) place) }
    {
        match place {
            Some(place) => match self.documents.as_slice().get(place) {
                Some(archive) => is_over_for(alloc, limit, archive, word, json),
                None => Ok(false),
            },
            None => Ok(false),
        }
    }
}

/// The same of this document.
fn is_over_for(
    alloc: Global,
    limit: u64,
    archive: &Archive,
    word: DocWord,
    json: &Value,
) -> Result<bool, AllocError>
    ensures { IfOk result (λ over. over ≡ is_over limit (wish_in archive.now.schema.spec word (view json.now))) }
{
    match wish_in(alloc, archive.schema.get(), word, json) {
        Ok(wish) => Ok(is_over(limit, &wish)),
        Err(LineError::Code(_)) => Ok(false),
        Err(LineError::NoMemory) => Err(AllocError),
    }
}

/// Whether what is asked is to submit steps that go over more tokens.
fn is_over(limit: u64, wish: &Wish) -> bool
    ensures { result ≡ is_over limit (Ok wish.now) }
{
    match wish {
        Wish::Submit { steps, .. } => limit < works(steps.as_slice()),
        Wish::Since { .. }
        | Wish::Doc { .. }
        | Wish::Forget { .. }
        | Wish::Map { .. }
        | Wish::Revert { .. }
        | Wish::Edit { .. }
        | Wish::Authors { .. } => false,
    }
}
