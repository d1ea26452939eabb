//! The house.
ghost use Rattle.std.specs.Prelude.{◌≡◌, ◌≤◌, length, All, IfOk, OnOk, OnErr, string_bytes};
ghost use Rattle.serde_json.specs.View.{view};
ghost use Rattle.pm_house.specs.Houses.{IsGood, empty};
ghost use Rattle.pm_house.specs.Replies.{Replies, OfValue, ByWord, Are, within, closes};
ghost use Rattle.pm_house.specs.Texts.{statistics_text};
ghost use Rattle.pm_opjson.specs.Fields.{text_in};
ghost use Rattle.std.specs.Prelude.{codes};

use crate::documents::Documents;
use crate::kind::Kind;
use crate::texts::{Lack, closed_text, lack_text};
use crate::writing::{documents_text, statistics_text};
use pm_head::{LineError, json_line};
use pm_list::Listed;
use pm_opjson::text_in;
use pm_order::{DocWord, Word, word_in};
use pm_talk::fault_text;
use serde_json::Value;
use std::alloc::{AllocError, Global};

/// The greatest number of schemas.
pub(crate) const MAX_SCHEMAS: usize = 1_024;

/// The greatest number of open documents.
pub(crate) const MAX_DOCUMENTS: usize = 65_536;

/// A house: the schemas that have names, and the open documents.
#[derive(Drop)]
pub struct House {
    pub schemas: Listed<Kind>,
    pub documents: Documents,
}

impl House {
    /// No schemas and no documents. It takes no memory.
    pub fn new(alloc: Global) -> House
        ensures empty { result ≡ empty }
        ensures good { IsGood result }
    {
        House {
            schemas: Listed::new(alloc),
            documents: Documents::new(alloc),
        }
    }

    /// The answer to a line. A line with a fault changes nothing, and out of memory nothing changes either.
    pub fn tell(&mut self, alloc: Global, line: &[u8]) -> Result<String, AllocError>
        requires { IsGood self.old }
        ensures told { IfOk result (λ s. Replies self.old line.now (string_bytes s) self.new) }
        ensures err { OnErr result (self.new ≡ self.old) }
        ensures good { IsGood self.new }
    {
        match json_line(alloc, line) {
            Ok(json) => self.answer(alloc, &json),
            Err(error) => faulty(alloc, error),
        }
    }

    /// The answer to a value.
    pub(crate) fn answer(&mut self, alloc: Global, json: &Value) -> Result<String, AllocError>
        requires { IsGood self.old }
        ensures told { IfOk result (λ s. OfValue self.old (view json.now) (string_bytes s) self.new) }
        ensures err { OnErr result (self.new ≡ self.old) }
        ensures good { IsGood self.new }
    {
        match word_in(json) {
            Ok(word) => self.by_word(alloc, word, json),
            Err(error) => faulty(alloc, error),
        }
    }

    /// The answer to a value with this word.
    fn by_word(&mut self, alloc: Global, word: Word, json: &Value) -> Result<String, AllocError>
        requires { IsGood self.old }
        ensures told { IfOk result (λ s. ByWord self.old (view json.now) word (string_bytes s) self.new) }
        ensures err { OnErr result (self.new ≡ self.old) }
        ensures good { IsGood self.new }
    {
        match word {
            Word::Schema => self.name_schema(alloc, json),
            Word::Open => self.open(alloc, json),
            Word::Close => self.close(alloc, json),
            Word::Documents => documents_text(alloc, self.documents.as_slice()),
            Word::Statistics => self.statistics(alloc),
            Word::In(word) => self.within(alloc, word, json),
        }
    }

    /// How many documents, entries of logs, schemas and tokens there are, as a line.
    pub fn statistics(&self, alloc: Global) -> Result<String, AllocError>
        ensures { IfOk result (λ s. string_bytes s ≡ statistics_text (length self.now.schemas) self.now.documents) }
    {
        statistics_text(alloc, self.schemas.len(), self.documents.as_slice())
    }

    /// The answer of the document that the line names.
    fn within(&mut self, alloc: Global, word: DocWord, json: &Value) -> Result<String, AllocError>
        requires { IsGood self.old }
        ensures told { IfOk result (λ s. Are (within self.old word (view json.now) (text_in (codes "in") (view json.now))) (string_bytes s) self.new) }
        ensures err { OnErr result (self.new ≡ self.old) }
        ensures good { IsGood self.new }
    {
        match text_in(json, "in") {
            Ok(name) => match self.documents.place(name) {
                Some(place) => self.documents.answer(alloc, place, word, json),
                None => lack_text(alloc, Lack::Document),
            },
            Err(error) => faulty(alloc, error),
        }
    }

    /// Closes the document that the line names.
    fn close(&mut self, alloc: Global, json: &Value) -> Result<String, AllocError>
        requires { IsGood self.old }
        ensures told { IfOk result (λ s. Are (closes self.old (text_in (codes "in") (view json.now))) (string_bytes s) self.new) }
        ensures err { OnErr result (self.new ≡ self.old) }
        ensures good { IsGood self.new }
    {
        match text_in(json, "in") {
            Ok(name) => match self.documents.place(name) {
                Some(place) => {
                    let text = closed_text(alloc, name)?;
                    self.documents.remove(place);
                    Ok(text)
                }
                None => lack_text(alloc, Lack::Document),
            },
            Err(error) => faulty(alloc, error),
        }
    }
}

ghost use Rattle.pm_house.specs.Replies.{FaultOf};

/// The answer to a line with this fault; running out of memory has none.
pub(crate) fn faulty(alloc: Global, error: LineError) -> Result<String, AllocError>
    ensures { IfOk result (λ s. FaultOf error (string_bytes s)) }
{
    match error {
        LineError::Code(code) => fault_text(alloc, code),
        LineError::NoMemory => Err(AllocError),
    }
}
