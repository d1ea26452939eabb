//! Schemas that get names, and documents that are opened.
ghost use Rattle.std.specs.Prelude.{◌≡◌, ◌≤◌, ◌<◌, false, None, length, All, IfOk, OnOk, OnErr, string_bytes};
ghost use Rattle.std.specs.List.{list_any};
ghost use Rattle.std.specs.Str.{bytes_eq};
ghost use Rattle.serde_json.specs.View.{view};
ghost use Rattle.pm_order.specs.Openings.{opening_in};
ghost use Rattle.pm_house.specs.declared.house.TheConstants.{MAX_SCHEMAS, MAX_DOCUMENTS};
ghost use Rattle.pm_house.specs.Found.{names_of, kind_of};
ghost use Rattle.pm_house.specs.Houses.{IsGood};
ghost use Rattle.pm_house.specs.Replies.{Names, NamesBy, OpensBy, Opens, DocumentHeard};

use crate::house::{House, MAX_DOCUMENTS, MAX_SCHEMAS, faulty};
use crate::kind::{Kind, kind_named};
use crate::texts::{Lack, lack_text, named_text};
use pm_archive::{Archive, Shared, opened_text};
use pm_head::{Code, LineError};
use pm_order::{Naming, Opening, document_in, naming_in, opening_in, schema_in};
use pm_talk::fault_text;
use serde_json::Value;
use std::alloc::{AllocError, Global};

impl House {
    /// Gives a schema a name.
    pub(crate) fn name_schema(&mut self, alloc: Global, json: &Value) -> Result<String, AllocError>
        requires { IsGood self.old }
        ensures told { IfOk result (λ s. Names self.old (view json.now) (string_bytes s) self.new) }
        ensures err { OnErr result (self.new ≡ self.old) }
        ensures good { IsGood self.new }
    {
        match naming_in(alloc, json) {
            Ok(naming) => match kind_named(self.schemas.as_slice(), naming.name.as_str()) {
                Some(kind) => named_again(alloc, &naming, kind),
                None => self.add_schema(alloc, naming, json),
            },
            Err(error) => faulty(alloc, error),
        }
    }

    /// Gives a schema this name, which no schema has.
    fn add_schema(
        &mut self,
        alloc: Global,
        naming: Naming,
        json: &Value,
    ) -> Result<String, AllocError>
        requires { IsGood self.old }
        ensures told { IfOk result (λ s. NamesBy self.old (view json.now) naming None (string_bytes s) self.new) }
        ensures err { OnErr result (self.new ≡ self.old) }
        ensures good { IsGood self.new }
    {
        if self.schemas.len() >= MAX_SCHEMAS {
            return lack_text(alloc, Lack::Room);
        }
        let Naming { name, text } = naming;
        match schema_in(alloc, json) {
            Ok(schema) => {
                let answer = named_text(alloc, name.as_str())?;
                let schema = Shared::new(alloc, schema)?;
                self.schemas.push(Kind { name, text, schema })?;
                Ok(answer)
            }
            Err(error) => faulty(alloc, error),
        }
    }

    /// Opens a document.
    pub(crate) fn open(&mut self, alloc: Global, json: &Value) -> Result<String, AllocError>
        requires { IsGood self.old }
        ensures told { IfOk result (λ s. Opens self.old (view json.now) (opening_in (view json.now)) (string_bytes s) self.new) }
        ensures err { OnErr result (self.new ≡ self.old) }
        ensures good { IsGood self.new }
    {
        match opening_in(alloc, json) {
            Ok(opening) => match self.documents.place(opening.name.as_str()) {
                Some(_) => lack_text(alloc, Lack::Closed),
                None => self.open_new(alloc, opening, json),
            },
            Err(error) => faulty(alloc, error),
        }
    }

    /// Opens a document that is not open.
    fn open_new(
        &mut self,
        alloc: Global,
        opening: Opening,
        json: &Value,
    ) -> Result<String, AllocError>
        requires good { IsGood self.old }
        requires new { list_any (bytes_eq opening.name) (names_of self.old.documents) ≡ false }
        ensures told { IfOk result (λ s. OpensBy self.old (view json.now) opening (kind_of opening.kind self.old.schemas) (string_bytes s) self.new) }
        ensures err { OnErr result (self.new ≡ self.old) }
        ensures good { IsGood self.new }
    {
        match kind_named(self.schemas.as_slice(), opening.kind.as_str()) {
            Some(kind) => {
                if self.documents.as_slice().len() >= MAX_DOCUMENTS {
                    return lack_text(alloc, Lack::Room);
                }
                let Heard { text, archive } = hear_document(alloc, kind, opening, json)?;
                match archive {
                    Some(archive) => {
                        self.documents.add(alloc, archive)?;
                        Ok(text)
                    }
                    None => Ok(text),
                }
            }
            None => lack_text(alloc, Lack::Schema),
        }
    }
}

ghost use Rattle.pm_house.specs.Replies.{named_again};

/// The answer where the name is a schema's already. A known name has one schema, told by a text of it.
fn named_again(alloc: Global, naming: &Naming, kind: &Kind) -> Result<String, AllocError>
    ensures { IfOk result (λ s. string_bytes s ≡ named_again naming.now kind.now) }
{
    if kind.text.as_str() == naming.text.as_str() {
        named_text(alloc, naming.name.as_str())
    } else {
        fault_text(alloc, Code::BadRooms)
    }
}

/// What is opened: the answer, and the document where it is one.
#[derive(Drop)]
struct Heard {
    text: String,
    archive: Option<Archive>,
}

/// Reads the document that is opened.
fn hear_document(
    alloc: Global,
    kind: &Kind,
    opening: Opening,
    json: &Value,
) -> Result<Heard, AllocError>
    ensures { IfOk result (λ h. DocumentHeard kind.now opening (view json.now) (string_bytes h.text) h.archive) }
{
    let Opening {
        name,
        kind: kind_name,
        version,
        ids,
    } = opening;
    match document_in(alloc, kind.schema.get(), json) {
        Ok(doc) => {
            let text = opened_text(alloc, doc.size(), version)?;
            let schema = kind.schema.share()?;
            let archive = Archive::open(alloc, name, kind_name, schema, version, doc, ids)?;
            Ok(Heard {
                text,
                archive: Some(archive),
            })
        }
        Err(LineError::Code(code)) => Ok(Heard {
            text: fault_text(alloc, code)?,
            archive: None,
        }),
        Err(LineError::NoMemory) => Err(AllocError),
    }
}
