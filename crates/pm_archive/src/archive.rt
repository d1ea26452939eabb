//! A document with its log.
ghost use Rattle.std.specs.Prelude.{◌≡◌, IfOk, OnOk};
ghost use Rattle.pm_tokens.specs.Faults.{Valid};
ghost use Rattle.pm_schema.specs.Documents.{documents_of};
ghost use Rattle.pm_archive.specs.Archives.{IsArchive, opened, version_of};

use crate::shared::Shared;
use pm_apply::DocChange;
use pm_authority::Named;
use pm_list::Listed;
use pm_node::Document;
use pm_talk::ClientIds;
use pm_value::Text;
use std::alloc::{AllocError, Global};

/// A document with its log: its name and that of its schema, the schema, the first kept version and the document at it, the
/// document after the log, the log from that version on, and the IDs of the clients whose steps were accepted.
#[derive(Drop)]
pub struct Archive {
    pub name: Text,
    pub kind: Text,
    pub schema: Shared,
    pub from: u32,
    pub first: Document,
    pub doc: Document,
    pub log: Listed<Named<DocChange>>,
    pub ids: ClientIds,
}

impl Archive {
    /// A document whose log begins at the version, and is empty, with the IDs of the clients that came before.
    pub fn open(
        alloc: Global,
        name: Text,
        kind: Text,
        schema: Shared,
        version: u32,
        doc: Document,
        ids: ClientIds,
    ) -> Result<Archive, AllocError>
        requires { Valid (documents_of schema.spec) doc }
        ensures opened { IfOk result (λ a. a ≡ opened name kind schema version doc ids) }
        ensures good { IfOk result IsArchive }
    {
        Ok(Archive {
            name,
            kind,
            schema,
            from: version,
            first: doc.copy()?,
            doc,
            log: Listed::new(alloc),
            ids,
        })
    }

    /// The version of the document: the number of all steps that were ever accepted.
    pub fn version(&self) -> u64
        ensures { result ≡ version_of self.now }
    {
        u64::from(self.from) + self.log.as_slice().len() as u64
    }
}
