//! The lines behind which a document stands as it is.
ghost use Rattle.std.specs.Prelude.{◌≡◌, ◌++◌, false, IfOk, OnOk, string_bytes};
ghost use Rattle.pm_archive.specs.Lines.{all_ids, open_front, open_line, submit_front, submit_line, submit_lines, archive_lines};

use crate::archive::Archive;
use crate::writing::push_item;
use pm_apply::DocChange;
use pm_authority::Named;
use pm_doctext::push_document;
use pm_stepjson::step_text;
use pm_talk::ClientIds;
use std::alloc::{AllocError, Global};

impl Archive {
    /// The lines that make the document what it is in a house that has its schema and not it, each with its LF: one that opens it at its
    /// first kept version, with the document as it was then and the IDs of its clients, and one for each entry of its log, which
    /// submits it. The error is running out of memory.
    #[tactic(auto, unfolding(crate::specs::Lines::archive_lines))]
    pub fn lines(&self, alloc: Global) -> Result<String, AllocError>
        ensures { IfOk result (λ s. string_bytes s ≡ archive_lines self.now) }
    {
        let mut text = self.open_line(alloc)?;
        self.push_submit_lines(alloc, &mut text)?;
        Ok(text)
    }

    /// The line that opens it.
    #[tactic(auto, unfolding(crate::specs::Lines::open_line))]
    fn open_line(&self, alloc: Global) -> Result<String, AllocError>
        ensures { IfOk result (λ s. string_bytes s ≡ open_line self.now) }
    {
        let mut text = open_front(alloc, self.name.as_str(), self.kind.as_str(), self.from)?;
        push_all_ids(&mut text, &self.ids)?;
        text.push_str(",\"doc\":")?;
        push_document(alloc, self.schema.get(), &mut text, &self.first)?;
        text.push_str("}\n")?;
        Ok(text)
    }

    /// Appends the lines that submit the entries of its log.
    fn push_submit_lines(&self, alloc: Global, text: &mut String) -> Result<(), AllocError>
        ensures { OnOk result (string_bytes text.new ≡ string_bytes text.old ++ submit_lines self.now.schema.spec self.now.name self.now.ids self.now.from self.now.log) }
    {
        let from = u64::from(self.from);
        for (i, entry) in self.log.as_slice().iter().enumerate() {
            self.push_submit_line(alloc, text, from + i as u64, entry)?;
        }
        Ok(())
    }

    /// Appends the line that submits an entry at the version.
    fn push_submit_line(
        &self,
        alloc: Global,
        text: &mut String,
        version: u64,
        entry: &Named<DocChange>,
    ) -> Result<(), AllocError>
        ensures { OnOk result (string_bytes text.new ≡ string_bytes text.old ++ submit_line self.now.schema.spec self.now.name self.now.ids version entry.now) }
    {
        let id = self.ids.id(entry.name.client as usize);
        push_submit_front(text, self.name.as_str(), version, id)?;
        let step = step_text(alloc, self.schema.get(), entry.change.step())?;
        text.push_str(step.as_str())?;
        text.push_str("]}\n")
    }
}

/// What opens a document of this name and schema at the version, up to its IDs.
fn open_front(alloc: Global, name: &str, kind: &str, from: u32) -> Result<String, AllocError>
    ensures { IfOk result (λ s. string_bytes s ≡ open_front name.now kind.now from) }
{
    format!(in alloc;
        "{{\"op\":\"open\",\"in\":\"{name}\",\"schema\":\"{kind}\",\"version\":{from},\"clientIDs\":["
    )
}

/// Appends what submits a step of this client at the version, up to the step.
fn push_submit_front(
    text: &mut String,
    name: &str,
    version: u64,
    id: &str,
) -> Result<(), AllocError>
    ensures { OnOk result (string_bytes text.new ≡ string_bytes text.old ++ submit_front name.now version id.now) }
{
    write!(
        text,
        "{{\"op\":\"submit\",\"in\":\"{name}\",\"version\":{version},\"clientID\":{id},\"steps\":["
    )
}

/// Appends all IDs, and the end of their list.
fn push_all_ids(text: &mut String, ids: &ClientIds) -> Result<(), AllocError>
    ensures { OnOk result (string_bytes text.new ≡ string_bytes text.old ++ all_ids false ids.now) }
{
    let mut later = false;
    for i in 0..ids.len() {
        push_item(text, later, ids.id(i))?;
        later = true;
    }
    text.push_str("]")
}
