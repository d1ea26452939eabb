//! The answers that tell how the client stands, and the messages to the authority.
ghost use Rattle.std.specs.Prelude.{◌≡◌, ◌++◌, length, codes, decimal, IfOk, OnOk, string_bytes};
ghost use Rattle.pm_authority.specs.Runs.{changes_of};
ghost use Rattle.pm_editor.specs.Editors.{doc_text, state_text};
ghost use Rattle.pm_told.specs.Texts.{submission_text};

use crate::editor::Editor;
use pm_doctext::push_document;
use pm_told::{changes_of, positions, push_changes, push_numbers};
use std::alloc::{AllocError, Global};

impl Editor {
    /// The message that submits the pending steps.
    pub(crate) fn submission(&self, alloc: Global) -> Result<String, AllocError>
        ensures { IfOk result (λ s. string_bytes s ≡ submission_text self.now.schema.spec self.now.id (changes_of self.now.client.pending) self.now.client.version) }
    {
        let steps = changes_of(alloc, self.client.pending())?;
        let version = self.client.version();
        let mut text = String::new(alloc);
        text.push_str("{\"message\":{\"clientID\":")?;
        text.push_str(self.id.as_str())?;
        text.push_str(",\"op\":\"submit\",\"steps\":")?;
        push_changes(alloc, &self.schema, &mut text, &steps)?;
        write!(text, ",\"version\":{version}}}}}\n")?;
        Ok(text)
    }

    /// The document with the pending steps, and the version.
    pub(crate) fn doc_text(&self, alloc: Global) -> Result<String, AllocError>
        ensures { IfOk result (λ s. string_bytes s ≡ doc_text self.now) }
    {
        let version = self.client.version();
        let mut text = String::new(alloc);
        text.push_str("{\"doc\":")?;
        push_document(alloc, &self.schema, &mut text, self.client.doc())?;
        write!(text, ",\"version\":{version}}}\n")?;
        Ok(text)
    }

    /// How the client stands.
    pub(crate) fn state_text(&self, alloc: Global) -> Result<String, AllocError>
        ensures { IfOk result (λ s. string_bytes s ≡ state_text self.now) }
    {
        let cursors = positions(alloc, self.client.cursors())?;
        let mut text = String::new(alloc);
        text.push_str("{\"clientID\":")?;
        text.push_str(self.id.as_str())?;
        text.push_str(",\"cursors\":")?;
        push_numbers(&mut text, &cursors)?;
        self.push_counts(&mut text)?;
        self.push_sizes(&mut text)?;
        Ok(text)
    }

    /// Appends how many steps are pending, and how many events can be redone.
    fn push_counts(&self, text: &mut String) -> Result<(), AllocError>
        ensures { OnOk result (string_bytes text.new ≡ string_bytes text.old
            ++ (codes ",\"pending\":" ++ (decimal (length self.now.client.pending) ++ (codes ",\"redo\":" ++ decimal (length self.now.client.history.redo))))) }
    {
        let pending = self.client.pending().len();
        let redo = self.client.history().redo_events().len();
        write!(text, ",\"pending\":{pending},\"redo\":{redo}")?;
        Ok(())
    }

    /// Appends the document's size, how many events can be undone, and the version, to the end of the line.
    fn push_sizes(&self, text: &mut String) -> Result<(), AllocError>
        ensures { OnOk result (string_bytes text.new ≡ string_bytes text.old
            ++ (codes ",\"size\":" ++ (decimal (length self.now.client.doc.tokens) ++ (codes ",\"undo\":" ++ (decimal (length self.now.client.history.undo)
            ++ (codes ",\"version\":" ++ (decimal self.now.client.version ++ codes "}\n"))))))) }
    {
        let size = self.client.doc().size();
        let undo = self.client.history().undo_events().len();
        let version = self.client.version();
        write!(text, ",\"size\":{size},\"undo\":{undo}")?;
        write!(text, ",\"version\":{version}}}\n")?;
        Ok(())
    }
}
