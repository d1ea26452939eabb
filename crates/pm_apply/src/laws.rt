//! Laws of steps that change an attribute. Each call does nothing; its contract is the law.
ghost use Rattle.pm_schema.specs.Documents.{documents_of};
ghost use Rattle.pm_apply.specs.PutsBack.{AttrPutsBack, DocAttrPutsBack};

use pm_schema::Schema;

/// After an attr step its inverse applies, under any schema, and gives the document back: the attribute gets its old value.
pub fn attr_puts_back(schema: &Schema)
    ensures { AttrPutsBack (documents_of schema.now.spec) }
{
    let _ = schema;
}

/// After a docAttr step its inverse applies, under any schema, and gives the document back.
pub fn doc_attr_puts_back(schema: &Schema)
    ensures { DocAttrPutsBack (documents_of schema.now.spec) }
{
    let _ = schema;
}
