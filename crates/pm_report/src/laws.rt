//! The law of a log. The call does nothing; its contract is the law.
ghost use Rattle.pm_report.specs.Stored.{LogIsStorable};

use pm_schema::Schema;

/// Each step of an authority's log can be written as text, and the text is read back as this step (`back` of `step_text`). It
/// holds of each authority that `present` keeps, and so of the log of each room of each session.
pub fn log_can_be_written(schema: &Schema)
    ensures { LogIsStorable schema.now }
{
    let _ = schema;
}
