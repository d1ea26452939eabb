//! Laws of what the first three lines write. The calls do nothing; their contracts are the laws.
ghost use Rattle.serde_json.specs.View.{view};
ghost use Rattle.pm_head.specs.Laws.{SchemaExcludesFault, HasOneCode};
ghost use Rattle.pm_head.specs.Lines.{lines_of};
ghost use Rattle.pm_head.specs.OneMeaning.{HeadExcludesRefusal, HasOneRefusal, HasOneHead};

use serde_json::Value;

/// A JSON value that writes a schema has no fault, and the code of the first fault of any other is one.
pub fn schema_means_one(json: &Value)
    ensures apart { SchemaExcludesFault (view json.now) }
    ensures one { HasOneCode (view json.now) }
{
    let _ = json;
}

/// The first three lines of an input are, in each form of files, a head or are refused, and either is one: the refusal with its
/// line and code, and the head with its types, its document and its clients.
pub fn head_means_one(input: &[u8])
    ensures apart { HeadExcludesRefusal (lines_of input.now) }
    ensures one_refusal { HasOneRefusal (lines_of input.now) }
    ensures one_head { HasOneHead (lines_of input.now) }
{
    let _ = input;
}
