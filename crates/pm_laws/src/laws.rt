//! Laws. Each call does nothing; its contract is the law.
ghost use Rattle.std.specs.Prelude.{◌↔◌};
ghost use Rattle.pm_map.specs.Stills.{AreApart};
ghost use Rattle.pm_schema.specs.Documents.{documents_of};
ghost use Rattle.pm_client.specs.TokenNames.{Unpinched};
ghost use Rattle.pm_call.specs.declared.words.Command.TheVariants.{Select};
ghost use Rattle.pm_call.specs.OneOutput.{HasOneOutput};
ghost use Rattle.pm_laws.specs.Contents.{ValidIsOfLanguage, SessionsAreOfLanguage};
ghost use Rattle.pm_laws.specs.Listed.{AllRoomsListed};
ghost use Rattle.pm_laws.specs.Memory.{NeverMemory};
ghost use Rattle.pm_laws.specs.NoneUnknown.{NoneUnknown};
ghost use Rattle.pm_laws.specs.Something.{MeansSomething};
ghost use Rattle.pm_laws.specs.Orders.{OrderFixesRun, OrdersFixRooms};
ghost use Rattle.pm_laws.specs.Splices.{MapsTellTokens};
ghost use Rattle.pm_laws.specs.Unmet.{NoneIsToldUnknown};

use pm_map::StepMap;
use pm_schema::Schema;

/// Whatever a JSON value is, what it is read as is a value, a mark, a node, a slice or a step, or a fault of the JSON value itself.
/// So where a reader answers another error than want of memory, that is the JSON value's first fault; and want of memory, also
/// within a slice, a mark or a value, comes of the call alone.
pub fn never_memory(schema: &Schema)
    ensures { NeverMemory schema.now.spec }
{
    let _ = schema;
}

/// A step that applies does to the tokens what its map says: the ranges of the map go, the tokens of its slice come in their place,
/// and all other tokens stay. Names of tokens and cursors go by maps alone, so this is what ties them to the tokens.
pub fn maps_tell_tokens(schema: &Schema)
    ensures { MapsTellTokens (documents_of schema.now.spec) }
{
    let _ = schema;
}

/// `AreApart`, of which undos speak, and `Unpinched`, of which cursors speak, are one notion.
pub fn apart_is_unpinched(map: &StepMap)
    ensures { AreApart map.now 0 ↔ Unpinched map.now }
{
    let _ = map;
}

/// The reason that a schema does not know a step comes of no step that an op makes, where the schema knows the mark or the step
/// that the op names. It knows each step that applied, each step that takes one back, and what a mapping leaves of a step. A step
/// that it knows has the outcome that the other reasons alone give.
pub fn none_is_unknown(schema: &Schema)
    ensures { NoneUnknown schema.now }
{
    let _ = schema;
}

/// No line of a session is told the reason that the schema does not know a step: neither of an op nor of what was presented, by
/// an editor or forged by a raw client.
pub fn none_is_told_unknown(input: &[u8])
    ensures { NoneIsToldUnknown input.now }
{
    let _ = input;
}

/// A valid document has content that its types' expressions allow, as the grammar of expressions says it. So has every document
/// that a session comes to: the authority's and each editor's, after every number of lines and once the editors have settled.
pub fn documents_are_of_the_language(schema: &Schema, input: &[u8])
    ensures valid { ValidIsOfLanguage schema.now.spec }
    ensures sessions { SessionsAreOfLanguage input.now }
{
    let _ = schema;
    let _ = input;
}

/// A file of many rooms has the rooms that its line 1 lists: as many, and room r with the r-th name.
pub fn rooms_are_listed(input: &[u8])
    ensures { AllRoomsListed input.now }
{
    let _ = input;
}

/// Each input is a session or is refused, in each form of files, and so is each as a file of many rooms. So is each line 1 a schema
/// or refused, and each line 2 the first document of a schema or refused.
pub fn input_means_something()
    ensures { MeansSomething }
{}

/// What `select` writes for an input is one text, with one status.
pub fn selection_is_one(input: &[u8])
    ensures { HasOneOutput Select input.now }
{
    let _ = input;
}

/// What `run` writes of a session is one text for one order of the lines: which of the texts is written is left open by the order
/// alone.
pub fn order_fixes_run(input: &[u8])
    ensures { OrderFixesRun input.now }
{
    let _ = input;
}

/// What `runrooms` writes is one text for one order of the lines of each room.
pub fn orders_fix_rooms(input: &[u8])
    ensures { OrdersFixRooms input.now }
{
    let _ = input;
}
