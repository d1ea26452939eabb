//! Whether each run of texts leads where one text does.
ghost use Rattle.std.specs.Prelude.{◌≡◌, ◌<◌, ◌≤◌, ◌↔◌, length, true, false};
ghost use Rattle.pm_tokens.specs.Loose.{IsLoose};
ghost use Rattle.pm_schema.specs.Documents.{documents_of};
ghost use Rattle.pm_loose.specs.Repeats.{CountsTexts, LeadsUpTo, Repeats, RepeatsTexts, SomeCounts};

use pm_auto::{Auto, State, TypeId};
use pm_schema::Schema;

/// Whether in the content of each type further texts after a text change nothing: where a text leads to a state, a further
/// text leads there again, as in `text*` and `inline*`. Then it does not matter to any type into how many nodes a text is
/// divided. False where a text leads to a state from which a text leads elsewhere or nowhere, though a schema may be loose
/// for another reason. It takes no memory.
pub fn is_loose(schema: &Schema) -> bool
    ensures loose { result ≡ true → IsLoose (documents_of schema.now.spec) }
    ensures counts { result ≡ false → SomeCounts (documents_of schema.now.spec).text schema.now.autos }
{
    let text = schema.text_type();
    for kind in 0..schema.node_count() {
        if !repeats_texts(schema.auto(kind), text) {
            return false;
        }
    }
    true
}

/// The same for one type's content. Each state is an end of an edge of a state before it, or the start.
fn repeats_texts(auto: &Auto, text: TypeId) -> bool
    ensures repeats { result ≡ true → RepeatsTexts text auto.now }
    ensures counts { result ≡ false → CountsTexts text auto.now }
{
    let mut state = auto.start();
    let mut last = state;
    'states: loop {
        if !repeats_text(auto, text, state) {
            return false;
        }
        last = last_found(auto, state, last);
        if state == last {
            return true;
        }
        state += 1;
    }
}

/// Whether a text leads from the state to one to which a text leads again, or leads nowhere.
fn repeats_text(auto: &Auto, text: TypeId, state: State) -> bool
    requires { state < length auto.now.sets }
    ensures { (result ≡ true) ↔ Repeats text auto.now state }
{
    match auto.next(state, text) {
        Some(to) => auto.next(to, text) == Some(to),
        None => true,
    }
}

/// The last state that is found, where `last` was it before the edges of the state are read.
fn last_found(auto: &Auto, state: State, last: State) -> State
    requires state { state < length auto.now.sets }
    requires last { last < length auto.now.sets }
    ensures more { last ≤ result }
    ensures within { result < length auto.now.sets }
    ensures leads { LeadsUpTo auto.now state result }
{
    let mut most = last;
    for edge in auto.edges(state) {
        if let Some(to) = auto.next(state, edge.kind) {
            most = most.max(to);
        }
    }
    most
}
