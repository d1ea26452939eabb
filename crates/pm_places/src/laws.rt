//! Laws of automata. Each call does nothing; its contract is the law.
ghost use Rattle.std.specs.Prelude.{◌<◌, length};
ghost use Rattle.pm_places.specs.Laws.{LeadsWhereBegun, LeadsToState, HasEdgesNext, ReachesEachState, LeadsAlikeTogether, EdgesGoOn, StartsBegin};

use pm_auto::{Auto, Expr, TypeId};
use pm_schema::Schema;

/// A list of types leads from the start of the expression's automaton to a state exactly where it is empty or some place word
/// begins with places that spell it.
pub fn leads_where_begun(expr: &Expr, auto: &Auto)
    ensures { LeadsWhereBegun expr.now auto.now }
{
    let _ = expr;
    let _ = auto;
}

/// The state that a list of types leads to has exactly the places q for which some place word begins with places that spell
/// the list and then q, and its content may end exactly where the list is in the language.
pub fn leads_to_state(expr: &Expr, auto: &Auto)
    ensures { LeadsToState expr.now auto.now }
{
    let _ = expr;
    let _ = auto;
}

/// The edges of that state are the types of these places, each once, in the order of the least place of each.
pub fn has_edges_next(expr: &Expr, auto: &Auto)
    ensures { HasEdgesNext expr.now auto.now }
{
    let _ = expr;
    let _ = auto;
}

/// Each state of the automaton is one that some list leads to.
pub fn reaches_each_state(expr: &Expr, auto: &Auto)
    ensures { ReachesEachState expr.now auto.now }
{
    let _ = expr;
    let _ = auto;
}

/// Two lists lead to one state where the same places may come next after both, and both are in the language or both not.
pub fn leads_alike_together(expr: &Expr, auto: &Auto)
    ensures { LeadsAlikeTogether expr.now auto.now }
{
    let _ = expr;
    let _ = auto;
}

/// A type has an edge from that state exactly where some list in the language begins with the list and then the type. So the
/// edges from the start are the types with which a list in the language begins.
pub fn edges_go_on(expr: &Expr, auto: &Auto)
    ensures { EdgesGoOn expr.now auto.now }
{
    let _ = expr;
    let _ = auto;
}

/// In a schema that was built, the types that may stand first in a node of this type are exactly those with which a list in the
/// language of its content begins.
pub fn starts_begin(schema: &Schema, kind: TypeId)
    requires { kind < length schema.now.spec.nodes }
    ensures { StartsBegin schema.now kind }
{
    let _ = schema.auto(kind);
}
