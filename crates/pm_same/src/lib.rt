//! Lemmas: what two readings of one file come to is the same.
//!
//! No function. The proofs of pm_call use them. A schema that is built is no more than its specification says, so two that are
//! built of one make the same steps (`SameSteps`, by `SameWrappings`) and write the same texts (`SameTexts`); what is read by
//! them is the same too (`Built`).
#![tactic(auto)]
