//! Calls that were answered, and what a seat knows of them.
use pm_change::Machine;
use std::collections::LinkedList;

/// A call that was answered: the seat that made it, and what it asked.
#[derive(Drop)]
pub struct Past<Q> {
    pub seat: u32,
    pub request: Q,
}

/// A request that got no reply because memory ran out.
#[derive(Drop)]
pub struct Back<Q> {
    pub request: Q,
}

/// What a desk leaves: its rules, the machine, and all calls in order.
#[derive(Drop)]
pub struct Closed<M: Machine> {
    pub rules: M::Rules,
    pub machine: M,
    pub history: Vec<Past<M::Request>>,
}

/// A seat that was joined to the first one, with what it had seen.
#[derive(Drop)]
pub struct Joined<Q> {
    pub number: u32,
    pub seen: LinkedList<Past<Q>>,
}

/// What a desk was opened with.
#[derive(Drop)]
pub struct Opening<M, R> {
    pub machine: M,
    pub rules: R,
}

/// The machine, and the calls that made it what it is.
#[derive(Drop)]
pub struct Stored<M, Q> {
    pub machine: M,
    pub history: Vec<Past<Q>>,
}

/// What a seat knows. No value of it is made.
#[derive(Drop)]
pub struct View<M, R, Q> {
    /// The desk, unless the seat was joined to another.
    pub desk: Option<Opening<M, R>>,
    pub number: u32,
    pub turn: bool,
    pub seen: LinkedList<Past<Q>>,
    /// What it had seen before it last took in another seat, or what it has seen by a call since then.
    pub had: LinkedList<Past<Q>>,
    /// While the seat has the turn, the history of the value that it holds.
    pub kept: LinkedList<Past<Q>>,
    /// How many seats were split from the first one, the numbers of those that are not joined, and those that are.
    pub splits: u32,
    pub out: LinkedList<u32>,
    pub joined: LinkedList<Joined<Q>>,
}
