//! How a session's lines are handed out to its clients' workers, and how what these come to is gathered again.
ghost use Rattle.std.specs.Prelude.{◌≡◌, ◌<◌, ◌^◌, ℕ, [], All, Some, length, map, vec_len, slice_get, Vec, IfOk};
ghost use Rattle.pm_workers.specs.Threads.{by_client, own_lines, presents, in_order, dealt};

use pm_session::{Act, Line};
use std::alloc::{AllocError, Global};
use std::collections::VecDeque;

/// Each client's lines in order: the place of each, from 0, and whether it presents a message.
pub(crate) fn file_lines<O, C>(
    alloc: Global,
    count: usize,
    lines: &[Line<O, C>],
) -> Result<Vec<Vec<(u32, bool)>>, AllocError>
    requires clients { All (λ line. line.client < count) lines.now }
    requires short { length lines.now < 2 ^ 32 }
    ensures { IfOk result (λ v. map (λ l. l.items) v.items ≡ by_client 0 count lines.now) }
{
    let mut files = empty_each(alloc, count)?;
    for at in 0..lines.len() {
        let line = &lines[at];
        let filed = (at as u32, presents(&line.act));
        files[line.client as usize].push(filed)?;
    }
    Ok(files)
}

/// Each client's own lines, in order.
pub(crate) fn hand_out<O: Drop, C: Drop>(
    alloc: Global,
    count: usize,
    lines: Vec<Line<O, C>>,
) -> Result<Vec<Vec<Line<O, C>>>, AllocError>
    requires { All (λ line. line.client < count) lines.items }
    ensures count { IfOk result (λ v. vec_len v ≡ count) }
    ensures own { IfOk result (λ v. (i : ℕ) (own : Vec _ _) → slice_get v.items i ≡ Some own → own.items ≡ own_lines i lines.items) }
{
    let mut hands = empty_each(alloc, count)?;
    for line in lines {
        let client = line.client as usize;
        hands[client].push(line)?;
    }
    Ok(hands)
}

/// The client of each line.
pub(crate) fn clients_of<O, C>(alloc: Global, lines: &[Line<O, C>]) -> Result<Vec<u32>, AllocError>
    ensures { IfOk result (λ v. v.items ≡ map (λ line. line.client) lines.now) }
{
    let mut clients = Vec::new(alloc);
    for line in lines {
        clients.push(line.client)?;
    }
    Ok(clients)
}

/// The clients at these places, in this order.
pub(crate) fn pick(alloc: Global, clients: &[u32], order: &[u32]) -> Result<Vec<u32>, AllocError>
    requires { All (λ k. k < length clients.now) order.now }
    ensures { IfOk result (λ v. v.items ≡ in_order clients.now order.now) }
{
    let mut picked = Vec::new(alloc);
    for place in order {
        picked.push(clients[*place as usize])?;
    }
    Ok(picked)
}

/// One item for each turn: the next from the hand whose turn it is, if that has one left.
pub fn deal<T: Drop>(alloc: Global, turns: &[u32], hands: Vec<Vec<T>>) -> Result<Vec<T>, AllocError>
    requires { All (λ turn. turn < vec_len hands) turns.now }
    ensures { IfOk result (λ v. v.items ≡ dealt turns.now (map (λ l. l.items) hands.items)) }
{
    let mut left = queues(alloc, hands)?;
    let mut dealt = Vec::new(alloc);
    for turn in turns {
        if let Some(item) = left[*turn as usize].pop_front() {
            dealt.push(item)?;
        }
    }
    Ok(dealt)
}

/// The same items, to be taken from the front.
pub fn queues<T: Drop>(alloc: Global, hands: Vec<Vec<T>>) -> Result<Vec<VecDeque<T>>, AllocError>
    ensures { IfOk result (λ v. map (λ q. q.items) v.items ≡ map (λ l. l.items) hands.items) }
{
    let mut queues = Vec::new(alloc);
    for hand in hands {
        queues.push(VecDeque::from(hand))?;
    }
    Ok(queues)
}

/// As many lists with no item.
fn empty_each<T: Drop>(alloc: Global, count: usize) -> Result<Vec<Vec<T>>, AllocError>
    ensures count { IfOk result (λ v. vec_len v ≡ count) }
    ensures empty { IfOk result (λ v. All (λ l. l.items ≡ []) v.items) }
{
    let mut lists = Vec::new(alloc);
    for _i in 0..count {
        lists.push(Vec::new(alloc))?;
    }
    Ok(lists)
}

/// Whether the act presents a message.
fn presents<O, C>(act: &Act<O, C>) -> bool
    ensures { result ≡ presents act.now }
{
    match act {
        Act::Present { message: _ }
        | Act::Push { lost: _ }
        | Act::Pull { lost: _ }
        | Act::Forge {
            version: _,
            steps: _,
        } => true,
        Act::Edit { op: _, event: _ }
        | Act::Undo
        | Act::Redo
        | Act::UndoEvent { event: _ }
        | Act::Cursor { pos: _, side: _ }
        | Act::Submit
        | Act::Ask
        | Act::Take { answer: _ }
        | Act::Enter => false,
    }
}
