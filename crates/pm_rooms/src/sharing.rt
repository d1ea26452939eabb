//! What people share out: each gets its stands and its lines.
ghost use Rattle.std.specs.Prelude.{◌≡◌, ◌<◌, ◌≤◌, ◌^◌, ℕ, [], All, Some, Vec, length, map, vec_len, slice_get, slice_index_or, IfOk};
ghost use Rattle.pm_rooms.specs.Handed.{handed};
ghost use Rattle.pm_rooms.specs.Opened.{person_of, line_person, stand_person};
ghost use Rattle.pm_rooms.specs.Shared.{AreShared};

use crate::line::RoomLine;
use crate::person::Person;
use crate::stand::Stand;
use pm_change::Change;
use std::alloc::{AllocError, Global};
use std::collections::VecDeque;

/// All people, and the person of each stand.
#[derive(Drop)]
pub(crate) struct Crowd<C: Change, O>
where
    C::Rules: Drop,
{
    pub people: Vec<Person<C, O>>,
    pub turns: Vec<u32>,
}

/// Shares the stands and the lines out, in order. `people` has for each room the person of each client.
pub(crate) fn gather<C: Change, O: Drop>(
    alloc: Global,
    people: &[Vec<u32>],
    stands: Vec<Stand<C>>,
    lines: Vec<RoomLine<O, C>>,
) -> Result<Crowd<C, O>, AllocError>
where
    C::Rules: Drop,
    ensures { IfOk result (λ c. AreShared (map (λ l. l.items) people.now) stands.items lines.items c) }
{
    let count = count_of(people);
    let turns = stand_turns(alloc, people, stands.as_slice())?;
    let calls = line_turns(alloc, people, lines.as_slice())?;
    let stands = hand_by(alloc, count, turns.as_slice(), stands)?;
    let lines = hand_by(alloc, count, calls.as_slice(), lines)?;
    let people = introduce(alloc, stands, lines)?;
    Ok(Crowd { people, turns })
}

/// People with these stands and lines.
fn introduce<C: Change, O: Drop>(
    alloc: Global,
    stands: Vec<Vec<Stand<C>>>,
    lines: Vec<Vec<RoomLine<O, C>>>,
) -> Result<Vec<Person<C, O>>, AllocError>
where
    C::Rules: Drop,
    requires { vec_len lines ≡ vec_len stands }
    ensures stands { IfOk result (λ v. map (λ p. p.stands) v.items ≡ stands.items) }
    ensures lines { IfOk result (λ v. map (λ p. p.lines) v.items ≡ lines.items) }
    ensures none { IfOk result (λ v. All (λ p. p.outcomes.items ≡ []) v.items) }
{
    let mut people = Vec::new(alloc);
    for (stands, lines) in stands.into_iter().zip(lines) {
        people.push(Person {
            stands,
            lines,
            outcomes: Vec::new(alloc),
        })?;
    }
    Ok(people)
}

/// The person of a client of a room, where `people` has for each room the person of each client. It is 0 where there is none.
fn person_of(people: &[Vec<u32>], room: u32, client: u32) -> u32
    ensures { result ≡ person_of (map (λ l. l.items) people.now) room client }
{
    let room = room as usize;
    let client = client as usize;
    if room < people.len() && client < people[room].len() {
        people[room][client]
    } else {
        0
    }
}

/// The person of each stand.
fn stand_turns<C: Change>(
    alloc: Global,
    people: &[Vec<u32>],
    stands: &[Stand<C>],
) -> Result<Vec<u32>, AllocError>
where
    C::Rules: Drop,
    ensures { IfOk result (λ v. v.items ≡ map (stand_person (map (λ l. l.items) people.now)) stands.now) }
{
    let mut turns = Vec::new(alloc);
    for stand in stands {
        turns.push(person_of(people, stand.room, stand.client))?;
    }
    Ok(turns)
}

/// The person of each line.
fn line_turns<O, C>(
    alloc: Global,
    people: &[Vec<u32>],
    lines: &[RoomLine<O, C>],
) -> Result<Vec<u32>, AllocError>
    ensures { IfOk result (λ v. v.items ≡ map (line_person (map (λ l. l.items) people.now)) lines.now) }
{
    let mut turns = Vec::new(alloc);
    for line in lines {
        turns.push(person_of(people, line.room, line.line.client))?;
    }
    Ok(turns)
}

/// A number above that of each person.
fn count_of(people: &[Vec<u32>]) -> usize
    ensures { (room : ℕ) (client : ℕ) → person_of (map (λ l. l.items) people.now) room client < result }
{
    let mut highest = 0;
    for room in people {
        highest = highest_of(highest, room.as_slice());
    }
    highest as usize + 1
}

/// The highest of this number and these.
fn highest_of(number: u32, numbers: &[u32]) -> u32
    ensures more { number ≤ result }
    ensures most { (k : ℕ) → slice_index_or numbers.now k 0 ≤ result }
{
    let mut highest = number;
    for n in numbers {
        highest = highest.max(*n);
    }
    highest
}

/// Hands the items out: each goes to the one whose turn it is. There is an item for each turn.
fn hand_by<T: Drop>(
    alloc: Global,
    count: usize,
    turns: &[u32],
    items: Vec<T>,
) -> Result<Vec<Vec<T>>, AllocError>
    requires turns { All (λ turn. turn < count) turns.now }
    requires each { vec_len items ≡ length turns.now }
    ensures count { IfOk result (λ v. vec_len v ≡ count) }
    ensures handed { IfOk result (λ v. (i : ℕ) (own : Vec _ _) → slice_get v.items i ≡ Some own → own.items ≡ handed i turns.now items.items) }
{
    let mut hands = empty_each(alloc, count)?;
    let mut left = VecDeque::from(items);
    for turn in turns {
        let item = left.pop_front().unwrap();
        hands[*turn as usize].push(item)?;
    }
    Ok(hands)
}

/// As many lists with no item.
fn empty_each<T: Drop>(alloc: Global, count: usize) -> Result<Vec<Vec<T>>, AllocError>
    ensures count { IfOk result (λ v. vec_len v ≡ count) }
    ensures empty { IfOk result (λ v. All (λ l. l.items ≡ []) v.items) }
{
    let mut lists = Vec::new(alloc);
    for _i in 0..count {
        lists.push(Vec::new(alloc))?;
    }
    Ok(lists)
}
