//! Two rooms in a hall.
ghost use Rattle.std.specs.Prelude.{IfOk};
ghost use Rattle.tests_rooms.specs.TwoRooms.{AreTwoRooms};

use crate::lines::lines;
use crate::typist::Typist;
use anyhow::Result;
use pm_flat::{Letters, Replace};
use pm_rooms::Hall;
use pm_session::{AnswerSummary, Outcome, Room};
use std::alloc::{AllocError, Global};

/// Two rooms with an empty paragraph and one editor each.
fn two_rooms(alloc: Global) -> std::result::Result<Hall<Replace>, AllocError>
    ensures { IfOk result AreTwoRooms }
{
    let x = Room::new(alloc, &(), Letters::new(alloc, "")?, &[false])?;
    let y = Room::new(alloc, &(), Letters::new(alloc, "")?, &[false])?;
    let rules = vec![in alloc; (), ()]?;
    let rooms = vec![in alloc; x, y]?;
    Ok(Hall::new(rules, rooms))
}

#[test]
fn a_push_reaches_its_own_room_alone(rt: HostRuntime) -> Result<()> {
    let alloc = rt.alloc();
    let mut hall = two_rooms(alloc)?;
    let lines = lines(alloc)?;
    let outcomes = hall.play_all(alloc, &Typist, lines.as_slice())?;
    assert!(rt;
        matches!(
            &outcomes[2],
            Outcome::Exchanged {
                told: AnswerSummary::Accepted { from: 0, count: 1 },
                taken: Some(_)
            }
        )
    );
    assert_eq!(rt; hall.room(0).authority().doc().as_str(), "");
    // What is pending in a room gets to its log when the hall settles.
    hall.settle(alloc)?;
    assert_eq!(rt; hall.room(0).authority().doc().as_str(), "A");
    assert_eq!(rt; hall.room(1).authority().doc().as_str(), "B");
    Ok(())
}
