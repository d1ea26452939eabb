//! Units with halves of pairs, which no line has.
use pm_text::TextError;
use pm_units::Units;
use std::alloc::{AllocError, Global};
use std::test::Fail;

/// Units, a part of them from a place to another, and its text, with U+FFFD for each half of a pair.
const PARTS: [(&[u16], usize, usize, &str); 5] = [
    (&[0x0061, 0xD83D, 0xDE00], 1, 9, "\u{1F600}"),
    (&[0x0061, 0xD83D, 0xDE00], 0, 2, "a\u{FFFD}"),
    (&[0x0061, 0xD83D, 0xDE00], 2, 1, ""),
    (&[0x0061, 0xD83D, 0xDE00], 2, 3, "\u{FFFD}"),
    (&[0xDE00, 0xD83D], 0, 2, "\u{FFFD}\u{FFFD}"),
];

fn part(alloc: Global, units: &[u16], from: usize, to: usize) -> Result<String, AllocError> {
    let units = Units::of_units(alloc, units)?;
    units.part_text(alloc, from, to)
}

#[test]
fn a_part_that_parts_a_pair_is_lossy(rt: HostRuntime) -> Result<(), Fail> {
    for (units, from, to, want) in &PARTS {
        assert!(rt;
            part(rt.alloc(), units, *from, *to)?.as_str() == *want,
            "{from} {to}"
        );
    }
    Ok(())
}

/// Units, the place of the first half of a pair, and why they give no text.
const LONE: [(&[u16], Option<usize>, Option<TextError>); 3] = [
    (&[0x0061, 0xD83D, 0xDE00], None, None),
    (&[0xD83D], Some(0), Some(TextError::Lone { at: 0 })),
    (&[0x0061, 0xDE00], Some(1), Some(TextError::Lone { at: 1 })),
];

/// The place of the first half of a pair, and why the units give no text.
fn lone(alloc: Global, units: &[u16]) -> Result<(Option<usize>, Option<TextError>), AllocError> {
    let units = Units::of_units(alloc, units)?;
    Ok((units.first_lone(), units.text(alloc).err()))
}

#[test]
fn a_half_of_a_pair_gives_no_text(rt: HostRuntime) -> Result<(), Fail> {
    for (units, place, fault) in &LONE {
        assert!(rt; lone(rt.alloc(), units)? == (*place, *fault));
    }
    Ok(())
}
