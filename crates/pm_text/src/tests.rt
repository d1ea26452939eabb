//! Tables of texts and units, with ample memory.
use crate::{TextError, is_whole, text_of, units_of};
use std::test::Fail;

#[test]
fn texts_have_their_units(rt: HostRuntime) -> Result<(), Fail> {
    let alloc = rt.alloc();
    // The edges of each length in UTF-8, and of the surrogates and the planes.
    let rows: [(&str, &[u16]); 10] = [
        ("", &[]),
        ("a\u{1F600}", &[0x0061, 0xD83D, 0xDE00]),
        ("\u{0}\u{7F}\u{80}", &[0x0000, 0x007F, 0x0080]),
        ("\u{7FF}\u{800}", &[0x07FF, 0x0800]),
        ("\u{D7FF}\u{E000}", &[0xD7FF, 0xE000]),
        ("\u{FFFD}\u{FFFF}", &[0xFFFD, 0xFFFF]),
        ("\u{10000}", &[0xD800, 0xDC00]),
        ("\u{1FFFF}\u{20000}", &[0xD83F, 0xDFFF, 0xD840, 0xDC00]),
        ("\u{FFFFF}", &[0xDBBF, 0xDFFF]),
        ("\u{100000}\u{10FFFF}", &[0xDBC0, 0xDC00, 0xDBFF, 0xDFFF]),
    ];
    for (text, units) in &rows {
        assert!(rt; units_of(alloc, text)?.as_slice() == *units);
        assert!(rt; text_of(alloc, units)?.as_str() == *text);
    }
    Ok(())
}

#[test]
fn the_first_lone_surrogate_is_named(rt: HostRuntime) -> Result<(), Fail> {
    let alloc = rt.alloc();
    let rows: [(&[u16], usize); 8] = [
        (&[0x0061, 0xDE00], 1),
        (&[0xD800], 0),
        (&[0xDFFF], 0),
        (&[0xD83D, 0xD83D, 0xDE00], 0),
        (&[0xD83D, 0xDE00, 0xDE00], 2),
        (&[0xDC00, 0xD800], 0),
        (&[0x0061, 0xDBFF, 0xE000], 1),
        (&[0xD800, 0xDC00, 0x0061, 0xD800], 3),
    ];
    for (units, at) in &rows {
        assert!(rt; text_of(alloc, units).err() == Some(TextError::Lone { at: *at }));
    }
    Ok(())
}

#[test]
fn a_place_between_two_units_of_a_pair_is_not_whole(rt: HostRuntime) {
    let units: [u16; 5] = [0x0061, 0xD83D, 0xDE00, 0xDE00, 0xD83D];
    let whole = [true, true, false, true, true, true, true];
    for (at, want) in whole.iter().enumerate() {
        assert!(rt; is_whole(units.as_slice(), at) == *want);
    }
}
