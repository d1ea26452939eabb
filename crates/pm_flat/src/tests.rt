//! Steps on the paragraph "ab", of content size 4: its opening, two letters and its close.
ghost use Rattle.std.specs.Prelude.{◌≡◌, true, IfOk};
ghost use Rattle.pm_flat.specs.Letters.{all_printable};

use crate::{Letters, Reason, Replace, all_printable};
use pm_change::{Change, Failed};
use pm_map::{Mapping, Span, StepMap};
use std::alloc::{AllocError, Global};
use std::test::Fail;

fn replace(alloc: Global, from: u32, to: u32, text: &str) -> Result<Replace, AllocError>
    requires { all_printable text.now ≡ true }
{
    Ok(Replace {
        from,
        to,
        text: Letters::new(alloc, text)?,
    })
}

#[test]
fn steps_apply_or_tell_the_first_reason(rt: HostRuntime) -> Result<(), Fail> {
    let alloc = rt.alloc();
    let doc = Letters::new(alloc, "ab")?;
    for (from, to, text, next) in [
        (1, 1, "x", Ok("xab")),
        (2, 3, "xy", Ok("axy")),
        (1, 3, "", Ok("")),
        (0, 0, "", Ok("ab")),
        (4, 4, "", Ok("ab")),
        (2, 1, "x", Err(Reason::Range)),
        (1, 5, "", Err(Reason::Range)),
        (0, 1, "", Err(Reason::Depth)),
        (3, 4, "", Err(Reason::Depth)),
        (0, 0, "x", Err(Reason::Content { at: 0 })),
        (0, 4, "", Err(Reason::Content { at: 0 })),
    ] {
        if !all_printable(text) {
            continue;
        }
        let step = replace(alloc, from, to, text)?;
        match (step.apply(alloc, &(), &doc), next) {
            (Ok(after), Ok(text)) => assert_eq!(rt; after.as_str(), text, "{from} {to}"),
            (Err(Failed::Reason(why)), Err(reason)) => {
                assert_eq!(rt; why, reason, "{from} {to}");
            }
            _ => panic!(rt; "{from} {to} {text}"),
        }
    }
    Ok(())
}
