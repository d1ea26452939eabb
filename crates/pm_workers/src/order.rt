//! The order of a session's lines that a history of calls makes.
ghost use Rattle.std.specs.Prelude.{◌≡◌, ◌<◌, ◌++◌, length, map, take, drop, flat_map, All, IfOk};
ghost use Rattle.pm_workers.specs.Merges.{numbers, through_call, after_call, merged, IsOrder};

use pm_desk::Past;
use std::alloc::{AllocError, Global};

/// The numbers of the clients' lines in the order in which a session on one thread plays them as these calls did. For each
/// call of the history it lists the lines of the call's client that are not listed yet, up to and with the line that made
/// the call; after the last call the other lines, client by client.
///
/// `lines` has for each client the numbers of its lines in the order of the file, each with whether the line presents a
/// message. The client of a call is its seat's number. Each line stands in the order once, and each client's lines stand in
/// their order.
pub fn merge<Q>(
    alloc: Global,
    history: &[Past<Q>],
    lines: &[Vec<(u32, bool)>],
) -> Result<Vec<u32>, AllocError>
    requires { All (λ past. past.seat < length lines.now) history.now }
    ensures merges { IfOk result (λ v. v.items ≡ merged (map (λ past. past.seat) history.now) (map (λ l. l.items) lines.now)) }
    ensures order { IfOk result (λ v. IsOrder (map (λ l. numbers l.items) lines.now) v.items) }
{
    let mut order = Vec::new(alloc);
    let mut left = all_lines(alloc, lines)?;
    list_calls(&mut order, history, &mut left)?;
    list_rest(&mut order, left.as_slice())?;
    Ok(order)
}

/// The lines of each client.
fn all_lines<'a>(
    alloc: Global,
    lines: &'a [Vec<(u32, bool)>],
) -> Result<Vec<&'a [(u32, bool)]>, AllocError>
    ensures { IfOk result (λ v. map (λ l. l.now) v.items ≡ map (λ l. l.items) lines.now) }
{
    let mut left = Vec::new(alloc);
    for lines in lines {
        left.push(lines.as_slice())?;
    }
    Ok(left)
}

/// For each call it lists the lines of the call's client up to the call, and leaves those after it.
fn list_calls<'a, Q>(
    order: &mut Vec<u32>,
    history: &[Past<Q>],
    left: &mut Vec<&'a [(u32, bool)]>,
) -> Result<(), AllocError>
    requires { All (λ past. past.seat < length left.old.items) history.now }
    ensures { IfOk result (λ u. order.new.items ++ flat_map numbers (map (λ l. l.now) left.new.items)
        ≡ order.old.items ++ merged (map (λ past. past.seat) history.now) (map (λ l. l.now) left.old.items)) }
{
    for past in history {
        let client = past.seat as usize;
        left[client] = list_call(order, left[client])?;
    }
    Ok(())
}

/// Lists the lines up to and with the first that presents, and gives back those after it.
fn list_call<'a>(
    order: &mut Vec<u32>,
    lines: &'a [(u32, bool)],
) -> Result<&'a [(u32, bool)], AllocError>
    ensures lists { IfOk result (λ rest. order.new.items ≡ order.old.items ++ numbers (through_call lines.now)) }
    ensures leaves { IfOk result (λ rest. rest.now ≡ after_call lines.now) }
{
    for at in 0..lines.len() {
        let (number, presents) = lines[at];
        order.push(number)?;
        if presents {
            return Ok(&lines[at + 1..]);
        }
    }
    Ok(&[])
}

/// Lists the lines that no call lists, client by client.
fn list_rest(order: &mut Vec<u32>, left: &[&[(u32, bool)]]) -> Result<(), AllocError>
    ensures { IfOk result (λ u. order.new.items ≡ order.old.items ++ flat_map numbers (map (λ l. l.now) left.now)) }
{
    for lines in left {
        list_all(order, lines)?;
    }
    Ok(())
}

/// Lists all of these lines.
fn list_all(order: &mut Vec<u32>, lines: &[(u32, bool)]) -> Result<(), AllocError>
    ensures { IfOk result (λ u. order.new.items ≡ order.old.items ++ numbers lines.now) }
{
    for (number, _) in lines {
        order.push(*number)?;
    }
    Ok(())
}
