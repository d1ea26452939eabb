//! The types that can be made with all that stands in them.
ghost use Rattle.std.specs.Prelude.{◌≡◌, ◌<◌, ◌≤◌, ◌↔◌, true, false, length, IfOk};
ghost use Rattle.pm_schema.specs.Contents.{Runs, All_run};
ghost use Rattle.pm_schema.specs.Generated.{IsMade, IsClosed, HasFilled, IsGeneratable, falses};

use crate::spec::NodeSpec;
use pm_auto::Auto;
use pm_list::Listed;
use std::alloc::{AllocError, Global};

/// Whether the type is made from types of the table.
fn is_made(alloc: Global, node: &NodeSpec, auto: &Auto, table: &[bool]) -> Result<bool, AllocError>
    requires { Runs node.now.content auto.now }
    ensures { IfOk result (λ b. (b ≡ true) ↔ IsMade node.now table.now) }
{
    if !node.can_be_made() {
        return Ok(false);
    }
    let ends = auto.finishing(alloc, table)?;
    Ok(ends.as_slice()[auto.start()])
}

/// Adds each type that is made from types of the table. Whether there was one.
fn widen(
    alloc: Global,
    nodes: &[NodeSpec],
    autos: &[Auto],
    table: &mut [bool],
) -> Result<bool, AllocError>
    requires runs { All_run nodes.now autos.now }
    requires autos { length autos.now ≡ length nodes.now }
    requires table { length table.old ≡ length nodes.now }
    ensures filled { HasFilled nodes.now table.old → HasFilled nodes.now table.new }
    ensures more { IfOk result (λ more. more ≡ true → falses table.new < falses table.old) }
    ensures closed { IfOk result (λ more. more ≡ false → IsClosed nodes.now table.new) }
{
    let mut more = false;
    for k in 0..nodes.len() {
        if !table[k] && is_made(alloc, &nodes[k], &autos[k], table)? {
            table[k] = true;
            more = true;
        }
    }
    Ok(more)
}

/// Adds the type where it is made from types of the table.
fn add(
    alloc: Global,
    nodes: &[NodeSpec],
    autos: &[Auto],
    table: &mut [bool],
    k: usize,
) -> Result<(), AllocError>
    requires runs { All_run nodes.now autos.now }
    requires autos { length autos.now ≡ length nodes.now }
    requires table { length table.old ≡ length nodes.now }
    requires within { k < length nodes.now }
    ensures filled { HasFilled nodes.now table.old → HasFilled nodes.now table.new }
    ensures fewer { falses table.new ≤ falses table.old }
{
    if table[k] {
        return Ok(());
    }
    let made = is_made(alloc, &nodes[k], &autos[k], table)?;
    if !made {
        return Ok(());
    }
    table[k] = true;
    Ok(())
}

/// Adds types that are made from types of the table, from the last to the first, so that types that each need the next one
/// take one round.
fn widen_back(
    alloc: Global,
    nodes: &[NodeSpec],
    autos: &[Auto],
    table: &mut [bool],
) -> Result<(), AllocError>
    requires runs { All_run nodes.now autos.now }
    requires autos { length autos.now ≡ length nodes.now }
    requires table { length table.old ≡ length nodes.now }
    ensures filled { HasFilled nodes.now table.old → HasFilled nodes.now table.new }
    ensures fewer { falses table.new ≤ falses table.old }
{
    let count = nodes.len();
    for k in 0..count {
        add(alloc, nodes, autos, table, count - 1 - k)?;
    }
    Ok(())
}

/// Goes through the types back and forth. Whether the way forth added one.
fn back_and_forth(
    alloc: Global,
    nodes: &[NodeSpec],
    autos: &[Auto],
    table: &mut [bool],
) -> Result<bool, AllocError>
    requires runs { All_run nodes.now autos.now }
    requires autos { length autos.now ≡ length nodes.now }
    requires table { length table.old ≡ length nodes.now }
    ensures filled { HasFilled nodes.now table.old → HasFilled nodes.now table.new }
    ensures more { IfOk result (λ more. more ≡ true → falses table.new < falses table.old) }
    ensures closed { IfOk result (λ more. more ≡ false → IsClosed nodes.now table.new) }
{
    widen_back(alloc, nodes, autos, table)?;
    widen(alloc, nodes, autos, table)
}

/// For each type whether it is generatable: the least table that has each type which is made from its types. Each round goes
/// through the types back and forth, adds at least one, and asks each automaton at most twice.
pub fn generatable(
    alloc: Global,
    nodes: &[NodeSpec],
    autos: &[Auto],
) -> Result<Listed<bool>, AllocError>
    requires runs { All_run nodes.now autos.now }
    requires autos { length autos.now ≡ length nodes.now }
    ensures { IfOk result (λ t. IsGeneratable nodes.now t) }
{
    let mut table = vec![in alloc; false; nodes.len()]?;
    'rounds: loop {
        let more = back_and_forth(alloc, nodes, autos, table.as_mut_slice())?;
        if !more {
            return Ok(Listed::from_vec(table));
        }
    }
}
