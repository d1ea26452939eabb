//! The search by halves.
ghost use Rattle.std.specs.Prelude.{◌≡◌, ℕ, ◌+◌, ◌<◌, ◌≤◌, ◌^◌, length, slice_index};

use crate::steps::Steps;
use std::marker::Brand;
use std::sync::ledger::{Blank, Ledger};

/// The number of the last start at or before a position, where the first start is and no start after that one is. Among n
/// starts it takes at most k steps, where n is at most 2^k. It takes no memory.
pub(crate) fn search<L: Ledger>(starts: &[usize], pos: usize, steps: &mut Steps<L>) -> usize
    requires some { 0 < length starts.now }
    requires first { slice_index starts.now 0 ≤ pos }
    ensures within { result < length starts.now }
    ensures at { slice_index starts.now result ≤ pos }
    ensures next { result + 1 < length starts.now → pos < slice_index starts.now (result + 1) }
    ensures steps { (k : ℕ) → length starts.now ≤ 2 ^ k → steps.new ≤ steps.old + k }
{
    let mut low = 0;
    let mut high = starts.len();
    while high - low > 1 {
        let middle = low + (high - low) / 2;
        if steps.reaches(&starts[middle], pos) {
            low = middle;
        } else {
            high = middle;
        }
    }
    low
}

/// The same, where nobody counts.
pub(crate) fn place(starts: &[usize], pos: usize) -> usize
    requires some { 0 < length starts.now }
    requires first { slice_index starts.now 0 ≤ pos }
    ensures within { result < length starts.now }
    ensures at { slice_index starts.now result ≤ pos }
    ensures next { result + 1 < length starts.now → pos < slice_index starts.now (result + 1) }
{
    place_with::<Brand>(Blank::new(1), starts, pos)
}

fn place_with<L: Ledger>(blank: Blank, starts: &[usize], pos: usize) -> usize
    requires name { blank.name ≡ L.name }
    requires parts { blank.parts ≡ L.parts }
    requires one { 0 < blank.parts }
    requires some { 0 < length starts.now }
    requires first { slice_index starts.now 0 ≤ pos }
    ensures within { result < length starts.now }
    ensures at { slice_index starts.now result ≤ pos }
    ensures next { result + 1 < length starts.now → pos < slice_index starts.now (result + 1) }
{
    let mut steps: Steps<L> = Steps::open(blank);
    search(starts, pos, &mut steps)
}
