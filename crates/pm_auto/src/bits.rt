//! Sets of small numbers as the bits of words.
ghost use Rattle.std.specs.Prelude.{◌≡◌, ◌*◌, ◌<◌, ◌≤◌, ℕ, ◌||◌, eqb, replicate, length, IfOk, OnOk};
ghost use Rattle.pm_auto.specs.States.{has};
ghost use Rattle.pm_auto.specs.Members.{is_in};
ghost use Rattle.pm_auto.specs.Bits.{Holds};

use pm_list::Listed;
use std::alloc::{AllocError, Global};

/// So many words, with no number in the set.
pub(crate) fn no_bits(alloc: Global, words: usize) -> Result<Vec<u64>, AllocError>
    ensures { IfOk result (λ v. v.items ≡ replicate words 0) }
{
    let bits = vec![in alloc; 0; words]?;
    Ok(bits)
}

/// Whether the number is in the set.
pub(crate) fn is_set(words: &[u64], number: usize) -> bool
    requires { number < 64 * length words.now }
    ensures { result ≡ is_in words.now number }
{
    (words[number / 64] >> (number % 64)) & 1 == 1
}

/// Puts the number into the set.
fn put(words: &mut Vec<u64>, number: usize)
    requires { number < 64 * length words.old.items }
    ensures same { length words.new.items ≡ length words.old.items }
    ensures put { (j : ℕ) → is_in words.new.items j ≡ (is_in words.old.items j || eqb number j) }
{
    let word = words[number / 64];
    words[number / 64] = word | (1 << (number % 64));
}

/// Puts the numbers of the other set into the set, as far as its words reach.
pub(crate) fn join(words: &mut Vec<u64>, more: &[u64])
    ensures same { length words.new.items ≡ length words.old.items }
    ensures joined { (j : ℕ) → j < 64 * length words.old.items → is_in words.new.items j ≡ (is_in words.old.items j || is_in more.now j) }
{
    for i in 0..words.len().min(more.len()) {
        let old = words[i];
        words[i] = old | more[i];
    }
}

/// Gives the set at least so many words.
pub(crate) fn widen(words: &mut Vec<u64>, count: usize) -> Result<(), AllocError>
    ensures long { OnOk result (count ≤ length words.new.items) }
    ensures same { OnOk result ((j : ℕ) → is_in words.new.items j ≡ is_in words.old.items j) }
{
    if words.len() < count {
        words.resize(count, 0)?;
    }
    Ok(())
}

/// Puts the numbers into the set, which grows where it must.
pub(crate) fn put_each(words: &mut Vec<u64>, numbers: &[usize]) -> Result<(), AllocError>
    ensures { OnOk result ((j : ℕ) → is_in words.new.items j ≡ (is_in words.old.items j || has j numbers.now)) }
{
    for number in numbers {
        widen(words, *number / 64 + 1)?;
        put(words, *number);
    }
    Ok(())
}

/// The numbers of the list that are below `count`, as a set.
pub(crate) fn bits_of(
    alloc: Global,
    count: usize,
    numbers: &[usize],
) -> Result<Listed<u64>, AllocError>
    ensures { IfOk result (λ ws. Holds count ws numbers.now) }
{
    let mut words = no_bits(alloc, count / 64 + 1)?;
    for number in numbers {
        if *number < count {
            put(&mut words, *number);
        }
    }
    Ok(Listed::from_vec(words))
}
