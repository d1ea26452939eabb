//! The summary of a generated session.
ghost use Rattle.std.specs.Prelude.{◌≡◌, IfOk, string_bytes};
ghost use Rattle.pm_gen.specs.Summary.{made_from, counts, summary_text};

use std::alloc::{AllocError, Global};

/// The lines `gen C N S` with the numbers that the session was made from, `lines` with the number of its op lines, `log`
/// with the log's length, `dropped` with the number of dropped steps of all clients, and `size` with the number of tokens
/// of the final document's content.
pub fn summary(
    alloc: Global,
    clients: u32,
    rounds: u32,
    number: u64,
    log: u64,
    dropped: u64,
    size: u64,
) -> Result<String, AllocError>
    ensures { IfOk result (λ s. string_bytes s ≡ summary_text clients rounds number log dropped size) }
{
    let lines = u64::from(clients) * u64::from(rounds);
    let mut text = made_from(alloc, clients, rounds, number)?;
    text.push_str(counts(alloc, lines, log, dropped, size)?.as_str())?;
    Ok(text)
}

fn made_from(alloc: Global, clients: u32, rounds: u32, number: u64) -> Result<String, AllocError>
    ensures { IfOk result (λ s. string_bytes s ≡ made_from clients rounds number) }
{
    format!(in alloc; "gen {clients} {rounds} {number}\n")
}

fn counts(
    alloc: Global,
    lines: u64,
    log: u64,
    dropped: u64,
    size: u64,
) -> Result<String, AllocError>
    ensures { IfOk result (λ s. string_bytes s ≡ counts lines log dropped size) }
{
    format!(in alloc; "lines {lines}\nlog {log}\ndropped {dropped}\nsize {size}\n")
}
