//! What a session is asked to be made from.
ghost use Rattle.std.specs.Prelude.{◌≡◌, IfSome};
ghost use Rattle.pm_gen.specs.Bounds.{InBounds};
ghost use Rattle.pm_gen.specs.Asking.{number_of, asked_from, asked_of};

use crate::bounds::is_in_bounds;

/// The clients, the rounds and the number that a session is made from.
#[derive(Clone, Copy, Debug, PartialEq, Eq)]
pub struct Asked {
    pub clients: u32,
    pub rounds: u32,
    pub number: u64,
}

/// What three words ask for. Each is one to twenty decimal digits; the session is within its limits, and the number below
/// 2^64. All other words are none.
pub fn asked_of(clients: &str, rounds: &str, number: &str) -> Option<Asked>
    ensures asked { result ≡ asked_of clients.now rounds.now number.now }
    ensures bounds { IfSome result (λ a. InBounds a.clients a.rounds) }
{
    let clients = number_of(clients)?;
    let rounds = number_of(rounds)?;
    let number = number_of(number)?;
    asked_from(clients, rounds, number)
}

/// The session of these numbers, where it is within its limits.
fn asked_from(clients: u64, rounds: u64, number: u64) -> Option<Asked>
    ensures asked { result ≡ asked_from clients rounds number }
    ensures bounds { IfSome result (λ a. InBounds a.clients a.rounds) }
{
    let clients = u32::try_from(clients).ok()?;
    let rounds = u32::try_from(rounds).ok()?;
    if is_in_bounds(clients, rounds) {
        Some(Asked {
            clients,
            rounds,
            number,
        })
    } else {
        None
    }
}

/// The number below 2^64 that one to twenty decimal digits write. All other texts are none.
pub fn number_of(text: &str) -> Option<u64>
    ensures { result ≡ number_of text.now }
{
    if is_digits(text) {
        digits_number(text)
    } else {
        None
    }
}

fn digits_number(text: &str) -> Option<u64>
    requires { is_digits text.now ≡ true }
    ensures { result ≡ digits_number text.now }
{
    text.parse::<u64>().ok()
}

/// Whether a text is one to twenty decimal digits.
fn is_digits(text: &str) -> bool
    ensures { result ≡ is_digits text.now }
{
    !text.is_empty() && text.len() <= 20 && all_digits(text)
}

ghost use Rattle.std.specs.Prelude.{true};
ghost use Rattle.std.specs.List.{list_all};
ghost use Rattle.pm_gen.specs.Asking.{is_digit, is_digits, digits_number};

fn all_digits(text: &str) -> bool
    ensures { result ≡ list_all is_digit text.now }
{
    text.as_bytes().iter().all(|b| is_digit(*b))
}

fn is_digit(b: u8) -> bool
    ensures { result ≡ is_digit b }
{
    (b'0'..=b'9').contains(&b)
}
