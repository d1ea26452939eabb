//! Names of clients and rooms.
ghost use Rattle.std.specs.Prelude.{◌≡◌};
ghost use Rattle.std.specs.List.{list_all};
ghost use Rattle.pm_head.specs.Names.{is_name as name_of, is_name_letter as name_letter};

/// Whether a text is the name of a client or a room: 1 to 16 characters of `a` to `z` and `0` to `9`.
pub fn is_name(text: &str) -> bool
    ensures { result ≡ name_of text.now }
{
    !text.is_empty() && text.len() <= 16 && all_name_letters(text)
}

fn all_name_letters(text: &str) -> bool
    ensures { result ≡ list_all name_letter text.now }
{
    text.as_bytes().iter().all(|b| is_name_letter(*b))
}

fn is_name_letter(byte: u8) -> bool
    ensures { result ≡ name_letter byte }
{
    (97 <= byte && byte <= 122) || (48 <= byte && byte <= 57)
}
