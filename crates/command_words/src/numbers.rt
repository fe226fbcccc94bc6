//! Numbers in words.

ghost use Rattle.std.specs.Prelude.{◌≡◌};
ghost use Rattle.std.specs.List.{list_all};
ghost use Rattle.std.specs.Char.{is_ascii_digit};
ghost use Rattle.command_words.specs.Words as words_of;

/// The number that 1 to so many digits spell, where it is within these bounds.
pub(crate) fn number_of(text: &str, digits: usize, least: u64, most: u64) -> Option<u64>
    ensures { result ≡ words_of.number digits least most text.now }
{
    if text.len() > digits || !are_digits(text.as_bytes()) {
        return None;
    }
    let number = text.parse::<u64>().ok()?;
    if least <= number && number <= most {
        Some(number)
    } else {
        None
    }
}

fn are_digits(text: &[u8]) -> bool
    ensures { result ≡ list_all is_ascii_digit text.now }
{
    text.iter().all(|c| c.is_ascii_digit())
}
