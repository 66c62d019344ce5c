// The numbers of the command line.
ghost use Rattle.std.specs.Prelude.{◌≡◌, ◌≤◌, IfSome};
ghost use Rattle.std.specs.Char.{is_ascii_digit};
ghost use Rattle.std.specs.List.{list_all};
ghost use Rattle.command_words.specs.Numbers.{is_number, number_in};

/// The most digits of a number.
pub const MAX_DIGITS: usize = 10;

// Each byte is a digit.
fn is_all_digits(text: &str) -> bool
    ensures { result ≡ list_all is_ascii_digit text.now }
{
    text.bytes().all(|byte| byte.is_ascii_digit())
}

// The text is 1 to 10 digits.
fn is_number(text: &str) -> bool
    ensures { result ≡ is_number text.now }
{
    !text.is_empty() && text.len() <= MAX_DIGITS && is_all_digits(text)
}

/// The number of a text, where it is one from `low` to `high`.
pub fn number_in(text: &str, low: u32, high: u32) -> Option<u32>
    ensures number { result ≡ number_in low high text.now }
    ensures range { IfSome result (λ number. (low ≤ number) × (number ≤ high)) }
{
    if !is_number(text) {
        return None;
    }
    let Ok(number) = text.parse::<u64>() else {
        return None;
    };
    if number < u64::from(low) || number > u64::from(high) {
        return None;
    }
    Some(number as u32)
}
