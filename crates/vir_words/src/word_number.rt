// Numbers as words of the command line.
ghost use Rattle.std.specs.Prelude.{◌≡◌, ◌≤◌, IfSome};
ghost use Rattle.vir_words.specs.WordNumbers.{is_number, number_within, plain_number};

use itoa::Buffer;

// Whether a word is one digit or more, and nothing else.
fn is_number(word: &str) -> bool
    ensures { result ≡ is_number word.now }
{
    !word.is_empty() && word.as_bytes().iter().all(|byte| byte.is_ascii_digit())
}

/// The number that a word of digits alone writes, where it is one of `low` to `high`.
pub fn word_number(word: &str, low: u64, high: u64) -> Option<u64>
    ensures number { result ≡ number_within low high word.now }
    ensures range { IfSome result (λ number. (low ≤ number) × (number ≤ high)) }
{
    if !is_number(word) {
        return None;
    }
    let Ok(number) = word.parse::<u64>() else {
        return None;
    };
    if low <= number && number <= high {
        Some(number)
    } else {
        None
    }
}

/// The number that a word of digits writes without leading zeros, where it is at most `most`.
pub fn plain_number(word: &str, most: u64) -> Option<u64>
    ensures { result ≡ plain_number most word.now }
{
    let number = word_number(word, 0, most)?;
    let mut buffer = Buffer::new();
    if buffer.format(number).as_bytes() == word.as_bytes() {
        Some(number)
    } else {
        None
    }
}
