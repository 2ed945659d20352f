// Bytes: cutting, trimming, and numbers in digits.
ghost use Rattle.std.specs.Prelude.{◌≡◌, ◌≤◌, ◌<◌, ◌^◌, [], true, false, drop, length, min, nat_eq, take, MatchOption};
ghost use Rattle.std.specs.Option.{option_map};
ghost use Rattle.std.specs.List.{list_any, position_or_len, before_first, after_first};
ghost use Rattle.vir_profile.specs.SocFiles.{is_blank, is_line_feed};
ghost use Rattle.vir_soc.specs.Lines.{trim, trim_back, trim_front, without_mark};
ghost use Rattle.vir_soc.specs.Numbers.{number};
ghost use Rattle.vir_soc.specs.Reader.Pieces.{unended};
ghost use Rattle.vir_soc.specs.Reader.UsualLines.{HasLineFeed};

use memchr::{memchr, memrchr};

/// Where the byte first stands, or the length.
fn find(byte: u8, text: &[u8]) -> usize
    ensures place { result ≡ position_or_len (λ c. nat_eq c byte) text.now }
    ensures within { result ≤ length text.now }
{
    match memchr(byte, text) {
        Some(place) => place,
        None => text.len(),
    }
}

/// What stands before the first such byte, and what stands behind it, if there is one.
pub fn cut(byte: u8, text: &[u8]) -> (&[u8], Option<&[u8]>)
    ensures before { result.0.now ≡ before_first (λ c. nat_eq c byte) text.now }
    ensures after { MatchOption result.1
        (list_any (λ c. nat_eq c byte) text.now ≡ false)
        (λ rest. (list_any (λ c. nat_eq c byte) text.now ≡ true)
        × (rest.now ≡ after_first (λ c. nat_eq c byte) text.now)) }
{
    let end = find(byte, text);
    let before = &text[..end];
    if end == text.len() {
        (before, None)
    } else {
        (before, Some(&text[end + 1..]))
    }
}

/// The line with which the bytes begin, and what stands behind its line feed.
pub fn first_line(bytes: &[u8]) -> (&[u8], &[u8])
    requires { HasLineFeed bytes.now }
    ensures line { result.0.now ≡ before_first is_line_feed bytes.now }
    ensures rest { result.1.now ≡ after_first is_line_feed bytes.now }
    ensures one_line { list_any is_line_feed result.0.now ≡ false }
{
    let (line, after) = cut(b'\n', bytes);
    match after {
        Some(rest) => (line, rest),
        None => unreachable!(),
    }
}

/// How many bytes there are up to the last line feed, and with it.
pub fn ended_len(bytes: &[u8]) -> usize
    ensures within { result ≤ length bytes.now }
    ensures ended { unended [] (take result bytes.now) ≡ [] }
    ensures begun { list_any is_line_feed (drop result bytes.now) ≡ false }
{
    match memrchr(b'\n', bytes) {
        Some(place) => place + 1,
        None => 0,
    }
}

fn is_blank(c: u8) -> bool
    ensures { result ≡ Rattle.vir_profile.specs.SocFiles.is_blank c }
{
    c == b' ' || c == b'\t' || c == b'\r'
}

fn trim_front(text: &[u8]) -> &[u8]
    ensures { result.now ≡ trim_front text.now }
{
    let mut from = 0;
    while from < text.len() && is_blank(text[from]) {
        from += 1;
    }
    &text[from..]
}

fn trim_back(text: &[u8]) -> &[u8]
    ensures { result.now ≡ trim_back text.now }
{
    let mut to = text.len();
    while to > 0 && is_blank(text[to - 1]) {
        to -= 1;
    }
    &text[..to]
}

/// The text without the blanks at its ends.
pub fn trim(text: &[u8]) -> &[u8]
    ensures { result.now ≡ trim text.now }
{
    trim_back(trim_front(text))
}

/// The number that the text spells, or 2^64 where it is greater.
pub fn number(text: &[u8]) -> Option<u128>
    ensures { result ≡ option_map (λ n. min n (2 ^ 64)) (number text.now) }
{
    if text.is_empty() {
        return None;
    }
    let mut n: u128 = 0;
    for c in text {
        if !c.is_ascii_digit() {
            return None;
        }
        n = (n * 10 + u128::from(*c - b'0')).min(1 << 64);
    }
    Some(n)
}

/// The text without a byte order mark at its front.
pub fn without_mark(text: &[u8]) -> &[u8]
    ensures { result.now ≡ without_mark text.now }
{
    text.strip_prefix(&[0xEF, 0xBB, 0xBF]).unwrap_or(text)
}
