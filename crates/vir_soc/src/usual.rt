// Lines of votes in their usual shape, which are read in one pass over the bytes that they begin. A line feed stands
// somewhere in these bytes, and each function here stops at it at the latest. So no function asks whether there is a
// further byte.
ghost use Rattle.std.specs.Prelude.{◌≡◌, ◌≤◌, ◌<◌, ◌^◌, ℕ, List, [], ◌++◌, ◌∷◌, decimal, drop, length};
ghost use Rattle.std.specs.Prelude.{false, nat_eq, replicate, IfSome};
ghost use Rattle.std.specs.List.{prefix_len};
ghost use Rattle.vir_altset.specs.Sets.{limit};
ghost use Rattle.vir_soc.specs.Reader.UsualLines.{BeginsWithOrder, BeginsWithVotes, HasLineFeed};

use std::alloc::Global;
use vir_profile::{ALTERNATIVES_IN_PLACE, Ballot, Entry, Few, LIMIT, NARROW};

/// A mark for each number up to the greatest alternative.
const MARKS: usize = LIMIT as usize + 1;

/// A number below this bound may have a further digit.
const DIGIT_BOUND: u64 = 100_000_000_000_000_000;

/// A number above 0 that a text begins with, and what stands behind its digits.
#[derive(Clone, Copy)]
struct Leading<'a> {
    number: u64,
    rest: &'a [u8],
}

/// The number that the text begins with, where it has no leading zero and isn't too long.
fn leading_number(text: &[u8]) -> Option<Leading<'_>>
    requires { HasLineFeed text.now }
    ensures text { IfSome result (λ r. text.now ≡ decimal r.number ++ r.rest.now) }
    ensures some { IfSome result (λ r. 1 ≤ r.number) }
    ensures small { IfSome result (λ r. r.number < 2 ^ 64) }
    ensures shorter { IfSome result (λ r. length r.rest.now < length text.now) }
{
    if text[0] < b'1' || text[0] > b'9' {
        return None;
    }
    let mut number = u64::from(text[0] - b'0');
    let mut i = 1;
    while text[i] >= b'0' && text[i] <= b'9' && number < DIGIT_BOUND {
        number = number * 10 + u64::from(text[i] - b'0');
        i += 1;
    }
    Some(Leading {
        number,
        rest: &text[i..],
    })
}

/// What stands behind this byte, where the text begins with it.
pub fn behind(byte: u8, text: &[u8]) -> Option<&[u8]>
    requires { HasLineFeed text.now }
    ensures { IfSome result (λ rest. text.now ≡ byte ∷ rest.now) }
{
    if text[0] != byte {
        return None;
    }
    Some(&text[1..])
}

/// The text without the spaces at its front.
fn unspaced(text: &[u8]) -> &[u8]
    requires { HasLineFeed text.now }
    ensures digits { result.now ≡ drop (prefix_len (λ c. nat_eq c 32) text.now) text.now }
    ensures feed { HasLineFeed result.now }
{
    if text[0] != b' ' {
        return text;
    }
    let mut from = 0;
    while text[from] == b' ' {
        from += 1;
    }
    &text[from..]
}

/// A list of places that grows as an order is read.
trait Places: Drop {
    /// What it lists.
    ghost list: { Self → List ℕ };

    /// It takes so many places, each up to this number.
    ghost most: { ℕ };

    /// Appends a place; None where memory is wanting.
    fn put(&mut self, place: u64) -> Option<()>
        requires small { place ≤ most }
        requires room { length (list self.old) < most }
        ensures { IfSome result (λ _. list self.new ≡ list self.old ++ place ∷ []) };

    /// How many places it lists.
    fn count(&self) -> usize
        ensures { result ≡ length (list self.now) };
}

impl Places for Few {
    ghost list = { λ few. few };

    ghost most = { 14 };

    fn put(&mut self, place: u64) -> Option<()> {
        self.push(place as u8);
        Some(())
    }

    fn count(&self) -> usize {
        self.len()
    }
}

impl Places for Vec<u8> {
    ghost list = { λ places. places.items };

    ghost most = { 255 };

    fn put(&mut self, place: u64) -> Option<()> {
        self.push(place as u8).ok()
    }

    fn count(&self) -> usize {
        self.len()
    }
}

impl Places for Vec<u16> {
    ghost list = { λ places. places.items };

    ghost most = { 1024 };

    fn put(&mut self, place: u64) -> Option<()> {
        self.push(place as u16).ok()
    }

    fn count(&self) -> usize {
        self.len()
    }
}

/// The order of all m alternatives that the bytes begin with in the usual shape, and what stands behind it; None
/// also where memory is wanting. The places are put behind none, and no number is marked as seen.
fn places_of<'a, P: Places>(
    m: u16,
    none: P,
    seen: &mut [bool],
    bytes: &'a [u8],
) -> Option<(P, &'a [u8])>
    requires few { m ≤ limit }
    requires most { m ≤ P.most }
    requires none { P.list none ≡ [] }
    requires size { m < length seen.old }
    requires unseen { seen.old ≡ replicate (length seen.old) false }
    requires feed { HasLineFeed bytes.now }
    ensures { IfSome result (λ r. BeginsWithOrder m bytes.now (P.list r.0) r.1.now) }
{
    let mut order = none;
    let mut rest = bytes;
    loop {
        let next = leading_number(unspaced(rest))?;
        if next.number > u64::from(m) {
            return None;
        }
        let x = next.number as usize;
        if seen[x] {
            return None;
        }
        seen[x] = true;
        order.put(next.number)?;
        if order.count() >= usize::from(m) {
            return Some((order, next.rest));
        }
        rest = behind(b',', next.rest)?;
    }
}

/// The order of all m alternatives that the bytes begin with in the usual shape, and what stands behind it; None
/// also where memory is wanting.
fn usual_order<'a>(alloc: Global, m: u16, bytes: &'a [u8]) -> Option<(Ballot, &'a [u8])>
    requires few { m ≤ limit }
    requires feed { HasLineFeed bytes.now }
    ensures { IfSome result (λ r. BeginsWithOrder m bytes.now r.0 r.1.now) }
{
    let room = usize::from(m);
    if room <= ALTERNATIVES_IN_PLACE {
        let (few, rest) = places_of(
            m,
            Few::none(),
            &mut [false; ALTERNATIVES_IN_PLACE + 1],
            bytes,
        )?;
        return Some((Ballot::of_few(few), rest));
    }
    if room <= NARROW {
        let none: Vec<u8> = Vec::with_capacity(alloc, room).ok()?;
        let (places, rest) = places_of(m, none, &mut [false; NARROW + 1], bytes)?;
        if places.len() > NARROW {
            return None;
        }
        return Some((Ballot::of_bytes(alloc, places).ok()?, rest));
    }
    let none: Vec<u16> = Vec::with_capacity(alloc, room).ok()?;
    let (places, rest) = places_of(m, none, &mut [false; MARKS], bytes)?;
    Some((Ballot::of(alloc, places).ok()?, rest))
}

/// The line of votes that the bytes begin with in the usual shape, and what stands behind it: no number has a
/// leading zero, and blanks stand behind the colon and the commas alone, where they are spaces. None for any other
/// bytes, and where memory is wanting.
pub fn usual_line<'a>(alloc: Global, m: u16, bytes: &'a [u8]) -> Option<(Entry, &'a [u8])>
    requires few { m ≤ limit }
    requires feed { HasLineFeed bytes.now }
    ensures { IfSome result (λ r. BeginsWithVotes m bytes.now r.0.weight r.0.order r.1.now) }
{
    let count = leading_number(bytes)?;
    let (order, rest) = usual_order(alloc, m, behind(b':', count.rest)?)?;
    let weight = count.number;
    Some((Entry { weight, order }, rest))
}
