// A text under a shape (specs/Shape.antt), item by item: what stands at a place of the text, and what the whole of it is.
ghost use Rattle.std.specs.Prelude.{◌≡◌, ◌≤◌, ◌<◌, length, drop, IfSome, IfNone};
ghost use Rattle.text.specs.Items.{place_in};
ghost use Rattle.text.specs.Taken.{nibble, number_at, word_at, kind_at, byte_at, taken};
ghost use Rattle.text.specs.Fit.{Gets, Passes, fitted, zeros, pushed};

use super::items::{Item, Place};

// A number has at most ten digits, a tag is one of 32 bits.
const NUMBERS: u64 = 10_000_000_000;

const TAGS: u64 = 1 << 32;

// The values of a shape, in order, the last of them in e.
#[derive(Clone, Copy, Debug, PartialEq, Eq)]
pub struct Five {
    pub a: u64,
    pub b: u64,
    pub c: u64,
    pub d: u64,
    pub e: u64,
}

impl Five {
    // One value more: the others move up.
    fn push(self, value: u64) -> Five
        ensures { result ≡ pushed self value }
    {
        Five {
            a: self.b,
            b: self.c,
            c: self.d,
            d: self.e,
            e: value,
        }
    }
}

// A digit's value, if it is below the radix: capital letters are no digits.
#[tactic(auto, unfolding(crate::specs::Taken::nibble))]
fn digit_of(b: u8, radix: u64) -> Option<u64>
    requires { radix ≤ 16 }
    ensures digit { IfSome result (λ d. (d ≡ nibble b) × (d < radix)) }
    ensures none { IfNone result (radix ≤ nibble b) }
{
    let digit = match b {
        b'0'..=b'9' => b - b'0',
        b'a'..=b'f' => b - b'a' + 10,
        _ => return None,
    };
    let digit = u64::from(digit);
    if digit < radix { Some(digit) } else { None }
}

// A decimal of a number below the limit, without leading zeros.
#[tactic(auto, using(crate::proofs::Steps::drop_next), unfolding(crate::specs::Taken::number_at, crate::specs::Taken::more))]
fn take_number(s: &[u8], at: usize, limit: u64) -> Option<(u64, usize)>
    requires { limit ≤ 10000000000 }
    ensures { Gets s.now result (number_at limit (drop at s.now)) }
{
    let mut value = digit_of(*s.get(at)?, 10)?;
    for i in at + 1..s.len() {
        let Some(digit) = digit_of(s[i], 10) else {
            return Some((value, i));
        };
        if value == 0 {
            return None;
        }
        value = value * 10 + digit;
        if value >= limit {
            return None;
        }
    }
    Some((value, s.len()))
}

// Sixteen hexadecimal digits.
fn take_word(s: &[u8], at: usize) -> Option<(u64, usize)>
    requires { at ≤ length s.now }
    ensures { Gets s.now result (word_at 16 0 (drop at s.now)) }
{
    let mut value: u64 = 0;
    for i in at..at + 16 {
        value = value * 16 + digit_of(*s.get(i)?, 16)?;
    }
    Some((value, at + 16))
}

// The letter of a kind: x, y, z or p.
#[tactic(auto, using(crate::proofs::Steps::drop_next), unfolding(crate::specs::Taken::kind_at))]
fn take_kind(s: &[u8], at: usize) -> Option<(u64, usize)>
    ensures { Gets s.now result (kind_at (drop at s.now)) }
{
    let kind = match *s.get(at)? {
        b'x' => 0,
        b'y' => 1,
        b'z' => 2,
        b'p' => 3,
        _ => return None,
    };
    Some((kind, at + 1))
}

// What stands at a place of the text for a place of the shape: its value, and where the text goes on.
fn take(s: &[u8], at: usize, place: Place) -> Option<(u64, usize)>
    requires { at ≤ length s.now }
    ensures { Gets s.now result (taken (place_in place) (drop at s.now)) }
{
    match place {
        Place::Number => take_number(s, at, NUMBERS),
        Place::Tag => take_number(s, at, TAGS),
        Place::Word => take_word(s, at),
        Place::Kind => take_kind(s, at),
    }
}

// Goes past a byte.
#[tactic(auto, using(crate::proofs::Steps::drop_next), unfolding(crate::specs::Taken::byte_at))]
fn pass(s: &[u8], at: usize, b: u8) -> Option<usize>
    ensures { Passes s.now result (byte_at b (drop at s.now)) }
{
    if *s.get(at)? == b { Some(at + 1) } else { None }
}

// Reads the whole of a text by a shape.
pub fn read_by(shape: &[u8], s: &[u8]) -> Option<Five>
    ensures { result ≡ fitted shape.now zeros s.now }
{
    let mut values = Five {
        a: 0,
        b: 0,
        c: 0,
        d: 0,
        e: 0,
    };
    let mut at = 0;
    for &c in shape {
        match Item::of(c) {
            Item::Place(place) => {
                let (value, next) = take(s, at, place)?;
                values = values.push(value);
                at = next;
            }
            Item::Byte(b) => at = pass(s, at, b)?,
        }
    }
    if at == s.len() { Some(values) } else { None }
}
