// A shape with its values, written into a lent buffer as far as there is room: nothing is written past its end.
ghost use Rattle.std.specs.Prelude.{◌≤◌, ◌<◌, ◌≡◌, [], ◌∷◌, length};
ghost use Rattle.text.specs.Shape.{glyph, decimal, hexes, letter, shown, print};
ghost use Rattle.text.specs.Items.{place_in};
ghost use Rattle.text.specs.Wrote.{Wrote};

use super::items::{Item, Place};

// Puts a byte at a place of out, where there is room, and answers the next place.
fn put_byte(out: &mut [u8], at: usize, b: u8) -> usize
    requires { at ≤ length out.old }
    ensures { Wrote out.old at (b ∷ []) out.new result }
{
    if at < out.len() {
        out[at] = b;
        at + 1
    } else {
        at
    }
}

// The digit of a value, in lower case.
#[tactic(auto, unfolding(crate::specs::Shape::glyph))]
fn digit(v: u64) -> u8
    requires { v < 16 }
    ensures { result ≡ glyph v }
{
    if v < 10 {
        b'0' + v as u8
    } else {
        b'a' - 10 + v as u8
    }
}

// The decimal of v, without leading zeros.
fn put_decimal(out: &mut [u8], at: usize, v: u64) -> usize
    requires { at ≤ length out.old }
    ensures { Wrote out.old at (decimal v) out.new result }
{
    if v < 10 {
        return put_byte(out, at, digit(v));
    }
    let next = put_decimal(out, at, v / 10);
    put_byte(out, next, digit(v % 10))
}

// The last n hexadecimal digits of v.
fn put_hexes(out: &mut [u8], at: usize, n: usize, v: u64) -> usize
    requires { at ≤ length out.old }
    ensures { Wrote out.old at (hexes n v) out.new result }
{
    if n == 0 {
        return at;
    }
    let next = put_hexes(out, at, n - 1, v / 16);
    put_byte(out, next, digit(v % 16))
}

// The letter of a kind by number (`letter` of specs/Shape.antt).
#[tactic(auto, unfolding(crate::specs::Shape::letter))]
fn letter_of(v: u64) -> u8
    ensures { result ≡ letter v }
{
    match v {
        0 => b'x',
        1 => b'y',
        2 => b'z',
        _ => b'p',
    }
}

// What a place shows of the value v.
fn put_value(out: &mut [u8], at: usize, place: Place, v: u64) -> usize
    requires { at ≤ length out.old }
    ensures { Wrote out.old at (shown (place_in place) (v ∷ [])) out.new result }
{
    match place {
        Place::Number | Place::Tag => put_decimal(out, at, v),
        Place::Word => put_hexes(out, at, 16, v),
        Place::Kind => put_byte(out, at, letter_of(v)),
    }
}

// Writes a shape with its values from the start of out on, as far as there is room, and answers how many bytes that took. A value that is lacking is 0.
pub fn write_by(shape: &[u8], values: &[u64], out: &mut [u8]) -> usize
    ensures { Wrote out.old 0 (print shape.now values.now) out.new result }
{
    let mut at = 0;
    let mut left = values.iter();
    for &c in shape {
        at = match Item::of(c) {
            Item::Place(place) => {
                let value = left.next().copied().unwrap_or(0);
                put_value(out, at, place, value)
            }
            Item::Byte(b) => put_byte(out, at, b),
        };
    }
    at
}
