// Hexadecimal: digits of either case, the most significant first.
ghost use Rattle.std.specs.Prelude.{◌≡◌, ◌+◌, ◌*◌, ◌^◌, ◌<◌, ◌≤◌, length, IfSome, Some};
ghost use Rattle.std.specs.Iterator.{YieldsFirst, item_count};
ghost use Rattle.known_answers.specs.Hex.{digit_of, paired, byte_of, number_of, block_of, bytes_of, pairs_of};
ghost use Rattle.known_answers.specs.Keys.{key_of};

use crate::keys::KeyBytes;
use std::marker::Model;

// What a digit is worth.
pub fn digit(c: char) -> Option<u8>
    ensures value { result ≡ digit_of c }
    ensures within { IfSome result (λ d. d < 16) }
{
    c.to_digit(16).map(|d| d as u8)
}

// The byte that two digits write.
pub fn byte(high: u8, low: u8) -> Option<u8>
    ensures { result ≡ byte_of high low }
{
    Some(digit(char::from(high))? * 16 + digit(char::from(low))?)
}

// One digit more below a number.
fn grown(value: u64, c: u8) -> Option<u64>
    requires { value < 2 ^ 60 }
    ensures value { result ≡ paired (Some value) (digit_of c) }
    ensures within { IfSome result (λ n. n < 16 * (value + 1)) }
{
    Some(value * 16 + u64::from(digit(char::from(c))?))
}

// The number that at most sixteen digits write. A `for`, since `try_fold` asks for a closure that takes every number.
fn number(digits: &[u8]) -> Option<u64>
    requires { length digits.now ≤ 16 }
    ensures { result ≡ number_of digits.now }
{
    let mut value = 0;
    for c in digits {
        value = grown(value, *c)?;
    }
    Some(value)
}

// The block that exactly sixteen digits write.
pub fn block(digits: &[u8]) -> Option<u64>
    ensures { result ≡ block_of digits.now }
{
    if digits.len() == 16 {
        number(digits)
    } else {
        None
    }
}

// What each pair of digits writes, one after another, and `None` for a last digit alone.
#[derive(Drop)]
pub struct Pairs<'a> {
    digits: &'a [u8],
}

impl<'a> Model for Pairs<'a> {
    ghost use Rattle.std.specs.Prelude.{ℕ, List, Option};
    ghost use Rattle.known_answers.specs.Hex.{pairs_of};

    ghost Value = { List (Option ℕ) };

    ghost view = { λ p. pairs_of p.digits.now };
}

impl<'a> Pairs<'a> {
    pub fn new(digits: &'a [u8]) -> Pairs<'a>
        ensures { result ≡ pairs_of digits.now }
    {
        Pairs { digits }
    }
}

impl<'a> Iterator for Pairs<'a> {
    type Item = Option<u8>;

    ghost next_gives = { YieldsFirst (λ pairs. pairs) };

    ghost remaining = { item_count (λ pairs. pairs) };

    fn next(&mut self) -> Option<Option<u8>> {
        match self.digits {
            [] => None,
            [_] => {
                self.digits = &[];
                Some(None)
            }
            [high, low, rest @ ..] => {
                self.digits = rest;
                Some(byte(*high, *low))
            }
        }
    }
}

// The bytes that at most 192 digits write, two to a byte.
fn bytes(digits: &[u8]) -> Option<KeyBytes>
    requires { length digits.now ≤ 192 }
    ensures { result ≡ bytes_of digits.now }
{
    let mut key = KeyBytes::new();
    for byte in Pairs::new(digits) {
        key.push(byte?);
    }
    Some(key)
}

// The key that the digits write, two to a byte; none where they do not, or write more than 96 bytes.
pub fn key_bytes(digits: &[u8]) -> Option<KeyBytes>
    ensures { result ≡ key_of digits.now }
{
    if digits.len() > 192 {
        None
    } else {
        bytes(digits)
    }
}
