// Digits of a base, ten or sixteen: the number that a text of digits makes, a number as a person gives it, and the digit of a value.
#![tactic(auto)]

ghost use Rattle.std.specs.Prelude.{◌≡◌, ◌%◌, ◌≤◌, ◌<◌, ◌^◌};
ghost use Rattle.digits.specs.rules.Digits.{digit_value, digit_of};
ghost use Rattle.digits.specs.rules.Numbers.{number_up_to, is_marked, given_of};

// The value of a digit, letters in either case; 16 for a character that is no digit.
#[tactic(auto, unfolding(crate::specs::rules::Digits::digit_value, words::specs::rules::Bits::within, words::specs::rules::Choice::pick))]
fn value_of(character: u8) -> u8
    ensures { result ≡ digit_value character }
{
    match character {
        b'0'..=b'9' => character - b'0',
        b'A'..=b'F' => character - b'A' + 10,
        b'a'..=b'f' => character - b'a' + 10,
        _ => 16,
    }
}

// The number that one digit or more of a base make, if it is no larger than the most.
fn number_of(text: &[u8], base: u64, most: u64) -> Option<u32>
    requires { (1 ≤ base) × ((base ≤ 16) × (most < 2 ^ 32)) }
    ensures { result ≡ number_up_to base most text.now }
{
    if text.is_empty() {
        return None;
    }
    let mut value: u64 = 0;
    for byte in text {
        let digit = value_of(*byte) as u64;
        if base <= digit {
            return None;
        }
        value = value * base + digit;
        if most < value {
            return None;
        }
    }
    Some(value as u32)
}

// The number of decimal digits.
pub fn decimal(text: &[u8], most: u32) -> Option<u32>
    ensures { result ≡ number_up_to 10 most text.now }
{
    number_of(text, 10, most as u64)
}

// The number of hexadecimal digits.
pub fn hexadecimal(text: &[u8], most: u32) -> Option<u32>
    ensures { result ≡ number_up_to 16 most text.now }
{
    number_of(text, 16, most as u64)
}

// Does 0x stand before the digits?
#[tactic(auto, unfolding(crate::specs::rules::Numbers::is_marked))]
fn is_marked(text: &[u8]) -> bool
    ensures { result ≡ is_marked text.now }
{
    1 < text.len() && text[0] == b'0' && text[1] == b'x'
}

// A number of 32 bits that a person gives: 0x and hexadecimal digits, or decimal digits.
pub fn given(text: &[u8]) -> Option<u32>
    ensures { result ≡ given_of text.now }
{
    if is_marked(text) {
        return hexadecimal(&text[2..], 0xFFFF_FFFF);
    }
    decimal(text, 0xFFFF_FFFF)
}

// The digit of a value below 16, in capitals: from 10 on the letters, seven places after where the numbers end.
#[tactic(auto, unfolding(crate::specs::rules::Digits::digit_of, words::specs::rules::Choice::pick))]
fn digit(value: u8) -> u8
    requires { value < 16 }
    ensures { result ≡ digit_of value }
{
    b'0' + value + 7 * ((value + 6) / 16)
}

// The last hexadecimal digit of a number.
pub fn last_digit(number: u32) -> u8
    ensures { result ≡ digit_of (number % 16) }
{
    digit((number % 16) as u8)
}
