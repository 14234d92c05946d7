#![tactic(auto)]

ghost use Rattle.std.specs.Prelude.{◌≡◌, ◌+◌, ◌-◌, ◌*◌, ◌^◌, ◌&&◌, IfOk, if◌then◌else◌, Some, None, nat_lt, option_map};
ghost use Rattle.std.specs.Borrow.{sem, u32};
ghost use Rattle.hexwords.specs.Room.{KeepsShown};
ghost use Rattle.numerals.specs.Numerals.{is_digit, number_in, items_in, numbers_of, numbers_in};

use std::alloc::AllocError;

// The number n with one digit more, if the byte is one and 32 bits hold it.
fn with_digit(n: u32, b: u8) -> Option<u32>
    ensures { result ≡ (if is_digit b && nat_lt (10 * n + (b - 48)) (2 ^ 32) then Some (10 * n + (b - 48)) else None) }
{
    let digit = char::from(b).to_digit(10)?;
    n.checked_mul(10)?.checked_add(digit)
}

// The number that a word writes in decimal digits, if 32 bits hold it.
pub fn number(word: &[u8]) -> Option<u32>
    ensures { result ≡ number_in word.now }
{
    if word.is_empty() {
        return None;
    }
    let mut n = 0;
    for b in word {
        n = with_digit(n, *b)?;
    }
    Some(n)
}

// The numbers between the commas of a word, in the room of `numbers`, if each is one.
fn read_items<'a>(numbers: &'a mut Vec<u32>, word: &[u8]) -> Result<Option<&'a [u32]>, AllocError>
    ensures* after_borrow { sem 𝓛 (KeepsShown u32 numbers.entry result) }
    ensures list { IfOk result (λ all. option_map (λ n. n.now) all ≡ numbers_of (items_in word.now)) }
{
    numbers.clear();
    for item in word.split(|b| *b == b',') {
        let Some(n) = number(item) else {
            return Ok(None);
        };
        numbers.push(n)?;
    }
    Ok(Some(numbers.as_slice()))
}

// The list of numbers that a word writes, in the room of `numbers`, which keeps it; none of them as `-`.
pub fn read_numbers<'a>(
    numbers: &'a mut Vec<u32>,
    word: &[u8],
) -> Result<Option<&'a [u32]>, AllocError>
    ensures* after_borrow { sem 𝓛 (KeepsShown u32 numbers.entry result) }
    ensures list { IfOk result (λ all. option_map (λ n. n.now) all ≡ numbers_in word.now) }
{
    match word {
        [b'-'] => {
            numbers.clear();
            Ok(Some(numbers.as_slice()))
        }
        _ => read_items(numbers, word),
    }
}
