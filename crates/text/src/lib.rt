// Text in a lent buffer: each function puts its text at a place that has room for it, and answers the place after it.
#![tactic(auto)]

ghost use Rattle.std.specs.Prelude.{◌≡◌, cond, ◌+◌, ◌≤◌, ◌<◌, ltb, length};
ghost use Rattle.text.specs.Put.{Put};
ghost use Rattle.text.specs.Text.{digit, decimal, hexadecimal, refusal_line};

// These bytes as they are.
pub fn put(text: &mut [u8], place: usize, bytes: &[u8]) -> usize
    requires { place + length bytes.now ≤ length text.old }
    ensures { Put text.old place bytes.now result text.new }
{
    let end = place + bytes.len();
    text[place..end].copy_from_slice(bytes);
    end
}

// How much further than the digits the letters stand.
fn beyond(d: u8) -> u8
    ensures { result ≡ cond (ltb d 10) 0 39 }
{
    if d < 10 { 0 } else { 39 }
}

// The code of a digit below 16. One sum, so that the compiler works out many digits at once.
fn digit(d: u8) -> u8
    requires { d < 16 }
    ensures { result ≡ digit d }
{
    48 + d + beyond(d)
}

// How many digits n has in decimal.
#[tactic(auto, using(crate::proofs::Laws::power_length, crate::proofs::Laws::length_few))]
pub fn decimal_length(n: usize) -> usize
    ensures { result ≡ length (decimal n) }
{
    n.checked_ilog10().map_or(1, |k| k as usize + 1)
}

// The number in decimal.
pub fn put_decimal(text: &mut [u8], place: usize, n: usize) -> usize
    requires { place + length (decimal n) ≤ length text.old }
    ensures { Put text.old place (decimal n) result text.new }
{
    let end = place + decimal_length(n);
    let mut rest = n;
    for at in (place..end).rev() {
        text[at] = digit((rest % 10) as u8);
        rest /= 10;
    }
    end
}

// The bytes in hexadecimal.
pub fn put_hexadecimal(text: &mut [u8], place: usize, bytes: &[u8]) -> usize
    requires { place + length (hexadecimal bytes.now) ≤ length text.old }
    ensures { Put text.old place (hexadecimal bytes.now) result text.new }
{
    let mut at = place;
    for &b in bytes {
        text[at] = digit(b / 16);
        text[at + 1] = digit(b % 16);
        at += 2;
    }
    at
}

// The line of a refusal, by its number and its place or length.
pub fn put_refusal(text: &mut [u8], place: usize, k: u32, at: usize) -> usize
    requires { place + length (refusal_line k at) ≤ length text.old }
    ensures { Put text.old place (refusal_line k at) result text.new }
{
    let number = put(text, place, b"refused ");
    let middle = put_decimal(text, number, k as usize);
    let value = put(text, middle, b" at ");
    let end = put_decimal(text, value, at);
    put(text, end, b"\n")
}
