// Numbers and bytes, written into a text from a place on. Each function answers where what it wrote ends.
// std's `write!` needs a writer that can fail; here the room is proved, and what is written is said to the byte.
#![tactic(auto)]

ghost use Rattle.std.specs.Prelude.{◌+◌, ◌≤◌, ◌<◌, ◌∷◌, [], length};
ghost use Rattle.text.specs.Decimal.{digit, digits, sign_text, decimal};
ghost use Rattle.text.specs.Inside.{Written};

// One byte.
pub fn put_byte(text: &mut [u8], at: usize, byte: u8) -> usize
    requires { at < length text.old }
    ensures { Written text.old at (byte ∷ []) text.new result }
{
    text[at] = byte;
    at + 1
}

// Bytes in their order.
pub fn put_bytes(text: &mut [u8], at: usize, bytes: &[u8]) -> usize
    requires { at + length bytes.now ≤ length text.old }
    ensures { Written text.old at bytes.now text.new result }
{
    let mut end = at;
    for byte in bytes {
        end = put_byte(text, end, *byte);
    }
    end
}

// A digit.
fn put_digit(text: &mut [u8], at: usize, d: u64) -> usize
    requires { (d < 10) × (at < length text.old) }
    ensures { Written text.old at (digit d ∷ []) text.new result }
{
    put_byte(text, at, 48 + d as u8)
}

// The digits of a number, the highest first.
fn put_digits(text: &mut [u8], at: usize, n: u64) -> usize
    requires { at + length (digits n) ≤ length text.old }
    ensures { Written text.old at (digits n) text.new result }
{
    if n < 10 {
        return put_digit(text, at, n);
    }
    let end = put_digits(text, at, n / 10);
    put_digit(text, end, n % 10)
}

// The sign of a number below 0.
fn put_sign(text: &mut [u8], at: usize, below: bool) -> usize
    requires { at + length (sign_text below) ≤ length text.old }
    ensures { Written text.old at (sign_text below) text.new result }
{
    if below {
        return put_byte(text, at, 45);
    }
    at
}

// A number, with its sign where it is below 0. It takes 20 bytes at most.
pub fn put_decimal(text: &mut [u8], at: usize, z: i64) -> usize
    requires { at + 20 ≤ length text.old }
    ensures written { Written text.old at (decimal z) text.new result }
    ensures upper_bound { result ≤ at + 20 }
{
    let start = put_sign(text, at, ints::negative(z));
    put_digits(text, start, ints::size(z))
}
