// Digits to a number, of the base and the most digits that the field has.
ghost use Rattle.std.specs.Prelude.{◌≡◌, ◌≤◌};
ghost use Rattle.lines.specs.Numbers.{number_of};
ghost use Rattle.lines.specs.Commands.{decimal, hexadecimal, byte_in};

// All of s as a number of 1 to `limit` digits.
fn number(s: &[u8], base: u32, limit: usize) -> Option<u32>
    requires { (2 ≤ base) × (base ≤ 16) × (limit ≤ 8) }
    ensures { result ≡ number_of base limit s.now }
{
    if s.is_empty() || limit < s.len() {
        return None;
    }
    let mut value = 0;
    for &b in s {
        value = value * base + char::from(b).to_digit(base)?;
    }
    Some(value)
}

// A decimal number of 1 to 4 digits.
pub(crate) fn decimal(s: &[u8]) -> Option<u32>
    ensures { result ≡ decimal s.now }
{
    number(s, 10, 4)
}

// A hexadecimal number of 1 to 8 digits, of either case.
pub(crate) fn hexadecimal(s: &[u8]) -> Option<u32>
    ensures { result ≡ hexadecimal s.now }
{
    number(s, 16, 8)
}

// The number of a field that holds a byte.
pub(crate) fn byte_in(number: Option<u32>) -> Option<u8>
    ensures { result ≡ byte_in number }
{
    u8::try_from(number?).ok()
}
