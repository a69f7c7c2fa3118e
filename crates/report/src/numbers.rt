// Decimal numbers, read.
ghost use Rattle.std.specs.Prelude.{◌≡◌};
ghost use Rattle.facts.specs.Decimal.{number_in};
ghost use Rattle.report.specs.Numbers.{number_of};

// The number that a text of decimal digits gives, if it is at most so large.
pub fn number_in(text: &[u8], most: u16) -> Option<u16>
    ensures { number_of result ≡ number_in most text.now }
{
    let mut value: u32 = 0;
    for &byte in text {
        if !byte.is_ascii_digit() {
            return None;
        }
        value = 10 * value + u32::from(byte - b'0');
        if u32::from(most) < value {
            return None;
        }
    }
    Some(value as u16)
}
