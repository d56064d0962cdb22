// Numbers in decimal, written and read.
ghost use Rattle.std.specs.Prelude.{◌≡◌, ◌<◌};
ghost use Rattle.ascii.specs.Output.{Puts, PutsUpTo};
ghost use Rattle.ascii.specs.Decimal.{digit, decimal, pair, signed, with_sign, is_digit, number_of};

use crate::output::Output;

// The byte of a decimal digit.
fn digit(d: u64) -> u8
    requires { d < 10 }
    ensures { result ≡ digit d }
{
    b'0' + d as u8
}

impl Output<'_> {
    // Puts the last two digits of a number.
    pub fn put_pair(&mut self, n: u64)
        ensures { Puts self.old self.new (pair n) }
    {
        self.put_both(digit(n / 10 % 10), digit(n % 10));
    }

    // Puts a number, with no leading zero. By four digits at a time, since calls and divisions take longer than digits.
    pub fn put_decimal(&mut self, n: u64)
        ensures { PutsUpTo 20 self.old self.new (decimal n) }
    {
        if n < 10 {
            self.put(digit(n));
        } else if n < 100 {
            self.put_pair(n);
        } else if n < 10_000 {
            self.put_decimal(n / 100);
            self.put_pair(n);
        } else {
            self.put_decimal(n / 10_000);
            self.put_pair(n / 100);
            self.put_pair(n);
        }
    }

    // Puts an integer, with `-` if it is below zero.
    pub fn put_signed(&mut self, z: i32)
        ensures { PutsUpTo 21 self.old self.new (signed z) }
    {
        if z < 0 {
            self.put(b'-');
        }
        self.put_decimal(u64::from(z.unsigned_abs()));
    }

    // Puts an integer with its sign, `+` for zero.
    pub fn put_with_sign(&mut self, z: i32)
        ensures { PutsUpTo 21 self.old self.new (with_sign z) }
    {
        self.put(if z < 0 { b'-' } else { b'+' });
        self.put_decimal(u64::from(z.unsigned_abs()));
    }
}

// Whether a byte is a decimal digit.
pub(crate) fn is_digit(b: u8) -> bool
    ensures { result ≡ is_digit b }
{
    b.is_ascii_digit()
}

// The number that a field gives: one or more decimal digits, at most 2^64 - 1; leading zeros are allowed.
pub fn read_decimal(field: &[u8]) -> Option<u64>
    ensures { result ≡ number_of field.now }
{
    if field.is_empty() {
        return None;
    }
    let mut n: u64 = 0;
    for b in field {
        if !is_digit(*b) {
            return None;
        }
        n = n.checked_mul(10)?.checked_add(u64::from(*b - b'0'))?;
    }
    Some(n)
}
