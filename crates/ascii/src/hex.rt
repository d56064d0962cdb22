// Bytes in hex, written and read.
ghost use Rattle.std.specs.Prelude.{◌≡◌, ◌<◌};
ghost use Rattle.ascii.specs.Output.{Puts};
ghost use Rattle.ascii.specs.Hex.{hex_digit, hex, is_low, is_high, is_hex_digit, nybble_of, is_hex, unhex};

use crate::decimal::is_digit;
use crate::output::Output;

// The byte of a hex digit, in lower case.
fn hex_digit(d: u8) -> u8
    requires { d < 16 }
    ensures { result ≡ hex_digit d }
{
    if d < 10 {
        return b'0' + d;
    }
    b'a' + (d - 10)
}

impl Output<'_> {
    // Puts bytes in hex, two digits a byte.
    pub fn put_hex(&mut self, bytes: &[u8])
        ensures { Puts self.old self.new (hex bytes.now) }
    {
        for b in bytes {
            self.put_both(hex_digit(b / 16), hex_digit(b % 16));
        }
    }

    // Puts the bytes that a field stands for in hex.
    pub fn put_unhex(&mut self, field: &[u8])
        ensures { Puts self.old self.new (unhex field.now) }
    {
        for two in field.chunks_exact(2) {
            self.put(nybble_of(two[0]) * 16 + nybble_of(two[1]));
        }
    }
}

// Whether a byte is a hex digit of either case.
fn is_hex_digit(b: u8) -> bool
    ensures { result ≡ is_hex_digit b }
{
    b.is_ascii_hexdigit()
}

// What a hex digit of either case stands for; 0 for another byte.
fn nybble_of(b: u8) -> u8
    ensures { (result ≡ nybble_of b) × (result < 16) }
{
    match b {
        b'0'..=b'9' => b - b'0',
        b'a'..=b'f' => b - b'a' + 10,
        b'A'..=b'F' => b - b'A' + 10,
        _ => 0,
    }
}

// Whether a field is hex: an even number of hex digits, of either case.
pub fn is_hex(field: &[u8]) -> bool
    ensures { result ≡ is_hex field.now }
{
    field.iter().all(|b| is_hex_digit(*b)) && field.len() % 2 == 0
}
