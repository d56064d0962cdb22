// Written codes as bytes: two nybbles to a byte.
ghost use Rattle.std.specs.Prelude.{◌≡◌, ◌+◌, ◌*◌, ◌≤◌, ◌<◌, length, set};
ghost use mathlib.Core.List.{map, flatten};
ghost use Rattle.std.proofs.lemmas.List.Edits.{sets};
ghost use Rattle.nybbles.specs.Codes.{nybbles};
ghost use Rattle.nybbles.specs.Private.{max_codes, code_of, AreNybbles};

use crate::written::WrittenCode;

// Puts a nybble at a place, and leaves the other half of its byte as it is.
fn put_nybble(out: &mut [u8], at: usize, n: u8)
    requires { (n < 16) × (at < length (nybbles out.old)) }
    ensures { nybbles out.new ≡ set (nybbles out.old) at n }
{
    let i = at / 2;
    let b = out[i];
    out[i] = if at % 2 == 0 {
        n * 16 + b % 16
    } else {
        b / 16 * 16 + n
    };
}

// Puts the nybbles of a code at a place, and returns the place after them.
fn put_code(out: &mut [u8], at: usize, code: WrittenCode) -> usize
    requires { AreNybbles (code_of code) × (at ≤ 2 * max_codes) × (at + length (code_of code) ≤ length (nybbles out.old)) }
    ensures { (result ≡ at + length (code_of code)) × (nybbles out.new ≡ sets (nybbles out.old) at (code_of code)) }
{
    match code {
        WrittenCode::Single(v) => {
            put_nybble(out, at, v);
            at + 1
        }
        WrittenCode::Pair(n, g) => {
            put_nybble(out, at, n);
            put_nybble(out, at + 1, g);
            at + 2
        }
    }
}

// Puts the nybbles of codes at the start of an output that has room for them.
pub(crate) fn put_codes(codes: &[WrittenCode], out: &mut [u8])
    requires { (length codes.now ≤ max_codes) × AreNybbles (flatten (map code_of codes.now)) × (length (flatten (map code_of codes.now)) ≤ length (nybbles out.old)) }
    ensures { nybbles out.new ≡ sets (nybbles out.old) 0 (flatten (map code_of codes.now)) }
{
    let mut at: usize = 0;
    for code in codes {
        at = put_code(out, at, *code);
    }
}
