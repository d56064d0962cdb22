// The parts of a line.
ghost use Rattle.std.specs.Prelude.{◌≡◌, MatchOption};
ghost use Rattle.ascii.specs.Parts.{first_part, Split};

// What stands before the first byte `mark` and what stands behind it; none where there is no such byte.
pub fn split_once(bytes: &[u8], mark: u8) -> Option<(&[u8], &[u8])>
    ensures { MatchOption result (first_part mark bytes.now ≡ bytes.now) (λ x. Split mark bytes.now x.0.now x.1.now) }
{
    let at = bytes.iter().position(|b| *b == mark)?;
    Some((&bytes[..at], &bytes[at + 1..]))
}
