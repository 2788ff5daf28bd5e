// Parts of a text: where one ends, and what stands before and behind a byte.
ghost use Rattle.std.specs.Prelude.{◌≡◌, ◌+◌, ◌≤◌, [], ◌∷◌, length, drop, MatchOption};
ghost use Rattle.lines.specs.Base.{split};
ghost use Rattle.lines.specs.Code.{first};

// The place of the first byte c from `from` on, or the length.
pub fn find(s: &[u8], from: usize, c: u8) -> usize
    requires { from ≤ length s.now }
    ensures { result ≡ from + first c (drop from s.now) }
{
    match s[from..].iter().position(|b| *b == c) {
        Some(n) => from + n,
        None => s.len(),
    }
}

// What stands before the first byte c, and what stands behind it, if there is one.
pub fn cut(s: &[u8], c: u8) -> Option<(&[u8], &[u8])>
    ensures { MatchOption result (split c s.now ≡ s.now ∷ []) (λ p. split c s.now ≡ p.0.now ∷ split c p.1.now) }
{
    let e = s.iter().position(|b| *b == c)?;
    Some((&s[..e], &s[e + 1..]))
}
