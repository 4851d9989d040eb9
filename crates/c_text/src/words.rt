//! Words in lists.

ghost use Rattle.std.specs.Prelude.{◌≡◌, bytes_eq, map};
ghost use Rattle.std.specs.List.{list_any};
ghost use Rattle.std.specs.Map.{lookup};

/// Whether a word is one of these.
pub fn is_among(word: &[u8], words: &[&[u8]]) -> bool
    ensures { result ≡ list_any (λ w. bytes_eq word.now w.now) words.now }
{
    words.iter().any(|w| word == *w)
}

/// What stands beside a word in a list, at its first place.
pub fn lookup<V: Copy>(word: &[u8], rows: &[(&[u8], V)]) -> Option<V>
    ensures { result ≡ lookup (bytes_eq word.now) (map (λ r. (r.0.now, r.1)) rows.now) }
{
    let mut left = rows;
    while let [row, rest @ ..] = left {
        if word == row.0 {
            return Some(row.1);
        }
        left = rest;
    }
    None
}
