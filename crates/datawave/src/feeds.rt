ghost use Rattle.std.specs.Prelude.{◌≡◌, ◌++◌, ◌∷◌, ◌<◌, ◌+◌, [], ℕ, List, length, take, drop, IfSome, IfNone};
ghost use Rattle.datawave.specs.Lines.{whole_lines_after, rest_after};

use crate::exchange::after;

/// Where the first line feed stands.
fn find_feed(bytes: &[u8]) -> Option<usize>
    ensures within { IfSome result (λ at. at < length bytes.now) }
    ensures found { IfSome result (λ at. (front : List ℕ) → whole_lines_after front bytes.now ≡ (front ++ take at bytes.now) ∷ whole_lines_after [] (drop (at + 1) bytes.now)) }
    ensures left { IfSome result (λ at. (front : List ℕ) → rest_after front bytes.now ≡ rest_after [] (drop (at + 1) bytes.now)) }
    ensures none { IfNone result ((front : List ℕ) → whole_lines_after front bytes.now ≡ []) }
    ensures all { IfNone result ((front : List ℕ) → rest_after front bytes.now ≡ front ++ bytes.now) }
{
    for (i, byte) in bytes.iter().enumerate() {
        if *byte == b'\n' {
            return Some(i);
        }
    }
    None
}

/// The bytes before the first line feed and those after it.
pub fn split_feed(bytes: &[u8]) -> Option<(&[u8], &[u8])>
    ensures found { IfSome result (λ parts. (front : List ℕ) → whole_lines_after front bytes.now ≡ (front ++ parts.0.now) ∷ whole_lines_after [] parts.1.now) }
    ensures left { IfSome result (λ parts. (front : List ℕ) → rest_after front bytes.now ≡ rest_after [] parts.1.now) }
    ensures shorter { IfSome result (λ parts. length parts.1.now < length bytes.now) }
    ensures none { IfNone result ((front : List ℕ) → whole_lines_after front bytes.now ≡ []) }
    ensures all { IfNone result ((front : List ℕ) → rest_after front bytes.now ≡ front ++ bytes.now) }
{
    let at = find_feed(bytes)?;
    let (text, rest) = bytes.split_at(at);
    Some((text, after(rest, 1)))
}
