ghost use Rattle.std.specs.Prelude.{◌≡◌, ◌++◌, ◌∷◌, [], List, ℕ, IfOk, OnOk, MatchResult};
ghost use Rattle.std.specs.Ordering.{nat_cmp};
ghost use Rattle.std.specs.Cmp.Lexicographic.{slice_cmp};
ghost use Rattle.dw_key.specs.KeyCode.{escaped};
ghost use Rattle.dw_tablet.specs.Positions.{piece_bytes, pieces_bytes};

use dw_base::{Bytes, OutOfMemory};
use std::alloc::Global;
use std::cmp::Ordering;

/// A part of a place that is compared and not built: the bytes of a text with each byte 0 escaped, or bytes
/// as they are.
#[derive(Clone, Copy, Debug)]
pub(crate) enum Piece<'t> {
    Escaped(&'t [u8]),
    Plain(&'t [u8]),
}

/// What of a place is left behind these bytes, or how these bytes compare with the place, whatever stands
/// behind them.
fn after_plain<'p>(bytes: &[u8], place: &'p [u8]) -> Result<&'p [u8], Ordering>
    ensures { MatchResult result (λ rest. (x : List ℕ) → slice_cmp nat_cmp (bytes.now ++ x) place.now ≡ slice_cmp nat_cmp x rest.now) (λ o. (x : List ℕ) → slice_cmp nat_cmp (bytes.now ++ x) place.now ≡ o) }
{
    let mut rest = place;
    for byte in bytes {
        match rest.split_first() {
            None => return Err(Ordering::Greater),
            Some((first, more)) => match byte.cmp(first) {
                Ordering::Equal => rest = more,
                apart => return Err(apart),
            },
        }
    }
    Ok(rest)
}

fn after_byte<'p>(byte: u8, place: &'p [u8]) -> Result<&'p [u8], Ordering>
    ensures { MatchResult result (λ rest. (x : List ℕ) → slice_cmp nat_cmp (escaped (byte ∷ []) ++ x) place.now ≡ slice_cmp nat_cmp x rest.now) (λ o. (x : List ℕ) → slice_cmp nat_cmp (escaped (byte ∷ []) ++ x) place.now ≡ o) }
{
    if byte == 0 {
        after_plain(&[0, 255], place)
    } else {
        after_plain(&[byte], place)
    }
}

fn after_escaped<'p>(text: &[u8], place: &'p [u8]) -> Result<&'p [u8], Ordering>
    ensures { MatchResult result (λ rest. (x : List ℕ) → slice_cmp nat_cmp (escaped text.now ++ x) place.now ≡ slice_cmp nat_cmp x rest.now) (λ o. (x : List ℕ) → slice_cmp nat_cmp (escaped text.now ++ x) place.now ≡ o) }
{
    let mut rest = place;
    for byte in text {
        match after_byte(*byte, rest) {
            Ok(more) => rest = more,
            Err(apart) => return Err(apart),
        }
    }
    Ok(rest)
}

fn after_piece<'p>(piece: &Piece<'_>, place: &'p [u8]) -> Result<&'p [u8], Ordering>
    ensures { MatchResult result (λ rest. (x : List ℕ) → slice_cmp nat_cmp (piece_bytes piece.now ++ x) place.now ≡ slice_cmp nat_cmp x rest.now) (λ o. (x : List ℕ) → slice_cmp nat_cmp (piece_bytes piece.now ++ x) place.now ≡ o) }
{
    match piece {
        Piece::Escaped(text) => after_escaped(text, place),
        Piece::Plain(bytes) => after_plain(bytes, place),
    }
}

/// How the place of some pieces compares with another. Takes no memory.
pub(crate) fn compare(pieces: &[Piece<'_>], place: &[u8]) -> Ordering
    ensures { result ≡ slice_cmp nat_cmp (pieces_bytes pieces.now) place.now }
{
    let mut rest = place;
    for piece in pieces {
        match after_piece(piece, rest) {
            Ok(more) => rest = more,
            Err(apart) => return apart,
        }
    }
    if rest.is_empty() {
        Ordering::Equal
    } else {
        Ordering::Less
    }
}

fn put_byte(all: &mut Vec<u8>, byte: u8) -> Result<(), OutOfMemory>
    ensures { OnOk result (all.new.items ≡ all.old.items ++ escaped (byte ∷ [])) }
{
    all.push(byte)?;
    if byte == 0 {
        all.push(255)?;
    }
    Ok(())
}

fn put_escaped(all: &mut Vec<u8>, text: &[u8]) -> Result<(), OutOfMemory>
    ensures { OnOk result (all.new.items ≡ all.old.items ++ escaped text.now) }
{
    for byte in text {
        put_byte(all, *byte)?;
    }
    Ok(())
}

fn put_piece(all: &mut Vec<u8>, piece: &Piece<'_>) -> Result<(), OutOfMemory>
    ensures { OnOk result (all.new.items ≡ all.old.items ++ piece_bytes piece.now) }
{
    match piece {
        Piece::Escaped(text) => put_escaped(all, text)?,
        Piece::Plain(bytes) => all.extend_from_slice(bytes)?,
    }
    Ok(())
}

/// The place of some pieces.
pub(crate) fn joined(alloc: Global, pieces: &[Piece<'_>]) -> Result<Bytes, OutOfMemory>
    ensures { IfOk result (λ b. b ≡ pieces_bytes pieces.now) }
{
    let mut all = Vec::new(alloc);
    for piece in pieces {
        put_piece(&mut all, piece)?;
    }
    Ok(Bytes::from_vec(all))
}
