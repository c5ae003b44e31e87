ghost use Rattle.std.specs.Prelude.{◌≡◌, ◌∷◌, ◌<◌, ℕ, List, Option, IfOk, IfSome, IfNone, [], length};
ghost use Rattle.dw_rows.specs.Gathering.{with_entries};
ghost use Rattle.dw_rows.specs.CsvRecords.{tokens, cut_at_none, pieces, piece_entries};

use crate::OutOfMemory;
use crate::gathered::Gathered;
use dw_base::Text;
use dw_vis::Vis;
use std::alloc::Global;

/// The first byte of a cell, or None within for a cut, and what stands behind it.
fn first_token(cell: &[u8]) -> Option<(Option<u8>, &[u8])>
    ensures some { IfSome result (λ p. tokens cell.now ≡ p.0 ∷ tokens p.1.now) }
    ensures shorter { IfSome result (λ p. length p.1.now < length cell.now) }
    ensures none { IfNone result (tokens cell.now ≡ []) }
{
    match cell {
        [] => None,
        [b'\\', b';', after @ ..] => Some((Some(b';'), after)),
        [b'\\', b'\\', after @ ..] => Some((Some(b'\\'), after)),
        [b';', after @ ..] => Some((None, after)),
        [byte, after @ ..] => Some((Some(*byte), after)),
    }
}

/// With a token more: a byte goes to the piece, and a cut ends it.
fn with_token(
    alloc: Global,
    field: &Option<Text>,
    vis: &Option<Vis>,
    gathered: Gathered,
    piece: &mut Vec<u8>,
    token: Option<u8>,
) -> Result<Gathered, OutOfMemory>
    ensures { IfOk result (λ g. (ts : List (Option ℕ)) → with_entries g (piece_entries field.now vis.now (cut_at_none piece.new.items ts)) ≡ with_entries gathered (piece_entries field.now vis.now (cut_at_none piece.old.items (token ∷ ts)))) }
{
    match token {
        Some(byte) => {
            piece.push(byte)?;
            Ok(gathered)
        }
        None => {
            let more = gathered.with(alloc, field, vis, piece.as_slice())?;
            piece.clear();
            Ok(more)
        }
    }
}

/// With the pieces of a cell, which is cut at each `;`. `\;` stands for `;` and `\\` for `\`.
pub fn with_pieces(
    alloc: Global,
    field: &Option<Text>,
    vis: &Option<Vis>,
    mut gathered: Gathered,
    cell: &[u8],
) -> Result<Gathered, OutOfMemory>
    ensures { IfOk result (λ g. g ≡ with_entries gathered (piece_entries field.now vis.now (pieces cell.now))) }
{
    let mut piece = Vec::new(alloc);
    let mut rest = cell;
    while let Some((token, after)) = first_token(rest) {
        gathered = with_token(alloc, field, vis, gathered, &mut piece, token)?;
        rest = after;
    }
    gathered.with(alloc, field, vis, piece.as_slice())
}
