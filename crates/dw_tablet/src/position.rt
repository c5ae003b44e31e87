ghost use Rattle.std.specs.Prelude.{◌≡◌, ◌++◌, ◌∷◌, [], IfOk};
ghost use Rattle.std.specs.Ordering.{nat_cmp};
ghost use Rattle.std.specs.Cmp.Lexicographic.{slice_cmp};
ghost use Rattle.dw_key.specs.KeyCode.{escaped};
ghost use Rattle.hex.specs.Hex.{encode_lower};
ghost use Rattle.dw_tablet.specs.Places.{below};
ghost use Rattle.dw_tablet.specs.Positions.{place_of, pieces_bytes, index_bytes, ended, zero, last_byte};

use crate::pieces::{Piece, compare, joined};
use dw_base::{Bytes, OutOfMemory};
use dw_key::{DType, DocKey, Uid};
use std::alloc::Global;
use std::cmp::Ordering;

/// A document key as it stands in keys of cells: its type, and the 64 digits of its uid.
#[derive(Clone, Copy)]
pub(crate) struct DocSpot {
    pub(crate) dtype: DType,
    pub(crate) digits: [u8; 64],
}

impl DocSpot {
    pub(crate) fn of(doc: &DocKey) -> DocSpot
        ensures dtype { result.dtype ≡ doc.now.dtype }
        ensures digits { result.digits ≡ encode_lower doc.now.uid }
    {
        DocSpot {
            dtype: doc.dtype,
            digits: digits_of(&doc.uid),
        }
    }
}

/// The digits of a uid.
fn digits_of(uid: &Uid) -> [u8; 64]
    ensures { result ≡ encode_lower uid.now }
{
    let mut digits = [0u8; 64];
    hex::encode_to_slice(uid.as_slice(), &mut digits).ok();
    digits
}

/// A place by what it stands for, which is compared and not built.
#[derive(Clone, Copy)]
pub(crate) enum Position<'t> {
    /// The place itself.
    At {
        place: &'t [u8],
    },
    /// The first place after a key.
    Past {
        key: &'t [u8],
    },
    /// The first place of a field in the field index.
    FieldStart {
        shard: &'t str,
        field: &'t str,
    },
    /// The first place past it.
    FieldEnd {
        shard: &'t str,
        field: &'t str,
    },
    /// What the cells of the values of a field begin with that begin with a text.
    TextStart {
        shard: &'t str,
        field: &'t str,
        text: &'t str,
    },
    /// The first place of an equality on a field.
    ValueStart {
        shard: &'t str,
        field: &'t str,
        value: &'t str,
    },
    /// The first place past it.
    ValueEnd {
        shard: &'t str,
        field: &'t str,
        value: &'t str,
    },
    /// The first place of a value and a document, or the first one past it.
    Entry {
        shard: &'t str,
        field: &'t str,
        value: &'t str,
        spot: DocSpot,
        past: bool,
    },
    /// The first place of a document.
    DocumentStart {
        shard: &'t str,
        spot: DocSpot,
    },
    /// The first place past it.
    DocumentEnd {
        shard: &'t str,
        spot: DocSpot,
    },
}

const ENDED: &[u8] = &[0, 0];

const PASSED: &[u8] = &[0, 1];

const INDEX: &[u8] = &[0, 0, 102, 105, 0, 255];

const ZERO: &[u8] = &[0, 255];

const ONE: &[u8] = &[1];

/// The bytes of a piece that no place has.
const NONE: Piece<'static> = Piece::Plain(&[]);

impl Position<'_> {
    /// How its place compares with another. Takes no memory.
    #[tactic(auto, using(crate::proofs::Joined::entry_is, crate::proofs::Joined::document_is))]
    fn cmp(&self, place: &[u8]) -> Ordering
        ensures { result ≡ slice_cmp nat_cmp (place_of self.now) place.now }
    {
        match self {
            Position::At { place: at } => compare(&plain(at, &[]), place),
            Position::Past { key } => compare(&plain(key, &[0]), place),
            Position::FieldStart { shard, field } => compare(&of_field(shard, field, ENDED), place),
            Position::FieldEnd { shard, field } => compare(&of_field(shard, field, PASSED), place),
            Position::TextStart { shard, field, text } => compare(
                &of_value(shard, field, text, &[]),
                place,
            ),
            Position::ValueStart {
                shard,
                field,
                value,
            } => compare(&of_value(shard, field, value, ZERO), place),
            Position::ValueEnd {
                shard,
                field,
                value,
            } => compare(&of_value(shard, field, value, ONE), place),
            Position::Entry {
                shard,
                field,
                value,
                spot,
                past,
            } => compare(&of_entry(shard, field, value, spot, *past), place),
            Position::DocumentStart { shard, spot } => compare(
                &of_document(shard, spot, ENDED),
                place,
            ),
            Position::DocumentEnd { shard, spot } => compare(
                &of_document(shard, spot, PASSED),
                place,
            ),
        }
    }

    /// Whether another place is before this one. Takes no memory.
    #[tactic(auto, using(crate::proofs::Joined::turned))]
    pub(crate) fn is_after(&self, place: &[u8]) -> bool
        ensures { result ≡ below place.now (place_of self.now) }
    {
        self.cmp(place).is_gt()
    }

    /// Whether this place is before another. Takes no memory.
    pub(crate) fn is_before(&self, place: &[u8]) -> bool
        ensures { result ≡ below (place_of self.now) place.now }
    {
        self.cmp(place).is_lt()
    }

    /// The place itself.
    #[tactic(auto, using(crate::proofs::Joined::entry_is, crate::proofs::Joined::document_is))]
    pub(crate) fn to_bytes(&self, alloc: Global) -> Result<Bytes, OutOfMemory>
        ensures { IfOk result (λ b. b ≡ place_of self.now) }
    {
        match self {
            Position::At { place: at } => joined(alloc, &plain(at, &[])),
            Position::Past { key } => joined(alloc, &plain(key, &[0])),
            Position::FieldStart { shard, field } => joined(alloc, &of_field(shard, field, ENDED)),
            Position::FieldEnd { shard, field } => joined(alloc, &of_field(shard, field, PASSED)),
            Position::TextStart { shard, field, text } => joined(
                alloc,
                &of_value(shard, field, text, &[]),
            ),
            Position::ValueStart {
                shard,
                field,
                value,
            } => joined(alloc, &of_value(shard, field, value, ZERO)),
            Position::ValueEnd {
                shard,
                field,
                value,
            } => joined(alloc, &of_value(shard, field, value, ONE)),
            Position::Entry {
                shard,
                field,
                value,
                spot,
                past,
            } => joined(alloc, &of_entry(shard, field, value, spot, *past)),
            Position::DocumentStart { shard, spot } => joined(
                alloc,
                &of_document(shard, spot, ENDED),
            ),
            Position::DocumentEnd { shard, spot } => joined(
                alloc,
                &of_document(shard, spot, PASSED),
            ),
        }
    }
}

fn plain<'p>(bytes: &'p [u8], last: &'static [u8]) -> [Piece<'p>; 10]
    ensures { pieces_bytes result ≡ bytes.now ++ (last.now ++ []) }
{
    [
        Piece::Plain(bytes),
        Piece::Plain(last),
        NONE,
        NONE,
        NONE,
        NONE,
        NONE,
        NONE,
        NONE,
        NONE,
    ]
}

fn of_field<'p>(shard: &'p str, field: &'p str, last: &'static [u8]) -> [Piece<'p>; 10]
    ensures { pieces_bytes result ≡ escaped shard.now ++ (index_bytes ++ (escaped field.now ++ (last.now ++ []))) }
{
    [
        Piece::Escaped(shard.as_bytes()),
        Piece::Plain(INDEX),
        Piece::Escaped(field.as_bytes()),
        Piece::Plain(last),
        NONE,
        NONE,
        NONE,
        NONE,
        NONE,
        NONE,
    ]
}

fn of_value<'p>(
    shard: &'p str,
    field: &'p str,
    value: &'p str,
    last: &'static [u8],
) -> [Piece<'p>; 10]
    ensures { pieces_bytes result ≡ escaped shard.now ++ (index_bytes ++ (escaped field.now ++ (ended ++ (escaped value.now ++ (last.now ++ []))))) }
{
    [
        Piece::Escaped(shard.as_bytes()),
        Piece::Plain(INDEX),
        Piece::Escaped(field.as_bytes()),
        Piece::Plain(ENDED),
        Piece::Escaped(value.as_bytes()),
        Piece::Plain(last),
        NONE,
        NONE,
        NONE,
        NONE,
    ]
}

fn last_of(past: bool) -> &'static [u8]
    ensures { result.now ≡ 0 ∷ last_byte past ∷ [] }
{
    if past { PASSED } else { ENDED }
}

fn of_entry<'p>(
    shard: &'p str,
    field: &'p str,
    value: &'p str,
    spot: &'p DocSpot,
    past: bool,
) -> [Piece<'p>; 10]
    ensures { pieces_bytes result ≡ escaped shard.now ++ (index_bytes ++ (escaped field.now ++ (ended ++ (escaped value.now ++ (zero ++ (escaped spot.now.dtype ++ (zero ++ (escaped spot.now.digits ++ (0 ∷ last_byte past ∷ []))))))))) }
{
    [
        Piece::Escaped(shard.as_bytes()),
        Piece::Plain(INDEX),
        Piece::Escaped(field.as_bytes()),
        Piece::Plain(ENDED),
        Piece::Escaped(value.as_bytes()),
        Piece::Plain(ZERO),
        Piece::Escaped(spot.dtype.as_slice()),
        Piece::Plain(ZERO),
        Piece::Escaped(&spot.digits),
        Piece::Plain(last_of(past)),
    ]
}

fn of_document<'p>(shard: &'p str, spot: &'p DocSpot, last: &'static [u8]) -> [Piece<'p>; 10]
    ensures { pieces_bytes result ≡ escaped shard.now ++ (ended ++ (escaped spot.now.dtype ++ (zero ++ (escaped spot.now.digits ++ (last.now ++ []))))) }
{
    [
        Piece::Escaped(shard.as_bytes()),
        Piece::Plain(ENDED),
        Piece::Escaped(spot.dtype.as_slice()),
        Piece::Plain(ZERO),
        Piece::Escaped(&spot.digits),
        Piece::Plain(last),
        NONE,
        NONE,
        NONE,
        NONE,
    ]
}
