// The word from which passes draw numbers, and its three kinds of step: claim, split and join.
ghost use Rattle.std.specs.Prelude.{◌≡◌, ◌<◌, ◌≤◌, ◌+◌, ◌-◌, ◌^◌, ℕ, [], ◌∷◌, ◌++◌};
ghost use Rattle.std.specs.List.{All};
ghost use Rattle.dw_pool.specs.Numbers.{times, one_below};
ghost use Rattle.dw_pool.specs.Drawn.{hand, drew, both, past, Given};

use atomic_table::{Join, Play, Split, TableRule};
use std::alloc::Global;
use std::collections::LinkedList;

/// How many jobs a counter gives out, and among how many passes.
#[derive(Clone, Copy)]
pub(crate) struct Deal {
    pub(crate) jobs: u32,
    pub(crate) passes: u32,
}

/// What a pass has drawn, and its parts of the right to know the whole. No value of it is made.
pub(crate) struct Hand {
    pub(crate) parts: u64,
    pub(crate) drawn: LinkedList<u64>,
}

pub(crate) struct Counting;

impl TableRule<u8, Hand, Deal> for Counting {
    ghost holds = { λ deal s. Given deal.jobs deal.passes s.words s.views };

    ghost first = { λ deal. hand deal.passes [] };
}

struct Claiming;

impl Play<u8, Hand> for Claiming {
    ghost then = { λ step old found new. (new ≡ (drew old.0 found, old.1)) × All (λ n. n < found) old.0.drawn };
}

struct Parts;

impl Split<Hand> for Parts {
    ghost left = { λ v. hand (v.parts - 1) v.drawn };

    ghost right = { λ v. hand 1 [] };
}

impl Join<Hand> for Parts {
    ghost both = { λ v w. both v w };

    ghost spent = { hand 0 [] };
}

pub(crate) type Seat = atomic_table::Seat<u8, Hand>;

pub(crate) type Shared = atomic_table::Shared<u8, Hand, Deal, Counting>;

pub(crate) type Table = atomic_table::Table<u8, Hand, Deal, Counting, Global>;

/// Draws the next number.
pub(crate) fn draw(word: &Shared, seat: &mut Seat) -> u64
    requires mine { seat.old.table_id ≡ word.now.table_id }
    requires one { word.now.table_id.words ≡ 1 }
    requires jobs { word.now.key.jobs < 2 ^ 32 }
    requires passes { word.now.key.passes < 2 ^ 32 }
    requires part { past word.now.key.jobs seat.old.me.0.drawn < seat.old.me.0.parts }
    ensures mine { seat.new.table_id ≡ seat.old.table_id }
    ensures drawn { seat.new.me ≡ (drew seat.old.me.0 result, seat.old.me.1) }
    ensures above { All (λ n. n < result) seat.old.me.0.drawn }
{
    word.fetch_add::<Claiming>(seat, 0, 1)
}

/// Cuts one part off, which has drawn nothing.
pub(crate) fn split(word: &Shared, seat: &mut Seat) -> Seat
    requires mine { seat.old.table_id ≡ word.now.table_id }
    requires one { word.now.table_id.words ≡ 1 }
    requires part { 0 < seat.old.me.0.parts }
    requires fresh { seat.old.me.0.drawn ≡ [] }
    ensures mine { seat.new.table_id ≡ seat.old.table_id }
    ensures theirs { result.table_id ≡ seat.old.table_id }
    ensures left { seat.new.me ≡ (hand (seat.old.me.0.parts - 1) [], seat.old.me.1) }
    ensures right { result.me ≡ (hand 1 [], []) }
{
    word.split_seat::<Parts>(seat)
}

/// Joins what two passes have drawn.
pub(crate) fn join(word: &Shared, seat: &mut Seat, other: Seat)
    requires mine { seat.old.table_id ≡ word.now.table_id }
    requires theirs { other.table_id ≡ word.now.table_id }
    requires one { word.now.table_id.words ≡ 1 }
    requires no_slot { other.me.1 ≡ [] }
    ensures mine { seat.new.table_id ≡ seat.old.table_id }
    ensures joined { seat.new.me ≡ (both seat.old.me.0 other.me.0, seat.old.me.1) }
{
    word.join_seat::<Parts>(seat, other);
}

/// Ends the word, once one seat has every part. What that seat has drawn is each number below the result, once.
pub(crate) fn settle(table: Table, seat: Seat) -> u64
    requires mine { seat.table_id ≡ table.shared.table_id }
    requires one { table.shared.table_id.words ≡ 1 }
    requires no_slot { table.shared.table_id.slots ≡ 0 }
    requires whole { seat.me.0.parts ≡ table.shared.key.passes }
    ensures { (n : ℕ) → times n seat.me.0.drawn ≡ one_below result n }
{
    let closed = table.close_with(seat);
    let reached = closed.word(0);
    closed.free();
    reached
}
