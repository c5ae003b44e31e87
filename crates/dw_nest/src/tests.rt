use super::*;
use crate::known_keys::KnownKeys;
use crate::partly_known_keys::{PartlyKnownKeys, Spot};
use dw_key::{DType, DocKey};
use std::alloc::{AllocError, Global};
use std::process::Abort;
use std::test::Fail;

/// A tree of up to two children a node, before it is built.
#[derive(Drop)]
enum Plan<'a> {
    Leaf(usize),
    Unknown,
    NoneOfAnd,
    NoneOfOr,
    Not(&'a Plan<'a>),
    And(&'a Plan<'a>, &'a Plan<'a>),
    Or(&'a Plan<'a>, &'a Plan<'a>),
}

const LEAVES: usize = 3;

const KEYS: usize = 5;

/// Which of the keys each leaf has. No leaf has the second key.
const HAS: [[bool; KEYS]; LEAVES] = [
    [true, false, false, true, false],
    [false, false, true, true, false],
    [false, false, false, true, true],
];

fn build<'a>(
    alloc: Global,
    plan: &Plan<'_>,
    leaves: &[PartlyKnownKeys<'a>],
) -> Result<Tree<PartlyKnownKeys<'a>>, AllocError> {
    Ok(match plan {
        Plan::Leaf(i) => match leaves.get(*i) {
            Some(leaf) => Tree::Leaf(PartlyKnownKeys {
                spots: leaf.spots,
                bound: Bound::Start,
            }),
            None => Tree::Unknown,
        },
        Plan::Unknown => Tree::Unknown,
        Plan::NoneOfAnd => Tree::And(Vec::new(alloc)),
        Plan::NoneOfOr => Tree::Or(Vec::new(alloc)),
        Plan::Not(child) => Tree::Not(Box::new(alloc, build(alloc, child, leaves)?)?),
        Plan::And(a, b) => Tree::And(two(
            alloc,
            build(alloc, a, leaves)?,
            build(alloc, b, leaves)?,
        )?),
        Plan::Or(a, b) => Tree::Or(two(alloc, build(alloc, a, leaves)?, build(alloc, b, leaves)?)?),
    })
}

fn two<T: Drop>(alloc: Global, a: T, b: T) -> Result<Vec<T>, AllocError> {
    let mut both = Vec::new(alloc);
    both.push(a)?;
    both.push(b)?;
    Ok(both)
}

/// 0, 1 and 2 for No, Unknown and Yes, by a walk over the plan.
fn plain(plan: &Plan<'_>, key: usize, third: bool) -> u8 {
    match plan {
        Plan::Leaf(leaf) => {
            if *leaf < LEAVES
                && key < KEYS
                && HAS[*leaf][key]
                && (third || *leaf != 2 || key != 3)
            {
                2
            } else {
                0
            }
        }
        Plan::Unknown => 1,
        Plan::NoneOfAnd => 2,
        Plan::NoneOfOr => 0,
        Plan::Not(child) => 2u8.saturating_sub(plain(child, key, third)),
        Plan::And(a, b) => plain(a, key, third).min(plain(b, key, third)),
        Plan::Or(a, b) => plain(a, key, third).max(plain(b, key, third)),
    }
}

fn number(truth: Truth) -> u8 {
    match truth {
        Truth::No => 0,
        Truth::Unknown => 1,
        Truth::Yes => 2,
    }
}

/// The first key from a place on whose value is not No.
fn plain_least(plan: &Plan<'_>, from: usize, third: bool) -> Option<usize> {
    (from..KEYS).find(|key| plain(plan, *key, third) != 0)
}

fn key(n: usize) -> Option<DocKey> {
    let dtype = DType::of(if n < 2 { b"a" } else { b"b" })?;
    let mut uid = [0u8; 32];
    uid[0] = (n / 256 % 256) as u8;
    uid[1] = (n % 256) as u8;
    Some(DocKey { dtype, uid })
}

fn check_least(
    rt: &impl Abort,
    tree: &mut Tree<PartlyKnownKeys<'_>>,
    plan: &Plan<'_>,
    keys: &[DocKey],
    bound: &Bound,
    from: usize,
    knows: bool,
) {
    if !tree.enumerable() {
        return;
    }
    match tree.least(bound) {
        Found::Key(key) => {
            let place = keys.iter().position(|k| *k == key);
            assert_eq!(rt; place, plain_least(plan, from, true));
            assert!(rt; knows || place == plain_least(plan, from, false));
        }
        Found::End => {
            assert_eq!(rt; plain_least(plan, from, true), None);
            assert!(rt; knows || plain_least(plan, from, false).is_none());
        }
        Found::Missing => assert!(rt; !knows && tree.first_missing().is_some()),
    }
}

fn check_truth(
    rt: &impl Abort,
    tree: &mut Tree<PartlyKnownKeys<'_>>,
    plan: &Plan<'_>,
    key: &DocKey,
    place: usize,
    knows: bool,
) {
    match tree.truth_at(key) {
        Some(truth) => {
            assert_eq!(rt; number(truth), plain(plan, place, true));
            assert!(rt; knows || number(truth) == plain(plan, place, false));
        }
        None => assert!(rt; !knows && tree.first_missing().is_some()),
    }
}

/// Every value and every bound of one tree. The calls are made on one tree in turn, so that its
/// iterators stand anywhere before each of them.
fn check_tree(
    rt: &impl Abort,
    alloc: Global,
    plan: &Plan<'_>,
    leaves: &[PartlyKnownKeys<'_>],
    keys: &[DocKey],
    knows: bool,
) -> Result<(), AllocError> {
    let mut tree = build(alloc, plan, leaves)?;
    for (i, key) in keys.iter().enumerate() {
        check_truth(rt, &mut tree, plan, key, i, knows);
        check_least(rt, &mut tree, plan, keys, &Bound::After(*key), i + 1, knows);
        check_least(rt, &mut tree, plan, keys, &Bound::From(*key), i, knows);
    }
    check_least(rt, &mut tree, plan, keys, &Bound::Start, 0, knows);
    Ok(())
}

/// The given trees, and those with one of them or two below.
fn deeper<'a>(alloc: Global, below: &'a [Plan<'a>]) -> Result<Vec<Plan<'a>>, AllocError> {
    let mut plans = Vec::new(alloc);
    for a in below {
        plans.push(Plan::Not(a))?;
        for b in below {
            plans.push(Plan::And(a, b))?;
            plans.push(Plan::Or(a, b))?;
        }
    }
    Ok(plans)
}

fn spots(
    alloc: Global,
    leaf: usize,
    keys: &[DocKey],
    knows: bool,
) -> Result<Vec<Spot>, AllocError> {
    let mut spots = Vec::new(alloc);
    for (i, key) in keys.iter().enumerate() {
        if leaf < LEAVES && i < KEYS && HAS[leaf][i] {
            spots.push((*key, knows || leaf != 2 || i != 3))?;
        }
    }
    Ok(spots)
}

fn check_all(
    rt: &impl Abort,
    alloc: Global,
    keys: &[DocKey],
    knows: bool,
) -> Result<(), AllocError> {
    let first = spots(alloc, 0, keys, knows)?;
    let second = spots(alloc, 1, keys, knows)?;
    let third = spots(alloc, 2, keys, knows)?;
    let leaves = [
        PartlyKnownKeys {
            spots: first.as_slice(),
            bound: Bound::Start,
        },
        PartlyKnownKeys {
            spots: second.as_slice(),
            bound: Bound::Start,
        },
        PartlyKnownKeys {
            spots: third.as_slice(),
            bound: Bound::Start,
        },
    ];
    let flat = [Plan::Leaf(0), Plan::Leaf(1), Plan::Leaf(2), Plan::Unknown];
    let small = deeper(alloc, &flat)?;
    for a in &small {
        check_tree(rt, alloc, a, &leaves, keys, knows)?;
        check_tree(rt, alloc, &Plan::Not(a), &leaves, keys, knows)?;
        for b in &small {
            check_tree(rt, alloc, &Plan::And(a, b), &leaves, keys, knows)?;
            check_tree(rt, alloc, &Plan::Or(a, b), &leaves, keys, knows)?;
        }
        for b in &flat {
            check_tree(rt, alloc, &Plan::And(a, b), &leaves, keys, knows)?;
            check_tree(rt, alloc, &Plan::Or(a, b), &leaves, keys, knows)?;
        }
    }
    let none = [Plan::NoneOfAnd, Plan::NoneOfOr, Plan::Leaf(2)];
    for a in &deeper(alloc, &none)? {
        check_tree(rt, alloc, a, &leaves, keys, knows)?;
        check_tree(rt, alloc, &Plan::Not(a), &leaves, keys, knows)?;
    }
    Ok(())
}

#[test]
fn every_small_tree_answers_as_a_walk_over_all_keys(rt: HostRuntime) -> Result<(), Fail> {
    let alloc = rt.alloc();
    let mut keys = Vec::new(alloc);
    for n in 0..KEYS {
        keys.push(key(n).ok_or("a type")?)?;
    }
    check_all(&rt, alloc, keys.as_slice(), true)?;
    check_all(&rt, alloc, keys.as_slice(), false)?;
    Ok(())
}

/// An iterator that counts its calls.
#[derive(Drop)]
struct Counted<L> {
    inner: L,
    seeks: usize,
    nexts: usize,
}

impl<L: DocIter> DocIter for Counted<L> {
    ghost at = { λ s. L.at s.inner };

    ghost stuck = { λ s. L.stuck s.inner };

    ghost stands = { λ s. L.stands s.inner };

    ghost shown = { λ s. L.shown s.inner };

    ghost keys = { λ s. L.keys s.inner };

    ghost made = { λ s. L.made s.inner };

    fn seek(&mut self, bound: &Bound) {
        self.seeks = self.seeks.saturating_add(1);
        self.inner.seek(bound);
    }

    fn top(&self) -> Top {
        self.inner.top()
    }

    fn next(&mut self) {
        self.nexts = self.nexts.saturating_add(1);
        self.inner.next();
    }
}

#[cycle(calls)]
fn calls<L: DocIter>(tree: &Tree<Counted<L>>) -> usize {
    match tree {
        Tree::Leaf(leaf) => leaf.seeks.saturating_add(leaf.nexts),
        Tree::Unknown => 0,
        Tree::Not(child) => calls(child),
        Tree::And(children) => calls_of(children),
        Tree::Or(children) => calls_of(children),
    }
}

#[cycle(calls)]
fn calls_of<L: DocIter>(children: &[Tree<Counted<L>>]) -> usize {
    let mut sum: usize = 0;
    for child in children {
        sum = sum.saturating_add(calls(child));
    }
    sum
}

/// How many candidates a tree has, up to 50.
fn candidates<L: DocIter + Drop>(tree: &mut Tree<L>) -> usize {
    let mut bound = Bound::Start;
    for n in 0..50 {
        if !tree.enumerable() {
            return n;
        }
        match tree.least(&bound) {
            Found::Key(key) => bound = Bound::After(key),
            _ => return n,
        }
    }
    50
}

fn make_counted(keys: &[DocKey]) -> Tree<Counted<KnownKeys<'_>>> {
    Tree::Leaf(Counted {
        inner: KnownKeys {
            keys,
            bound: Bound::Start,
        },
        seeks: 0,
        nexts: 0,
    })
}

fn not<L: DocIter + Drop>(alloc: Global, tree: Tree<L>) -> Result<Tree<L>, AllocError> {
    Ok(Tree::Not(Box::new(alloc, tree)?))
}

fn check_calls(
    rt: &impl Abort,
    alloc: Global,
    a: &[DocKey],
    b: &[DocKey],
    expected: usize,
) -> Result<(), AllocError> {
    let mut both = Tree::And(two(alloc, make_counted(a), make_counted(b))?);
    assert_eq!(rt; candidates(&mut both), expected);
    assert!(rt; calls(&both) < 60);
    let mut under = not(
        alloc,
        not(
            alloc,
            Tree::And(two(alloc, make_counted(a), make_counted(b))?),
        )?,
    )?;
    assert_eq!(rt; candidates(&mut under), expected);
    assert!(rt; calls(&under) < 60);
    let sides = two(
        alloc,
        not(alloc, make_counted(a))?,
        not(alloc, make_counted(b))?,
    )?;
    let mut dual = not(alloc, Tree::Or(sides))?;
    assert_eq!(rt; candidates(&mut dual), expected);
    assert!(rt; calls(&dual) < 60);
    let others = two(
        alloc,
        make_counted(a),
        not(alloc, not(alloc, make_counted(b))?)?,
    )?;
    let mut mixed = Tree::And(two(alloc, Tree::And(others), Tree::Unknown)?);
    assert_eq!(rt; candidates(&mut mixed), expected);
    assert!(rt; calls(&mixed) < 60);
    Ok(())
}

#[test]
fn a_long_list_costs_calls_in_the_number_of_the_short_ones_keys(
    rt: HostRuntime,
) -> Result<(), Fail> {
    let alloc = rt.alloc();
    let mut long = Vec::new(alloc);
    let mut short = Vec::new(alloc);
    let mut apart = Vec::new(alloc);
    for n in 0..10_000 {
        long.push(key(2 * n).ok_or("a type")?)?;
    }
    for n in 0..10 {
        short.push(key(2000 * n + 12).ok_or("a type")?)?;
        apart.push(key(2000 * n + 13).ok_or("a type")?)?;
    }
    check_calls(&rt, alloc, long.as_slice(), short.as_slice(), 10)?;
    check_calls(&rt, alloc, short.as_slice(), long.as_slice(), 10)?;
    check_calls(&rt, alloc, long.as_slice(), apart.as_slice(), 0)?;
    check_calls(&rt, alloc, apart.as_slice(), long.as_slice(), 0)?;
    Ok(())
}

#[test]
fn an_iterator_walks_its_list_and_stops_where_it_does_not_know(
    rt: HostRuntime,
) -> Result<(), Fail> {
    let keys = [
        key(0).ok_or("a type")?,
        key(3).ok_or("a type")?,
        key(9).ok_or("a type")?,
    ];
    let mut known = KnownKeys {
        keys: &keys,
        bound: Bound::Start,
    };
    for want in &keys {
        match known.top() {
            Top::Key(key) => {
                assert!(rt; key == *want);
                known.next();
            }
            _ => assert!(rt; false),
        }
    }
    assert!(rt; matches!(known.top(), Top::End));
    let spots = [
        (key(1).ok_or("a type")?, true),
        (key(4).ok_or("a type")?, false),
    ];
    let mut partly = PartlyKnownKeys {
        spots: &spots,
        bound: Bound::Start,
    };
    match partly.top() {
        Top::Key(found) => {
            assert!(rt; found == spots[0].0);
            partly.next();
        }
        _ => assert!(rt; false),
    }
    assert!(rt; matches!(partly.top(), Top::Missing));
    partly.seek(&Bound::After(spots[1].0));
    assert!(rt; matches!(partly.top(), Top::End));
    Ok(())
}
