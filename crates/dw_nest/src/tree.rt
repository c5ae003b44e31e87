ghost use Rattle.std.specs.Prelude.{◌≡◌, ◌↔◌, IfSome, IfNone, IsTrue, List, length, find, map};
ghost use Rattle.std.specs.List.{list_any};
ghost use Rattle.std.specs.Option.{option_copied};
ghost use Rattle.dw_key.specs.declared.doc_key.DocKey.{DocKey};
ghost use Rattle.dw_nest.specs.Kleene.{in_list, swapped};
ghost use Rattle.dw_nest.specs.Shapes.{Shape, and, or, shape, shapes, value, Alike, Stays, is_enumerable, any_of, all_of, leaves, joined};

use crate::bound::{Bound, Top};
use crate::leaf::DocIter;
use crate::place::Place;
use crate::truth::Truth;
use dw_key::DocKey;
use std::cmp::Ordering;
use std::mem;

/// A query over iterators. Its value at a key is Kleene's: an iterator is Yes where the key is in
/// its list and else No, an And is the least of its children, an Or the greatest.
#[derive(Drop)]
pub enum Tree<L: DocIter> {
    Leaf(L),
    Unknown,
    Not(Box<Tree<L>>),
    And(Vec<Tree<L>>),
    Or(Vec<Tree<L>>),
}

impl<L: DocIter> Tree<L> {
    /// Whether the keys at which the value is not No are all keys of leaves, told by the places of
    /// the leaves alone: at a positive place a leaf is, an And where a child is, an Or where all
    /// children are; at a negative place no leaf is, an And where all children are, an Or where a
    /// child is. A Not changes the place of its child, and Unknown is not.
    pub fn enumerable(&self) -> bool
        ensures { result ≡ is_enumerable Place.Positive (shape self.now) }
    {
        self.enumerable_at(Place::Positive)
    }

    #[cycle(enumerable)]
    pub(crate) fn enumerable_at(&self, place: Place) -> bool
        ensures { result ≡ is_enumerable place (shape self.now) }
    {
        match (self, place) {
            (Tree::Leaf(_), Place::Positive) => true,
            (Tree::Leaf(_), Place::Negative) => false,
            (Tree::Unknown, _) => false,
            (Tree::Not(child), _) => child.enumerable_at(place.below_not()),
            (Tree::And(children), Place::Positive) => any_enumerable(children, place),
            (Tree::And(children), Place::Negative) => all_enumerable(children, place),
            (Tree::Or(children), Place::Positive) => all_enumerable(children, place),
            (Tree::Or(children), Place::Negative) => any_enumerable(children, place),
        }
    }
}

#[cycle(enumerable)]
fn any_enumerable<L: DocIter>(children: &[Tree<L>], place: Place) -> bool
    ensures { result ≡ any_of (length children.now) (λ i. is_enumerable place (shapes children.now i)) }
{
    for child in children {
        if child.enumerable_at(place) {
            return true;
        }
    }
    false
}

#[cycle(enumerable)]
fn all_enumerable<L: DocIter>(children: &[Tree<L>], place: Place) -> bool
    ensures { result ≡ all_of (length children.now) (λ i. is_enumerable place (shapes children.now i)) }
{
    for child in children {
        if !child.enumerable_at(place) {
            return false;
        }
    }
    true
}

fn leaf_truth<L: DocIter>(leaf: &mut L, key: &DocKey) -> Option<Truth>
    ensures value { IfSome result (λ truth. (all : List DocKey) → L.stands leaf.old all → truth ≡ in_list all key.now) }
    ensures none { IfNone result (IsTrue (L.stuck leaf.new)) }
    ensures same { (all : List DocKey) → L.stands leaf.new all ↔ L.stands leaf.old all }
    ensures keys { L.keys leaf.new ≡ L.keys leaf.old }
    ensures made { L.made leaf.new ≡ L.made leaf.old }
{
    leaf.seek(&Bound::From(*key));
    match leaf.top() {
        Top::Key(top) => Some(match key.cmp(&top) {
            Ordering::Equal => Truth::Yes,
            _ => Truth::No,
        }),
        Top::End => Some(Truth::No),
        Top::Missing => None,
    }
}

fn opposite(truth: Option<Truth>) -> Option<Truth>
    ensures some { IfSome truth (λ t. result ≡ Some (swapped t)) }
    ensures none { IfNone truth (result ≡ None) }
{
    match truth {
        Some(truth) => Some(truth.opposite()),
        None => None,
    }
}

impl<L: DocIter + Drop> Tree<L> {
    /// The value at a key, or None where a leaf does not know.
    pub fn truth_at(&mut self, key: &DocKey) -> Option<Truth>
        ensures value { IfSome result (λ truth. (lists : Shape (List DocKey)) → Alike L.stands (shape self.old) lists → truth ≡ value lists key.now) }
        ensures none { IfNone result (IsTrue (list_any L.stuck (leaves (shape self.new)))) }
        ensures stays { Alike (Stays L.stands L.keys L.made) (shape self.old) (shape self.new) }
        ensures made { map L.made (leaves (shape self.new)) ≡ map L.made (leaves (shape self.old)) }
    {
        self.value_at(key)
    }

    #[cycle(truth)]
    fn value_at(&mut self, key: &DocKey) -> Option<Truth>
        ensures value { IfSome result (λ truth. (lists : Shape (List DocKey)) → Alike L.stands (shape self.old) lists → truth ≡ value lists key.now) }
        ensures none { IfNone result (IsTrue (list_any L.stuck (leaves (shape self.new)))) }
        ensures stays { Alike (Stays L.stands L.keys L.made) (shape self.old) (shape self.new) }
    {
        match mem::replace(self, Tree::Unknown) {
            Tree::Leaf(mut leaf) => {
                let truth = leaf_truth(&mut leaf, key);
                *self = Tree::Leaf(leaf);
                truth
            }
            Tree::Unknown => Some(Truth::Unknown),
            Tree::Not(mut child) => {
                let truth = child.value_at(key);
                *self = Tree::Not(child);
                opposite(truth)
            }
            Tree::And(mut children) => {
                let truth = least_truth(&mut children, key);
                *self = Tree::And(children);
                truth
            }
            Tree::Or(mut children) => {
                let truth = most_truth(&mut children, key);
                *self = Tree::Or(children);
                truth
            }
        }
    }
}

#[cycle(truth)]
fn least_truth<L: DocIter + Drop>(children: &mut [Tree<L>], key: &DocKey) -> Option<Truth>
    ensures value { IfSome result (λ truth. (lists : Shape (List DocKey)) → Alike L.stands (and (length children.old) (shapes children.old)) lists → truth ≡ value lists key.now) }
    ensures none { IfNone result (IsTrue (list_any L.stuck (leaves (and (length children.new) (shapes children.new))))) }
    ensures stays { Alike (Stays L.stands L.keys L.made) (and (length children.old) (shapes children.old)) (and (length children.new) (shapes children.new)) }
{
    let mut least = Truth::Yes;
    for child in children.iter_mut() {
        match child.value_at(key) {
            Some(truth) => least = least.lower(truth),
            None => return None,
        }
    }
    Some(least)
}

#[cycle(truth)]
fn most_truth<L: DocIter + Drop>(children: &mut [Tree<L>], key: &DocKey) -> Option<Truth>
    ensures value { IfSome result (λ truth. (lists : Shape (List DocKey)) → Alike L.stands (or (length children.old) (shapes children.old)) lists → truth ≡ value lists key.now) }
    ensures none { IfNone result (IsTrue (list_any L.stuck (leaves (or (length children.new) (shapes children.new))))) }
    ensures stays { Alike (Stays L.stands L.keys L.made) (or (length children.old) (shapes children.old)) (or (length children.new) (shapes children.new)) }
{
    let mut most = Truth::No;
    for child in children.iter_mut() {
        match child.value_at(key) {
            Some(truth) => most = most.higher(truth),
            None => return None,
        }
    }
    Some(most)
}

impl<L: DocIter> Tree<L> {
    /// The first leaf from the left that does not know what stands at its bound.
    #[cycle(missing)]
    pub fn first_missing(&self) -> Option<&L>
        ensures { option_copied result ≡ find L.stuck (leaves (shape self.now)) }
    {
        match self {
            Tree::Leaf(leaf) => match leaf.top() {
                Top::Missing => Some(leaf),
                _ => None,
            },
            Tree::Unknown => None,
            Tree::Not(child) => child.first_missing(),
            Tree::And(children) => first_missing_of(children),
            Tree::Or(children) => first_missing_of(children),
        }
    }
}

#[cycle(missing)]
fn first_missing_of<L: DocIter>(children: &[Tree<L>]) -> Option<&L>
    ensures { option_copied result ≡ find L.stuck (joined (length children.now) (λ i. leaves (shapes children.now i))) }
{
    for child in children {
        if let Some(leaf) = child.first_missing() {
            return Some(leaf);
        }
    }
    None
}
