ghost use Rattle.std.specs.Prelude.{◌≡◌, ◌≢◌, ◌<◌, ◌↔◌, ℕ, true, false, IsTrue, IfSome, List, length, map, Contains};
ghost use Rattle.std.specs.List.{list_any};
ghost use Rattle.dw_key.specs.declared.doc_key.DocKey.{DocKey};
ghost use Rattle.dw_nest.specs.declared.truth.Truth.{Truth};
ghost use Rattle.dw_nest.specs.Bounds.{has, meets, is_before};
ghost use Rattle.dw_nest.specs.Places.{passes};
ghost use Rattle.dw_nest.specs.Search.{IfFound, IsLeast, Held, ChildrenStand, children_pass, enough_enumerable, IsLeap, sooner_of, leap_bound, leap_after, is_over};
ghost use Rattle.dw_nest.specs.Shapes.{Shape, and, shape, shapes, value, Alike, Stays, is_enumerable, any_of, all_of, leaves};

use crate::bound::{Bound, Found, Top};
use crate::leaf::DocIter;
use crate::leap::Leap;
use crate::place::{Need, Place};
use crate::tree::Tree;
use dw_key::DocKey;
use std::cmp::Ordering;
use std::mem;

fn leaf_least<L: DocIter>(leaf: &mut L, bound: &Bound) -> Found
    ensures found { IsLeast (L.stands leaf.old) has (λ key. Contains (L.keys leaf.old) key) bound.now result }
    ensures missing { result ≡ Found.Missing → IsTrue (L.stuck leaf.new) }
    ensures same { (all : List DocKey) → L.stands leaf.new all ↔ L.stands leaf.old all }
    ensures keys { L.keys leaf.new ≡ L.keys leaf.old }
    ensures made { L.made leaf.new ≡ L.made leaf.old }
{
    leaf.seek(bound);
    match leaf.top() {
        Top::Key(key) => Found::Key(key),
        Top::End => Found::End,
        Top::Missing => Found::Missing,
    }
}

impl<L: DocIter + Drop> Tree<L> {
    /// The least key that meets the bound and at which the value is not No.
    pub fn least(&mut self, bound: &Bound) -> Found
        requires { IsTrue (is_enumerable Place.Positive (shape self.old)) }
        ensures bound { IfFound result (λ key. IsTrue (meets bound.now key)) }
        ensures candidate { IfFound result (λ key. (lists : Shape (List DocKey)) → Alike L.stands (shape self.old) lists → value lists key ≢ Truth.No) }
        ensures least { IfFound result (λ key. (lists : Shape (List DocKey)) → Alike L.stands (shape self.old) lists → (other : DocKey) → IsTrue (meets bound.now other) → IsTrue (is_before other key) → value lists other ≡ Truth.No) }
        ensures end { result ≡ Found.End → (lists : Shape (List DocKey)) → Alike L.stands (shape self.old) lists → (other : DocKey) → IsTrue (meets bound.now other) → value lists other ≡ Truth.No }
        ensures missing { result ≡ Found.Missing → IsTrue (list_any L.stuck (leaves (shape self.new))) }
        ensures stays { Alike (Stays L.stands L.keys L.made) (shape self.old) (shape self.new) }
        ensures made { map L.made (leaves (shape self.new)) ≡ map L.made (leaves (shape self.old)) }
    {
        self.least_at(Place::Positive, bound)
    }

    #[cycle(least)]
    fn least_at(&mut self, place: Place, bound: &Bound) -> Found
        requires { IsTrue (is_enumerable place (shape self.old)) }
        ensures found { IsLeast (Alike L.stands (shape self.old)) (λ lists key. passes place (value lists key)) (Held L.keys (shape self.old)) bound.now result }
        ensures missing { result ≡ Found.Missing → IsTrue (list_any L.stuck (leaves (shape self.new))) }
        ensures stays { Alike (Stays L.stands L.keys L.made) (shape self.old) (shape self.new) }
    {
        match mem::replace(self, Tree::Unknown) {
            Tree::Leaf(mut leaf) => {
                let found = leaf_least(&mut leaf, bound);
                *self = Tree::Leaf(leaf);
                found
            }
            Tree::Unknown => unreachable!(),
            Tree::Not(mut child) => {
                let found = child.least_at(place.below_not(), bound);
                *self = Tree::Not(child);
                found
            }
            Tree::And(mut children) => {
                let found = least_among(&mut children, place.need_of_and(), place, bound);
                *self = Tree::And(children);
                found
            }
            Tree::Or(mut children) => {
                let found = least_among(&mut children, place.need_of_or(), place, bound);
                *self = Tree::Or(children);
                found
            }
        }
    }
}

#[cycle(least)]
fn least_among<L: DocIter + Drop>(
    children: &mut [Tree<L>],
    need: Need,
    place: Place,
    bound: &Bound,
) -> Found
    requires { IsTrue (enough_enumerable need (length children.old) (λ i. is_enumerable place (shapes children.old i))) }
    ensures found { IsLeast (ChildrenStand L.stands children.old) (children_pass need place (length children.old)) (Held L.keys (and (length children.old) (shapes children.old))) bound.now result }
    ensures missing { result ≡ Found.Missing → IsTrue (list_any L.stuck (leaves (and (length children.new) (shapes children.new)))) }
    ensures stays { Alike (Stays L.stands L.keys L.made) (and (length children.old) (shapes children.old)) (and (length children.new) (shapes children.new)) }
{
    match need {
        Need::All => least_of_all(children, place, bound),
        Need::Any => least_of_any(children, place, bound),
    }
}

/// The least of the children's keys.
#[cycle(least)]
fn least_of_any<L: DocIter + Drop>(children: &mut [Tree<L>], place: Place, bound: &Bound) -> Found
    requires { IsTrue (all_of (length children.old) (λ i. is_enumerable place (shapes children.old i))) }
    ensures found { IsLeast (ChildrenStand L.stands children.old) (children_pass Need.Any place (length children.old)) (Held L.keys (and (length children.old) (shapes children.old))) bound.now result }
    ensures missing { result ≡ Found.Missing → IsTrue (list_any L.stuck (leaves (and (length children.new) (shapes children.new)))) }
    ensures stays { Alike (Stays L.stands L.keys L.made) (and (length children.old) (shapes children.old)) (and (length children.new) (shapes children.new)) }
{
    let mut least = Found::End;
    for child in children.iter_mut() {
        least = sooner(least, child.least_at(place, bound));
        if let Found::Missing = least {
            return Found::Missing;
        }
    }
    least
}

/// The children leap, each to the greatest key so far, until they agree.
#[cycle(least)]
fn least_of_all<L: DocIter + Drop>(children: &mut [Tree<L>], place: Place, bound: &Bound) -> Found
    requires { IsTrue (any_of (length children.old) (λ i. is_enumerable place (shapes children.old i))) }
    ensures found { IsLeast (ChildrenStand L.stands children.old) (children_pass Need.All place (length children.old)) (Held L.keys (and (length children.old) (shapes children.old))) bound.now result }
    ensures missing { result ≡ Found.Missing → IsTrue (list_any L.stuck (leaves (and (length children.new) (shapes children.new)))) }
    ensures stays { Alike (Stays L.stands L.keys L.made) (and (length children.old) (shapes children.old)) (and (length children.new) (shapes children.new)) }
{
    let mut at = *bound;
    loop {
        match leap(children, place, &at) {
            Leap::Nowhere => unreachable!(),
            Leap::Agreed(key) => match others_pass(children, place, &key) {
                Some(true) => return Found::Key(key),
                Some(false) => at = Bound::After(key),
                None => return Found::Missing,
            },
            Leap::Ahead(key) => at = Bound::From(key),
            Leap::Ended => return Found::End,
            Leap::Unknown => return Found::Missing,
        }
    }
}

/// One round over the children that can be enumerated.
#[cycle(least)]
fn leap<L: DocIter + Drop>(children: &mut [Tree<L>], place: Place, bound: &Bound) -> Leap
    ensures leap { IsLeap L.stands L.keys place children.old (length children.old) bound.now result }
    ensures missing { result ≡ Leap.Unknown → IsTrue (list_any L.stuck (leaves (and (length children.new) (shapes children.new)))) }
    ensures stays { Alike (Stays L.stands L.keys L.made) (and (length children.old) (shapes children.old)) (and (length children.new) (shapes children.new)) }
{
    let mut leap = Leap::Nowhere;
    for child in children.iter_mut() {
        leap = reach(child, place, &leap, bound);
        if leap.is_over() {
            return leap;
        }
    }
    leap
}

#[cycle(least)]
fn reach<L: DocIter + Drop>(child: &mut Tree<L>, place: Place, leap: &Leap, bound: &Bound) -> Leap
    ensures passed_over { is_enumerable place (shape child.old) ≡ false → result ≡ leap.now }
    ensures reached { is_enumerable place (shape child.old) ≡ true → (found : Found) × (result ≡ leap_after leap.now found) × IsLeast (Alike L.stands (shape child.old)) (λ lists key. passes place (value lists key)) (Held L.keys (shape child.old)) (leap_bound leap.now bound.now) found }
    ensures missing { is_over leap.now ≡ false → result ≡ Leap.Unknown → IsTrue (list_any L.stuck (leaves (shape child.new))) }
    ensures stays { Alike (Stays L.stands L.keys L.made) (shape child.old) (shape child.new) }
{
    if !child.enumerable_at(place) {
        return *leap;
    }
    leap.after(child.least_at(place, &leap.bound(bound)))
}

/// Whether the children that cannot be enumerated pass at a key, or None where one does not know.
fn others_pass<L: DocIter + Drop>(
    children: &mut [Tree<L>],
    place: Place,
    key: &DocKey,
) -> Option<bool>
    ensures all { result ≡ Some true → (lists : ℕ → Shape (List DocKey)) → ChildrenStand L.stands children.old lists → (i : ℕ) → i < length children.old → is_enumerable place (shapes children.old i) ≡ false → passes place (value (lists i) key.now) ≡ true }
    ensures not_all { result ≡ Some false → (lists : ℕ → Shape (List DocKey)) → ChildrenStand L.stands children.old lists → children_pass Need.All place (length children.old) lists key.now ≡ false }
    ensures none { result ≡ None → IsTrue (list_any L.stuck (leaves (and (length children.new) (shapes children.new)))) }
    ensures stays { Alike (Stays L.stands L.keys L.made) (and (length children.old) (shapes children.old)) (and (length children.new) (shapes children.new)) }
{
    for child in children.iter_mut() {
        match other_passes(child, place, key) {
            Some(true) => {}
            Some(false) => return Some(false),
            None => return None,
        }
    }
    Some(true)
}

fn other_passes<L: DocIter + Drop>(child: &mut Tree<L>, place: Place, key: &DocKey) -> Option<bool>
    ensures enumerated { is_enumerable place (shape child.old) ≡ true → result ≡ Some true }
    ensures other { is_enumerable place (shape child.old) ≡ false → IfSome result (λ passing. (lists : Shape (List DocKey)) → Alike L.stands (shape child.old) lists → passing ≡ passes place (value lists key.now)) }
    ensures none { result ≡ None → IsTrue (list_any L.stuck (leaves (shape child.new))) }
    ensures stays { Alike (Stays L.stands L.keys L.made) (shape child.old) (shape child.new) }
{
    if child.enumerable_at(place) {
        return Some(true);
    }
    match child.truth_at(key) {
        Some(truth) => Some(truth.passes(place)),
        None => None,
    }
}

fn sooner(least: Found, found: Found) -> Found
    ensures { result ≡ sooner_of least found }
{
    match (least, found) {
        (Found::Missing, _) => Found::Missing,
        (_, Found::Missing) => Found::Missing,
        (Found::End, found) => found,
        (least, Found::End) => least,
        (Found::Key(least), Found::Key(key)) => match key.cmp(&least) {
            Ordering::Less => Found::Key(key),
            _ => Found::Key(least),
        },
    }
}
