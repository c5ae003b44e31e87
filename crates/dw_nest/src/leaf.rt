ghost use Rattle.std.specs.Prelude.{◌≡◌, ◌↔◌, List, [], ℕ, Bool, IsTrue, slice_get, Contains};
ghost use Rattle.dw_key.specs.declared.doc_key.DocKey.{DocKey};
ghost use Rattle.dw_nest.specs.declared.bound.Bound.{Bound};
ghost use Rattle.dw_nest.specs.declared.bound.Top.{Top};
ghost use Rattle.dw_nest.specs.Bounds.{Ascends, rest, meets, IfTopKey, IsTopKey};

use crate::bound::{Bound, Top};

/// An iterator over a strictly ascending list of document keys, parts of which it may not know.
pub trait DocIter {
    /// Where it stands.
    ghost at: { Self → Bound };

    /// That it does not know what stands there.
    ghost stuck: { Self → Bool };

    /// The strictly ascending lists of keys that it stands for. It is a relation, since an iterator
    /// that does not know all places does not hold the whole list.
    ghost stands: { Self → List DocKey → Type 0 };

    /// What `top` answers, so that `next` can say that it wants a key there.
    ghost shown: { Self → Top };

    /// Finitely many keys, among which is each one that it ever shows. Since each key found is
    /// later than the one before, a search over iterators ends.
    ghost keys: { Self → List DocKey };

    /// The texts that it was made from, such as its field and its value, which no call changes.
    ghost made: { Self → List (List ℕ) };

    /// Goes to the bound, from wherever it stands.
    fn seek(&mut self, bound: &Bound)
        ensures at { at self.new ≡ bound.now }
        ensures same { (all : List DocKey) → stands self.new all ↔ stands self.old all }
        ensures keys { keys self.new ≡ keys self.old }
        ensures made { made self.new ≡ made self.old };

    fn top(&self) -> Top
        ensures shown { result ≡ shown self.now }
        ensures missing { (result ≡ Top.Missing) ↔ IsTrue (stuck self.now) }
        ensures ascends { (all : List DocKey) → stands self.now all → Ascends all }
        ensures key { IfTopKey result (λ k. (all : List DocKey) → stands self.now all → slice_get (rest all (at self.now)) 0 ≡ Some k) }
        ensures end { result ≡ Top.End → (all : List DocKey) → stands self.now all → rest all (at self.now) ≡ [] }
        ensures known { IfTopKey result (λ k. Contains (keys self.now) k) }
        ensures met { IfTopKey result (λ k. IsTrue (meets (at self.now) k)) };

    /// Goes on after the key at the top.
    fn next(&mut self)
        requires { IsTopKey (shown self.old) }
        ensures at { IfTopKey (shown self.old) (λ k. at self.new ≡ Bound.After k) }
        ensures same { (all : List DocKey) → stands self.new all ↔ stands self.old all }
        ensures keys { keys self.new ≡ keys self.old }
        ensures made { made self.new ≡ made self.old };
}
