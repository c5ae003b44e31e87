ghost use Rattle.std.specs.Prelude.{◌≡◌, ◌++◌, ◌∷◌, [], true, cond, IfOk, IfErr, OnOk};
ghost use Rattle.dw_event.specs.Texts.{is_same};
ghost use Rattle.dw_nest.specs.Shapes.{shape, leaf, unknown, opposite, Alike};
ghost use Rattle.dw_iter.specs.Made.{is_value_place};
ghost use Rattle.dw_scan.specs.Parts.{LeafPart, set_part, IsLeafOf, IsTreeOf, AreTreesOf, IsSetError, IsTreeError, IsTreesError};

use crate::ask::Ask;
use dw_base::OutOfMemory;
use dw_eval::NQuery;
use dw_iter::{EqualLeaf, Leaf, LeafError, SetLeaf};
use dw_nest::Tree;
use dw_tablet::Tablet;
use std::alloc::Global;

/// The iterator of an equality.
fn equal_leaf<'t>(
    tablet: &'t Tablet,
    ask: &'t Ask,
    field: &'t str,
    value: &'t str,
) -> Tree<Leaf<'t>>
    ensures { Alike (IsLeafOf tablet.now ask.now) (shape result) (leaf (record { field = field.now; test = λ form. is_same form value.now; places = is_value_place tablet.now.shard field.now value.now })) }
{
    Tree::Leaf(Leaf::Equal(EqualLeaf::new(
        tablet,
        field,
        value,
        &ask.types,
        &ask.auths,
        ask.snapshot,
    )))
}

/// The iterator of a range or a pattern.
fn set_leaf<'t>(
    alloc: Global,
    tablet: &'t Tablet,
    ask: &'t Ask,
    query: &'t NQuery,
) -> Result<Tree<Leaf<'t>>, LeafError>
    ensures ok { IfOk result (λ t. Alike (IsLeafOf tablet.now ask.now) (shape t) (leaf (set_part tablet.now.shard query.now))) }
    ensures err { IfErr result (IsSetError tablet.now query.now true) }
{
    let set = SetLeaf::new(alloc, tablet, query, &ask.types, &ask.auths, ask.snapshot)?;
    Ok(Tree::Leaf(Leaf::Set(set)))
}

/// The iterators of a range or a pattern, where its field is indexed.
fn known_set<'t>(
    alloc: Global,
    tablet: &'t Tablet,
    ask: &'t Ask,
    query: &'t NQuery,
    indexed: bool,
) -> Result<Tree<Leaf<'t>>, LeafError>
    ensures ok { IfOk result (λ t. Alike (IsLeafOf tablet.now ask.now) (shape t) (cond indexed (leaf (set_part tablet.now.shard query.now)) unknown)) }
    ensures err { IfErr result (IsSetError tablet.now query.now indexed) }
{
    if indexed {
        set_leaf(alloc, tablet, ask, query)
    } else {
        Ok(Tree::Unknown)
    }
}

/// The iterator of an equality, where its field is indexed.
fn known_equal<'t>(
    tablet: &'t Tablet,
    ask: &'t Ask,
    field: &'t str,
    value: &'t str,
    indexed: bool,
) -> Tree<Leaf<'t>>
    ensures { Alike (IsLeafOf tablet.now ask.now) (shape result) (cond indexed (leaf (record { field = field.now; test = λ form. is_same form value.now; places = is_value_place tablet.now.shard field.now value.now })) unknown) }
{
    if indexed {
        equal_leaf(tablet, ask, field, value)
    } else {
        Tree::Unknown
    }
}

/// The opposite of a tree.
fn opposite<'t>(alloc: Global, child: Tree<Leaf<'t>>) -> Result<Tree<Leaf<'t>>, OutOfMemory>
    ensures { IfOk result (λ t. shape t ≡ opposite (shape child.entry)) }
{
    let child = Box::new(alloc, child)?;
    Ok(Tree::Not(child))
}

/// Puts one tree more.
fn put_tree<'t>(trees: &mut Vec<Tree<Leaf<'t>>>, tree: Tree<Leaf<'t>>) -> Result<(), OutOfMemory>
    ensures { OnOk result (trees.new.items ≡ trees.old.items ++ tree.entry ∷ []) }
{
    trees.push(tree)?;
    Ok(())
}

/// The tree of a query over a tablet: its leaves on indexed fields as iterators, and the others as unknown.
#[cycle(build)]
pub(crate) fn tree_of<'t>(
    alloc: Global,
    tablet: &'t Tablet,
    ask: &'t Ask,
    query: &'t NQuery,
) -> Result<Tree<Leaf<'t>>, LeafError>
    ensures ok { IfOk result (λ t. IsTreeOf tablet.now ask.now t query.now) }
    ensures err { IfErr result (IsTreeError tablet.now query.now) }
{
    match query {
        NQuery::Equal { field, rule, value } => Ok(known_equal(
            tablet,
            ask,
            field.as_str(),
            value.as_str(),
            rule.indexed,
        )),
        NQuery::Below { rule, .. } => known_set(alloc, tablet, ask, query, rule.indexed),
        NQuery::Above { rule, .. } => known_set(alloc, tablet, ask, query, rule.indexed),
        NQuery::Between { rule, .. } => known_set(alloc, tablet, ask, query, rule.indexed),
        NQuery::Starts { rule, .. } => known_set(alloc, tablet, ask, query, rule.indexed),
        NQuery::Ends { rule, .. } => known_set(alloc, tablet, ask, query, rule.indexed),
        NQuery::Holds { rule, .. } => known_set(alloc, tablet, ask, query, rule.indexed),
        NQuery::Not(child) => {
            let child = tree_of(alloc, tablet, ask, child.get())?;
            Ok(opposite(alloc, child)?)
        }
        NQuery::And(children) => match trees_of(alloc, tablet, ask, children.as_slice()) {
            Ok(children) => Ok(Tree::And(children)),
            Err(why) => Err(why),
        },
        NQuery::Or(children) => match trees_of(alloc, tablet, ask, children.as_slice()) {
            Ok(children) => Ok(Tree::Or(children)),
            Err(why) => Err(why),
        },
    }
}

#[cycle(build)]
fn trees_of<'t>(
    alloc: Global,
    tablet: &'t Tablet,
    ask: &'t Ask,
    queries: &'t [NQuery],
) -> Result<Vec<Tree<Leaf<'t>>>, LeafError>
    ensures ok { IfOk result (λ v. AreTreesOf tablet.now ask.now v.items queries.now) }
    ensures err { IfErr result (IsTreesError tablet.now queries.now) }
{
    let mut trees = Vec::new(alloc);
    for query in queries {
        match tree_of(alloc, tablet, ask, query) {
            Ok(tree) => put_tree(&mut trees, tree)?,
            Err(why) => return Err(why),
        }
    }
    Ok(trees)
}
