//! A document under a schema, in a store that knows its faults.

ghost use Rattle.std.specs.Prelude.{◌≡◌};
ghost use Rattle.yspec.specs.document.Document as document;
ghost use Rattle.yspec.specs.document.Fitting.{Fits};
ghost use Rattle.yschema_model.specs.View as schema_view;
ghost use Rattle.yspec_reach.specs.Reach.{reach};
ghost use Rattle.yinst_path.specs.EditView.{edit_view};
ghost use Rattle.ystore.specs.Views.{store_of, lent};
ghost use Rattle.ylive_edit.specs.Places.{HoldsTold};
ghost use Rattle.ylive_edit.specs.Reads.{ReadsWithin};
ghost use Rattle.ylive.specs.Kept.{AppliesIn};

use crate::outcome::{Applied, ListFault, Refused};
use std::alloc::{AllocError, Global};
use std::marker::Model;
use ycheck::Fault;
use yinst::{Edit, EditFault, Tree};
use ylive_edit::{amend, told_store};
use ylive_list::{Walk, list};
use yschema_model::Schema;
use ystore::{Counted, Nodes, Row};
use ystore_tree::copy_tree;

/// A document under a schema, which edits change. It knows its faults, unless it is stale: then memory ran out at an edit, and
/// until it is rebuilt neither edits nor lists of faults are answered.
#[derive(Drop)]
pub struct Live {
    schema: Schema,
    nodes: Nodes,
    is_stale: bool,
}

impl Model for Live {
    ghost use Rattle.yschema_model.specs.View as schema_view;
    ghost use Rattle.yschema_model.specs.contracts.schema.Schema as schemas;
    ghost use Rattle.ystore.specs.contracts.nodes.Nodes as stores;
    ghost use Rattle.ylive.specs.Kept.{Parts, IsLive};
    ghost use Rattle.std.specs.Coded.{codes};

    ghost Value = { Parts };

    ghost coded = { Prim.hlevel (codes, schemas.the_row.coded, stores.the_row.coded) };

    ghost view = { λ a. record { schema = a.schema; nodes = a.nodes; is_stale = a.is_stale } };

    ghost invariant = { λ a. IsLive (schema_view.view a.schema) a.nodes a.is_stale };
}

impl Live {
    ghost use Rattle.std.specs.Prelude.{◌≡◌, true, IfOk, IfErr, OnOk, OnErr};
    ghost use Rattle.yspec.specs.document.Fitting.{Fits};
    ghost use Rattle.yspec.specs.edit.Live.{opened, made_stale, made_anew};
    ghost use Rattle.yinst_path.specs.EditView.{edit_view};
    ghost use Rattle.yinst_tree.specs.View.{tree_view};
    ghost use Rattle.ylive.specs.View.{view};
    ghost use Rattle.ystore.specs.Store as store;
    ghost use Rattle.ystore.specs.Store.{loans, reads};
    ghost use Rattle.ylive.specs.Answers.{Edits, Lists, ReadsFew, TriesOnce, Walks, known_count};

    /// A document with its schema, under which it was read or made. Where memory runs out both are given back.
    pub fn open(alloc: Global, schema: Schema, tree: Tree) -> Result<Live, (Schema, Tree)>
        requires { Fits (schema_view.view schema) (tree_view tree) }
        ensures opened { IfOk result (λ live. view live
            ≡ opened (schema_view.view schema) (tree_view tree)) }
        ensures schema { IfErr result (λ given. given.0 ≡ schema) }
        ensures tree { IfErr result (λ given. given.1 ≡ tree) }
    {
        match tree.clone() {
            Ok(copy) => match Live::from_parts(alloc, schema, copy) {
                Ok(live) => Ok(live),
                Err(schema) => Err((schema, tree)),
            },
            Err(_) => Err((schema, tree)),
        }
    }

    /// The same, where the document is wanted no longer: it is taken apart while its store is made. Where memory runs out the
    /// schema is given back.
    pub fn from_parts(alloc: Global, schema: Schema, tree: Tree) -> Result<Live, Schema>
        requires { Fits (schema_view.view schema) (tree_view tree) }
        ensures opened { IfOk result (λ live. view live
            ≡ opened (schema_view.view schema) (tree_view tree)) }
        ensures schema { IfErr result (λ given. given ≡ schema) }
    {
        match told_store(alloc, &schema, tree) {
            Ok(nodes) => Ok(Live {
                schema,
                nodes,
                is_stale: false,
            }),
            Err(_) => Err(schema),
        }
    }

    /// Applies an edit, and tells how many faults there were and are. A refused edit changes nothing. Where memory runs
    /// out the document stays as it was, and is stale. It reads no more of the store than its reach says, whatever the size of
    /// the document; the store is lent to it once, and stays that store.
    pub fn edit(&mut self, edit: &Edit) -> Result<Applied, Refused>
        ensures edits { Edits (view self.old) (edit_view edit.now) result (view self.new) }
        ensures reads { ReadsFew (view self.old) (edit_view edit.now) result (reads self.old.nodes) (reads self.new.nodes) }
        ensures lent { TriesOnce result (loans self.old.nodes) (loans self.new.nodes) }
    {
        if self.is_stale {
            return Err(Refused::Stale);
        }
        match edit_in(&mut self.nodes.counted(), &self.schema, edit) {
            Ok(applied) => Ok(applied),
            Err(EditFault::Refused { code, doc }) => {
                Err(Refused::Edit(EditFault::Refused { code, doc }))
            }
            Err(EditFault::Memory) => {
                self.is_stale = true;
                Err(Refused::Memory)
            }
        }
    }

    /// All faults of the document, in order.
    pub fn list(&self) -> Result<Vec<Fault>, ListFault>
        ensures { Lists (view self.now) result }
    {
        if self.is_stale {
            return Err(ListFault::Stale);
        }
        match list(self.nodes.alloc(), &self.schema, self.nodes.view()) {
            Ok(found) => Ok(found),
            Err(_) => Err(ListFault::Memory),
        }
    }

    /// A walk over the faults of the document, one by one and in order, which takes no memory; nothing of a stale one.
    pub fn walk(&self) -> Option<Walk<'_>>
        ensures { Walks (view self.now) result }
    {
        if self.is_stale {
            return None;
        }
        Some(Walk::of(&self.schema, self.nodes.view()))
    }

    /// A copy of what the document stores, also of a stale one.
    pub fn tree(&self) -> Result<Tree, AllocError>
        ensures copy { IfOk result (λ tree. tree_view tree ≡ (view self.now).tree) }
        ensures fitting { IfOk result (λ tree. Fits (view self.now).schema (tree_view tree)) }
    {
        copy_tree(self.nodes.alloc(), self.nodes.view())
    }

    /// The schema of the document.
    pub fn schema(&self) -> &Schema
        ensures { schema_view.view result.now ≡ (view self.now).schema }
    {
        &self.schema
    }

    /// The schema of the document, and what it stores, also of a stale one. Where memory runs out the document is given back.
    pub fn into_parts(self) -> Result<(Schema, Tree), Live>
        ensures schema { IfOk result (λ parts. schema_view.view parts.0 ≡ (view self).schema) }
        ensures tree { IfOk result (λ parts. tree_view parts.1 ≡ (view self).tree) }
        ensures fitting { IfOk result (λ parts. Fits (view self).schema (tree_view parts.1)) }
        ensures err { IfErr result (λ live. live ≡ self) }
    {
        match self.tree() {
            Ok(tree) => {
                let Live { schema, .. } = self;
                Ok((schema, tree))
            }
            Err(_) => Err(self),
        }
    }

    /// How many faults the document has; nothing of a stale one.
    pub fn fault_count(&self) -> Option<usize>
        ensures { result ≡ known_count (view self.now) }
    {
        if self.is_stale {
            return None;
        }
        Some(self.nodes.view().total(Row::Top))
    }

    /// Whether memory ran out at an edit, so that nobody knows the faults until the document is rebuilt.
    pub fn is_stale(&self) -> bool
        ensures { result ≡ (view self.now).is_stale }
    {
        self.is_stale
    }

    /// Looks for the faults of a stale document again, so that it is stale no more: what it stores is copied, and put into a
    /// new store. Where memory runs out it stays as it was. Of a document that isn't stale nothing changes.
    pub fn rebuild(&mut self) -> Result<(), AllocError>
        ensures ok { OnOk result (view self.new ≡ made_anew (view self.old)) }
        ensures was_stale { OnErr result ((view self.old).is_stale ≡ true) }
        ensures err { OnErr result (view self.new ≡ view self.old) }
    {
        if self.is_stale {
            let tree = self.tree()?;
            self.nodes = told_store(self.nodes.alloc(), &self.schema, tree)?;
            self.is_stale = false;
        }
        Ok(())
    }

    /// Puts another document in place of what it stores, which is stale no more. Where memory runs out it stays as it was.
    pub fn reopen(&mut self, tree: Tree) -> Result<(), AllocError>
        requires { Fits (view self.old).schema (tree_view tree) }
        ensures ok { OnOk result (view self.new ≡ opened (view self.old).schema (tree_view tree)) }
        ensures err { OnErr result (view self.new ≡ view self.old) }
    {
        self.nodes = told_store(self.nodes.alloc(), &self.schema, tree)?;
        self.is_stale = false;
        Ok(())
    }

    /// Where its nodes lie.
    pub(crate) fn alloc(&self) -> Global
        ensures { result ≡ store.alloc self.now.nodes }
    {
        self.nodes.alloc()
    }

    /// Makes the document stale.
    pub(crate) fn mark_stale(&mut self)
        ensures stale { view self.new ≡ made_stale (view self.old) }
        ensures nodes { self.new.nodes ≡ self.old.nodes }
    {
        self.is_stale = true;
    }
}

/// Does an edit of a document in a store, and tells how many faults it had and has. It calls nothing of the store but what a
/// `Counted` has.
fn edit_in(counted: &mut Counted<'_>, schema: &Schema, edit: &Edit) -> Result<Applied, EditFault>
    requires { (tree : document.Tree) × HoldsTold (schema_view.view schema.now) (store_of counted.old) tree
        × Fits (schema_view.view schema.now) tree }
    ensures applies { let s = schema_view.view schema.now in (tree : document.Tree) → HoldsTold s (store_of counted.old) tree
        → Fits s tree → AppliesIn s tree (edit_view edit.now) (store_of counted.new) result }
    ensures reads { let s = schema_view.view schema.now in (tree : document.Tree) → HoldsTold s (store_of counted.old) tree
        → Fits s tree → ReadsWithin (reach s tree (edit_view edit.now)) (store_of counted.old) (store_of counted.new) result }
    ensures same_reference { lent counted.new ≡ lent counted.old }
{
    let before = counted.total(Row::Top);
    match amend(counted, schema, edit) {
        Ok(()) => Ok(Applied {
            before,
            after: counted.total(Row::Top),
        }),
        Err(fault) => Err(fault),
    }
}
