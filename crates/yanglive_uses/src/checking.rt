//! The faults of a document.

ghost use Rattle.yspec.specs.Results.{Gives};
ghost use Rattle.yschema.specs.View as schema_view;
ghost use Rattle.yinst.specs.Told.{told_by};
ghost use Rattle.ycheck.specs.View.{views};
ghost use Rattle.yanglive_uses.specs.Checking.{faults_under};

use std::alloc::Global;
use ycheck::{Fault, faults};
use yinst::{DocFault, read};
use yschema::Schema;

/// The faults of the document that JSON bytes denote, in order, or why it isn't read.
pub fn faults_in(alloc: Global, schema: &Schema, document: &[u8]) -> Result<Vec<Fault>, DocFault>
    ensures { Gives (λ found. views found.items) told_by result
        (faults_under (schema_view.view schema.now) document.now) }
{
    match read(alloc, schema, document) {
        Ok(tree) => match faults(alloc, schema, &tree) {
            Ok(found) => Ok(found),
            Err(_) => Err(DocFault::Memory),
        },
        Err(fault) => Err(fault),
    }
}
