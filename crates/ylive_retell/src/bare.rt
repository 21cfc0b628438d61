//! What is told of the top of a document.

ghost use Rattle.std.specs.Prelude.{◌≡◌, Bool, List, Option, option_map, if◌then◌else◌};
ghost use Rattle.ycheck.specs.declared.fault.FaultCode.{FaultCode};
ghost use Rattle.yschema_model.specs.declared.node.SchemaId.{SchemaId};
ghost use Rattle.ystore.specs.Held.{Told, with_play};
ghost use Rattle.ystore.specs.declared.nodes.Nodes.{Nodes};
ghost use Rattle.ystore_rows.specs.declared.row.Row.TheVariants.{Top};
ghost use Rattle.ylive_marks.specs.Totals.{told_at};
ghost use Rattle.ylive_retell.specs.Bare.{IsBare};
ghost use Rattle.ylive_retell.specs.Telling.{told_by};
ghost use Rattle.ylive_retell.specs.declared.account.News.{News};

/// The top stays bare as long as the same is told of it, or what isn't stored there alone changes; and what is told of new nodes
/// isn't told of it.
pub fn kept_tops()
    ensures same { (before after : Nodes) → told_at after Top ≡ told_at before Top → IsBare before → IsBare after }
    ensures play { (before after : Nodes) (b : Bool) (play : List (FaultCode × SchemaId))
        → told_at after Top ≡ (if b then option_map (with_play play) (told_at before Top) else told_at before Top)
        → IsBare before → IsBare after }
    ensures news { (news : List News) (told : Option Told) → told_by news Top told ≡ told }
{}
