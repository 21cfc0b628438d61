//! Faults of documents, with the places to which an editor jumps.

ghost use Rattle.std.specs.Prelude.{◌≡◌, Bool, IfOk, map};
ghost use Rattle.yspec.specs.document.Sorting.{IsSorted};
ghost use Rattle.yinst_tree.specs.View.{tree_view};
ghost use Rattle.yapp_report.specs.Explained.{IsExplained};
ghost use Rattle.yapp_report.specs.declared.report.Report.TheVariants.{Document};
ghost use Rattle.yapp_lines.specs.Changed.{TellsByLines};

use crate::files::contents_named;
use std::alloc::{AllocError, Global};
use yapp_report::DocumentReport;
use ysay_jumps::jumps_text;

/// A report on a document, where its text doesn't stand in place of its faults, with these as lines that begin with their places in
/// the text of the document, by the names of the files that were read and what they contain.
pub fn faults_by_lines(
    alloc: Global,
    document: &str,
    names: &[&str],
    contents: &[Vec<u8>],
    report: DocumentReport,
) -> Result<DocumentReport, AllocError>
    requires { IsSorted (tree_view report.tree) }
    ensures told { IfOk result (λ r. TellsByLines document.now (map (λ n. n.now) names.now) (map (λ c. c.items) contents.now) report r) }
    ensures explained { (with_reasons : Bool) → IsExplained with_reasons (Document report)
        → IfOk result (λ r. IsExplained with_reasons (Document r)) }
{
    if report.text.is_some() {
        return Ok(report);
    }
    let bytes = contents_named(document, names, contents);
    let DocumentReport {
        schema,
        tree,
        faults,
        refused,
        script,
        saved,
        ..
    } = report;
    let text = jumps_text(alloc, document, bytes, &schema, &tree, &faults)?;
    Ok(DocumentReport {
        schema,
        tree,
        faults,
        explanations: None,
        refused,
        script,
        text: Some(text),
        saved,
    })
}
