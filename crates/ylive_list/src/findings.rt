//! Faults that are found on a way through a document.

ghost use Rattle.std.specs.Prelude.{◌≡◌, ◌++◌, ◌∷◌, [], ◌-◌, length, map, take, option_map, string_bytes, OnOk, IfOk};
ghost use Rattle.yspec.specs.document.Fault.{fault_with};
ghost use Rattle.yspec.specs.document.FaultCode.{own_app_tag};
ghost use Rattle.yinst_tree.specs.View.{place_view};
ghost use Rattle.ycheck.specs.View.{code_view, info_view};
ghost use Rattle.ycheck.specs.Found.{given_fault};
ghost use Rattle.ylive_list.specs.Found.{Adds, fault_below};

use std::alloc::{AllocError, Global};
use ycheck::{Fault, FaultCode, Info};
use yinst_tree::Step;

/// The faults that are found, and the steps to the node at hand.
#[derive(Drop)]
pub(crate) struct Findings {
    pub(crate) alloc: Global,
    pub(crate) steps: Vec<Step>,
    pub(crate) faults: Vec<Fault>,
}

impl Findings {
    pub(crate) fn enter(&mut self, step: Step) -> Result<(), AllocError>
        ensures place { OnOk result (self.new.steps.items ≡ self.old.steps.items ++ step ∷ []) }
        ensures found { self.new.faults.items ≡ self.old.faults.items }
    {
        self.steps.push(step)?;
        Ok(())
    }

    pub(crate) fn leave(&mut self)
        ensures place { self.new.steps.items
            ≡ take (length self.old.steps.items - 1) self.old.steps.items }
        ensures found { self.new.faults.items ≡ self.old.faults.items }
    {
        self.steps.pop();
    }

    /// Tells a fault of the node at hand, with the error-app-tag of a restriction.
    pub(crate) fn tell(
        &mut self,
        code: FaultCode,
        app_tag: Option<String>,
        info: Info,
    ) -> Result<(), AllocError>
        ensures { OnOk result (Adds self.old self.new
            (given_fault (code_view code) (option_map string_bytes app_tag) (info_view info)
            ∷ [])) }
    {
        self.tell_below(code, app_tag, &[], info)
    }

    /// Tells a fault of a node to which steps lead from the one at hand.
    pub(crate) fn tell_below(
        &mut self,
        code: FaultCode,
        app_tag: Option<String>,
        below: &[Step],
        info: Info,
    ) -> Result<(), AllocError>
        ensures { OnOk result (Adds self.old self.new
            (fault_below (code_view code) (option_map string_bytes app_tag)
            (place_view below.now) (info_view info) ∷ [])) }
    {
        let mut steps = Vec::from_slice(self.alloc, &self.steps)?;
        steps.extend_from_slice(below)?;
        self.faults.push(Fault {
            code,
            tag: code.tag(),
            app_tag,
            steps,
            info,
        })?;
        Ok(())
    }
}

/// A copy of the error-app-tag that a code has of itself.
pub(crate) fn own_app_tag(alloc: Global, code: FaultCode) -> Result<Option<String>, AllocError>
    ensures { IfOk result (λ tag. option_map string_bytes tag ≡ own_app_tag (code_view code)) }
{
    match code.app_tag() {
        Some(text) => Ok(Some(String::from_str(alloc, text)?)),
        None => Ok(None),
    }
}

/// Tells a fault of the node at hand, with the error-app-tag of its code.
pub(crate) fn tell(code: FaultCode, info: Info, findings: &mut Findings) -> Result<(), AllocError>
    ensures { OnOk result (Adds findings.old findings.new
        (fault_with (info_view info) (code_view code) [] ∷ [])) }
{
    let app_tag = own_app_tag(findings.alloc, code)?;
    findings.tell(code, app_tag, info)
}
