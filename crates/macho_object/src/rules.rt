//! Whether a file keeps every rule of its kind.
ghost use Rattle.std.specs.Prelude.{◌≡◌, true, false, OnOk, IfErr};
ghost use Rattle.macho_model.specs.Grammar.{ObjectBreaks, DylibBreaks};
ghost use Rattle.macho_model.specs.ObjectLaws.{KeepsObjectRules, KeepsDylibRules};
ghost use Rattle.macho_object.specs.steps.Outlines.{IsOutlined};

use crate::fault::ObjectFault;
use crate::outline::Outline;
use macho_model::ObjectRule;

impl Outline<'_> {
    /// Whether an object keeps every rule.
    pub(crate) fn check_object(&self) -> Result<(), ObjectFault>
        requires outlined { IsOutlined self.now }
        requires object { self.now.is_dynamic ≡ false }
        ensures ok { OnOk result (KeepsObjectRules self.now.input.now) }
        ensures why { IfErr result (λ f. ObjectBreaks self.now.input.now f.rule f.place) }
    {
        self.check_sections()?;
        self.check_symbols()?;
        self.check_relocations()?;
        Ok(())
    }

    /// Whether a library keeps every rule.
    pub(crate) fn check_library(&self) -> Result<(), ObjectFault>
        requires outlined { IsOutlined self.now }
        requires library { self.now.is_dynamic ≡ true }
        ensures ok { OnOk result (KeepsDylibRules self.now.input.now) }
        ensures why { IfErr result (λ f. DylibBreaks self.now.input.now f.rule f.place) }
    {
        let Some(_name) = self.path() else {
            return Err(ObjectFault {
                place: self.places.main as u64,
                rule: ObjectRule::O9,
            });
        };
        self.check_names()?;
        Ok(())
    }
}
