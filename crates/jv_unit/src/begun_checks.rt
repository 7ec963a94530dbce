use jv_diag::DiagList;
use jv_expr::BodyProgress;
use jv_names::ScopeList;
use std::alloc::AllocError;

/// The checks of a type from a place among them on: that place, the blank fields of the type, the diagnostics of all that comes before
/// it, and where the check there is of a body, how far that came.
#[derive(Drop)]
pub(crate) struct BegunChecks {
    pub(crate) place: usize,
    pub(crate) blanks: ScopeList,
    pub(crate) diags: DiagList,
    pub(crate) body: BodyProgress,
}

impl BegunChecks {
    ghost use Rattle.std.specs.Prelude.{◌≡◌, ◌+◌, ◌<◌, ◌^◌, ◌++◌, None, IfErr, OnOk, OnErr};

    /// Goes on behind a check, by its diagnostics.
    pub(crate) fn pass(&mut self, part: DiagList) -> Result<(), AllocError>
        requires { self.old.place + 1 < 2 ^ 64 }
        ensures place { OnOk result (self.new.place ≡ self.old.place + 1) }
        ensures diags { OnOk result (self.new.diags ≡ self.old.diags ++ part) }
        ensures stays { OnErr result ((self.new.place ≡ self.old.place) × (self.new.diags ≡ self.old.diags)) }
        ensures blanks { self.new.blanks ≡ self.old.blanks }
        ensures body { self.new.body.begun ≡ None }
    {
        self.body = BodyProgress::new();
        self.diags.append(part)?;
        self.place += 1;
        Ok(())
    }
}
