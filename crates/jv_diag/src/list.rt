ghost use Rattle.std.specs.Prelude.{◌≡◌, [], ◌∷◌, ◌++◌, length, map, OnOk, OnErr, Some};
ghost use Rattle.jv_diag.specs.Plain.{diag_of, diagnostic};
ghost use Rattle.jv_diag.specs.Text.{takes};

use crate::diagnostic::Diag;
use crate::making::diag;
use std::alloc::{AllocError, Global};
use std::marker::Model;

/// Diagnostics in the order in which rules give them. Contracts see them as plain data.
#[derive(Debug, Drop)]
pub struct DiagList {
    diags: Vec<Diag>,
}

impl Model for DiagList {
    ghost use Rattle.std.specs.Prelude.{List, map};
    ghost use Rattle.jv_diag.specs.Plain.{DiagOf, diag_of};

    ghost Value = { List DiagOf };

    ghost view = { λ l. map diag_of l.diags.items };
}

impl DiagList {
    /// No diagnostic. It takes no memory.
    pub fn empty(alloc: Global) -> DiagList
        ensures { result ≡ [] }
    {
        DiagList {
            diags: Vec::new(alloc),
        }
    }

    /// The diagnostics, first to last.
    pub fn as_slice(&self) -> &[Diag]
        ensures { map diag_of result.now ≡ self.now }
    {
        self.diags.as_slice()
    }

    /// The diagnostics, first to last, which are moved out.
    pub fn into_vec(self) -> Vec<Diag>
        ensures { map diag_of result.items ≡ self }
    {
        self.diags
    }

    /// Adds a diagnostic behind the others. After want of memory they are what they were.
    pub fn push(&mut self, d: Diag) -> Result<(), AllocError>
        ensures ok { OnOk result (self.new ≡ self.old ++ diag_of d ∷ []) }
        ensures err { OnErr result (self.new ≡ self.old) }
    {
        self.diags.push(d)?;
        Ok(())
    }

    /// Adds the diagnostic of a code at a place, with as many arguments as the code takes. Takes the time of its text.
    pub fn add(
        &mut self,
        alloc: Global,
        file: u32,
        at: u32,
        code: u8,
        args: &[&str],
    ) -> Result<(), AllocError>
        requires { takes code ≡ Some (length args.now) }
        ensures ok { OnOk result (self.new ≡ self.old ++ diagnostic file at code (map (λ a. a.now) args.now) ∷ []) }
        ensures err { OnErr result (self.new ≡ self.old) }
    {
        let d = diag(alloc, file, at, code, args)?;
        self.push(d)
    }

    /// Adds other diagnostics behind these, which are moved. Takes time in their number. After want of memory these are what
    /// they were.
    pub fn append(&mut self, others: DiagList) -> Result<(), AllocError>
        ensures ok { OnOk result (self.new ≡ self.old ++ others) }
        ensures err { OnErr result (self.new ≡ self.old) }
    {
        let mut more = others.diags;
        self.diags.append(&mut more)?;
        Ok(())
    }
}
