use crate::argument::Argument;
use std::alloc::{AllocError, Global};
use std::marker::Model;

/// Some arguments, which contracts see as their list.
#[derive(Debug, Drop)]
pub struct ArgumentList {
    arguments: Vec<Argument>,
}

impl Model for ArgumentList {
    ghost use Rattle.std.specs.Prelude.{List};
    ghost use Rattle.jv_expr.specs.declared.argument.Argument.{Argument};

    ghost Value = { List Argument };

    ghost view = { λ l. l.arguments.items };
}

impl ArgumentList {
    ghost use Rattle.std.specs.Prelude.{◌≡◌, [], ◌∷◌, ◌++◌, OnOk, OnErr};

    /// No argument. It takes no memory.
    pub fn empty(alloc: Global) -> ArgumentList
        ensures { result ≡ [] }
    {
        ArgumentList {
            arguments: Vec::new(alloc),
        }
    }

    /// These arguments, which are moved.
    pub fn new(arguments: Vec<Argument>) -> ArgumentList
        ensures { result ≡ arguments.items }
    {
        ArgumentList { arguments }
    }

    /// The arguments, first to last.
    pub fn as_slice(&self) -> &[Argument]
        ensures { result.now ≡ self.now }
    {
        self.arguments.as_slice()
    }

    /// Adds a argument behind the others. After want of memory they are what they were.
    pub fn push(&mut self, argument: Argument) -> Result<(), AllocError>
        ensures ok { OnOk result (self.new ≡ self.old ++ argument ∷ []) }
        ensures err { OnErr result (self.new ≡ self.old) }
    {
        self.arguments.push(argument)?;
        Ok(())
    }
}
