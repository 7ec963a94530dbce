ghost use Rattle.std.specs.Prelude.{◌≡◌, None, Some};
ghost use Rattle.jv_header.specs.RowProgress.{begun_of};

use crate::begun_dependence::BegunDependence;
use crate::dependence::Dependence;
use sg_base::Scope;

/// How far the row of a type was read for its dependence on itself: not yet, or behind some of its first types.
#[derive(Drop)]
pub struct DependenceProgress {
    begun: Option<BegunDependence>,
}

impl DependenceProgress {
    /// No type of the row was read yet. It takes no memory.
    pub fn new() -> DependenceProgress
        ensures { result.begun ≡ None }
    {
        DependenceProgress { begun: None }
    }

    /// How far the row of a type was read. Where nothing was, it takes the time of the row.
    pub(crate) fn begun(&self, ty: Scope, row: &[Scope]) -> BegunDependence
        ensures { result ≡ begun_of ty row.now self.now.begun }
    {
        match self.begun {
            None => BegunDependence {
                count: 0,
                found: Dependence {
                    on_itself: row.contains(&ty),
                    too_many: false,
                },
            },
            Some(begun) => begun,
        }
    }

    /// Keeps how far the row was read.
    pub(crate) fn keep(&mut self, begun: BegunDependence)
        ensures { self.new.begun ≡ Some begun }
    {
        self.begun = Some(begun);
    }
}
