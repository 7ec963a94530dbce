use sg_base::PathView;
use std::marker::Model;

/// A found path with its datum, which are read where they stand in an answer.
#[derive(Drop)]
pub struct FoundView<'a, D> {
    pub path: PathView<'a>,
    pub datum: &'a D,
}

impl<'a, D> Model for FoundView<'a, D> {
    ghost use Rattle.sg_query.specs.declared.found.Found.{Found};

    ghost Value = { Found D };

    ghost view = { λ f. record { path = f.path; datum = f.datum.now } };
}
