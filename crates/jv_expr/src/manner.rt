use sg_base::Scope;

/// How a method is called (JLS 15.12.3): through a receiver of a type or without one, whether an instance method may stand there,
/// whether an abstract one may not, and whether a value stands in front of the dot.
#[derive(Clone, Copy, Debug)]
pub struct Manner {
    pub through: Option<Scope>,
    pub free: bool,
    pub concrete: bool,
    pub on_value: bool,
}
