use sg_base::Scope;

/// The field of a simple name around a place: the body and the field; a static field that an import of the file brings; several
/// fields, of one body or of imports; too many paths; or none (JLS 6.4.1).
#[derive(Clone, Copy, Debug)]
pub enum FoundField {
    In(Scope, Scope),
    Imported(Scope),
    Several,
    TooMany,
    Nowhere,
}
