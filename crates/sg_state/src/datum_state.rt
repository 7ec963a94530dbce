/// The datum of a scope: set, unset while a unit holds it, or absent for good.
#[derive(Clone, Copy, Debug)]
pub enum DatumState<'a, D> {
    Set(&'a D),
    Unset,
    Absent,
}
