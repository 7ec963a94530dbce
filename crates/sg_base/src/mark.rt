use crate::label::Label;

/// What a path has at a place: its end, or its next label. The end comes first, then the labels by number.
#[derive(Clone, Copy, Debug, PartialEq, Eq, PartialOrd, Ord, Hash)]
pub enum Mark {
    End,
    Of(Label),
}
