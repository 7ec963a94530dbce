use jv_layout::Layout;
use jv_tree::{Name, Names};
use sg_base::Scope;

/// The type that declares a member, and what is known of it: the layout and its names, its scope, and the names that it extends.
#[derive(Clone, Copy)]
pub(crate) struct Owner<'a> {
    pub(crate) layout: &'a Layout,
    pub(crate) names: &'a Names,
    pub(crate) ty: Scope,
    pub(crate) extends: &'a [Name],
}
