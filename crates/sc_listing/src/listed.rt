use jv_layout::Layout;
use jv_tree::Names;
use sc_io::SourceFile;

/// What a listing is about: a folder's layout, the names in its trees, and its own files in the order of the layout, in
/// which the prelude's two stand before them.
#[derive(Clone, Copy)]
pub struct Listed<'a> {
    pub layout: &'a Layout,
    pub names: &'a Names,
    pub files: &'a [SourceFile],
}
