ghost use Rattle.std.specs.Prelude.{◌↔◌, IsTrue};
ghost use Rattle.sc_io.specs.SourceTree.{IsJavaPath};

/// Whether the path is that of a Java source.
pub(crate) fn is_java_path(path: &str) -> bool
    ensures { IsTrue result ↔ IsJavaPath path.now }
{
    path.ends_with(".java")
}
