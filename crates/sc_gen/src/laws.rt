//! Laws of projects, each the contract of a function that does nothing.

ghost use Rattle.sc_gen.specs.Project.{ProjectsAreFolders};

/// The files of a project have paths of their own, which are those of Java sources.
pub fn projects_are_folders()
    ensures { ProjectsAreFolders }
{}
