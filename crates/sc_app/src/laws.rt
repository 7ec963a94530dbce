//! What holds of all words and files.
ghost use Rattle.sc_app.specs.Laws.{ToldIsOne};

use crate::folder_laws::folders_have_one_report;
use sc_sources::laws::sources_are_read_once;

/// The words and the files tell one status at most, and one list of bytes at most, unless the words ask for answers.
pub fn told_is_one()
    ensures { ToldIsOne }
{
    sources_are_read_once();
    folders_have_one_report();
}
