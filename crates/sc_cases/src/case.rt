/// A case of a text.
#[derive(Clone, Copy)]
pub(crate) struct Case<'a> {
    /// What it is called.
    pub(crate) name: &'a str,
    /// The words behind the program's name, with spaces between them.
    pub(crate) words: &'a str,
    /// The files, the first with nothing before its path and each other with a line's end and two dashes. Nothing where there are none.
    pub(crate) files: Option<&'a str>,
    /// Whether all that has to be written stands in the case. Else the last line does not.
    pub(crate) is_whole: bool,
    /// The lines that have to be written, without the end of the last one.
    pub(crate) wanted: &'a str,
    /// The status that is wanted.
    pub(crate) status: u8,
}

impl<'a> Case<'a> {
    /// The case of a text, which begins with its name. Nothing where no line begins with `=>`, or one does that has something behind
    /// it that is no status. Takes time linear in the text.
    pub(crate) fn of_text(text: &'a str) -> Option<Case<'a>> {
        let (front, end) = text.split_once("\n=>")?;
        let (top, files) = match front.split_once("\n-- ") {
            Some((top, files)) => (top, Some(files)),
            None => (front, None),
        };
        let words = match top.split_once("\n$") {
            Some((_, behind)) => first_line(behind),
            None => "check src",
        };
        let status = first_line(end).trim();
        let wanted = end.split_once('\n').map_or("", |parts| parts.1);
        let wanted = wanted.trim_end_matches('\n');
        Some(Case {
            name: first_line(top),
            words,
            files,
            is_whole: !status.is_empty(),
            wanted,
            status: status_of(status, wanted)?,
        })
    }
}

/// The status that is wanted: the one that is written, and else that of a report with these lines before its last one.
fn status_of(status: &str, wanted: &str) -> Option<u8> {
    if status.is_empty() {
        return Some(!wanted.is_empty() as u8);
    }
    status.parse().ok()
}

/// The first line of a text, without its end.
pub(crate) fn first_line(text: &str) -> &str {
    match text.split_once('\n') {
        Some((line, _)) => line,
        None => text,
    }
}
