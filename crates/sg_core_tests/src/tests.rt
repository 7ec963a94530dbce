//! Runs of two units over small openings, told by texts that were worked out by hand (`cases`).

mod cases;
mod doing;
mod openings;
mod standing;
mod telling;

use crate::tests::cases::CASES;
use crate::tests::doing::{act, first_word, number_of};
use crate::tests::openings::{Run, begun};
use crate::tests::standing::look;
use crate::tests::telling::put_log;
use std::alloc::Global;
use std::fmt::Write;
use std::test::Fail;

/// What comes of a case: its text, with what is told in the place of what was to be told; those of its lines that were done; and the log.
#[derive(Drop)]
struct Story {
    text: String,
    done: String,
    log: String,
}

/// Does what words say, or looks at what they name, and writes what is told. Whether something was done.
fn tell(alloc: Global, run: &mut Run, what: &str, text: &mut String) -> Result<bool, Fail> {
    let (word, rest) = first_word(what);
    match number_of(word) {
        Some(unit) => act(run, unit, rest, text),
        None => {
            look(alloc, run, word, rest, text)?;
            Ok(false)
        }
    }
}

/// The words of a line, without what is to be told.
fn words_of(line: &str) -> Result<&str, Fail> {
    match line.split_once(": ") {
        Some((what, _)) => Ok(what),
        None => Err(Fail::new("a line without a colon")),
    }
}

/// Goes on in a story by a line of its case.
fn go_on(alloc: Global, run: &mut Run, line: &str, story: &mut Story) -> Result<(), Fail> {
    let what = words_of(line)?;
    write!(story.text, "{what}: ")?;
    if tell(alloc, run, what, &mut story.text)? {
        writeln!(story.done, "{line}")?;
    }
    story.text.push('\n')?;
    Ok(())
}

/// The name of a case's opening, and its lines.
fn parts_of(case: &str) -> Result<(&str, &str), Fail> {
    match case.split_once('\n') {
        Some(parts) => Ok(parts),
        None => Err(Fail::new("a case without lines")),
    }
}

/// A story of which nothing is told yet.
fn no_story(alloc: Global) -> Story {
    Story {
        text: String::new(alloc),
        done: String::new(alloc),
        log: String::new(alloc),
    }
}

/// Goes on in a story by all lines of its case.
fn go_on_by_all(alloc: Global, run: &mut Run, lines: &str, story: &mut Story) -> Result<(), Fail> {
    for line in lines.lines() {
        go_on(alloc, run, line, story)?;
    }
    Ok(())
}

/// Tells a run that began with an opening, by the lines of its case.
fn put_run(
    alloc: Global,
    run: &mut Run,
    opening: &str,
    lines: &str,
    story: &mut Story,
) -> Result<(), Fail> {
    writeln!(story.text, "{opening}")?;
    go_on_by_all(alloc, run, lines, story)?;
    put_log(&mut story.log, run.log())
}

/// Tells a case.
fn put_case(alloc: Global, case: &str, story: &mut Story) -> Result<(), Fail> {
    let (opening, lines) = parts_of(case)?;
    let mut run = begun(alloc, opening)?;
    put_run(alloc, &mut run, opening, lines, story)
}

/// What comes of a case.
fn story_of(alloc: Global, case: &str) -> Result<Story, Fail> {
    let mut story = no_story(alloc);
    put_case(alloc, case, &mut story)?;
    Ok(story)
}

#[test]
fn runs_tell_what_was_worked_out(rt: HostRuntime) -> Result<(), Fail> {
    for case in CASES {
        let story = story_of(rt.alloc(), case)?;
        assert_eq!(rt; story.text.as_str(), case);
        assert_eq!(rt; story.log.as_str(), story.done.as_str());
    }
    Ok(())
}
