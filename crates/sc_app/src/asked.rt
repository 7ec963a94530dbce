ghost use Rattle.std.specs.Prelude.{◌≡◌, ◌≤◌, ◌↔◌, ℕ, IsTrue, MatchOption, None, decimal, map};
ghost use Rattle.sc_app.specs.declared.command.Command.{Command as CommandOf};
ghost use Rattle.sc_app.specs.Command.{Asks, AsksWith, IsCommand, IsCommandOf, IsCount, IsFolderName, IsWorkers};

use crate::command::Command;
use itoa::Buffer;

/// The most workers that the words may ask for.
const MOST_WORKERS: u32 = 64;

/// The most classes that a project may have.
const MOST_CLASSES: u32 = 1000;

/// What the words ask for, and by how many workers, where they say so.
#[derive(Clone, Copy, Debug)]
pub(crate) struct Asked {
    pub(crate) command: Command,
    pub(crate) workers: Option<u32>,
}

/// What the words ask for: a command, then at most one option `--workers=N`, and then one word. The commands are `check DIR`, `answers DIR`,
/// `graph DIR` and `gen N`. DIR is not empty and does not begin with `-`; the N of workers is a number from 1 to 64, and that of `gen` one
/// from 1 to 1,000, both in decimal without a leading zero.
pub(crate) fn asked_of(words: &[&str]) -> Option<Asked>
    ensures { MatchOption result (IsCommand (map (λ w. w.now) words.now) → ⊥) (λ a. Asks (map (λ w. w.now) words.now) a.command a.workers) }
{
    match words {
        [command, operand] => plain(command.as_bytes(), operand.as_bytes()),
        [command, option, operand] => {
            with_option(command.as_bytes(), option.as_bytes(), operand.as_bytes())
        }
        _ => None,
    }
}

/// What a command without an option asks for.
fn plain(command: &[u8], operand: &[u8]) -> Option<Asked>
    ensures { MatchOption result ((c : CommandOf) → IsCommandOf c command.now operand.now → ⊥) (λ a. (a.workers ≡ None) × IsCommandOf a.command command.now operand.now) }
{
    let command = command_of(command, operand)?;
    Some(Asked {
        command,
        workers: None,
    })
}

/// What a command with an option asks for.
fn with_option(command: &[u8], option: &[u8], operand: &[u8]) -> Option<Asked>
    ensures { MatchOption result ((c : CommandOf) (n : ℕ) → IsCommandOf c command.now operand.now → IsWorkers option.now n → ⊥)
        (λ a. AsksWith a command.now option.now operand.now) }
{
    let command = command_of(command, operand)?;
    match workers_of(option) {
        Some(workers) => Some(Asked {
            command,
            workers: Some(workers),
        }),
        None => None,
    }
}

/// What a command asks for with its operand.
fn command_of(command: &[u8], operand: &[u8]) -> Option<Command>
    ensures { MatchOption result ((c : CommandOf) → IsCommandOf c command.now operand.now → ⊥) (λ c. IsCommandOf c command.now operand.now) }
{
    if command == b"gen".as_slice() {
        return generator(operand);
    }
    if !is_folder_name(operand) {
        return None;
    }
    if command == b"check".as_slice() {
        Some(Command::Check)
    } else if command == b"answers".as_slice() {
        Some(Command::Answers)
    } else if command == b"graph".as_slice() {
        Some(Command::Graph)
    } else {
        None
    }
}

/// The command that makes a project with as many classes as the operand says.
fn generator(operand: &[u8]) -> Option<Command>
    ensures { MatchOption result ((n : ℕ) → IsCount 1000 operand.now n → ⊥) (λ c. (n : ℕ) × (c ≡ Command.Gen n) × IsCount 1000 operand.now n) }
{
    let classes = count_of(operand, MOST_CLASSES)?;
    Some(Command::Gen(classes))
}

/// Whether a text may be the name of a folder.
fn is_folder_name(name: &[u8]) -> bool
    ensures { IsTrue result ↔ IsFolderName name.now }
{
    match name {
        [] => false,
        [first, ..] => *first != b'-',
    }
}

/// How many workers a word asks for, where it does.
fn workers_of(word: &[u8]) -> Option<u32>
    ensures { MatchOption result ((n : ℕ) → IsWorkers word.now n → ⊥) (IsWorkers word.now) }
{
    let number = word.strip_prefix(b"--workers=".as_slice())?;
    count_of(number, MOST_WORKERS)
}

/// The number from 1 to `most` that a text is in decimal, where it is one.
fn count_of(text: &[u8], most: u32) -> Option<u32>
    requires { most ≤ 1000 }
    ensures { MatchOption result ((n : ℕ) → IsCount most text.now n → ⊥) (IsCount most text.now) }
{
    let mut digits = Buffer::new();
    for n in 1..most + 1 {
        if digits.format(n).as_bytes() == text {
            return Some(n);
        }
    }
    None
}
