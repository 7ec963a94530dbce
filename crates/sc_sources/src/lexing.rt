//! The tokens of many files, by several threads.

ghost use Rattle.std.specs.Prelude.{◌≡◌, ◌<◌, ◌≤◌, length, IfOk};
ghost use Rattle.std.specs.Thread.{IsSync};
ghost use Rattle.sc_sources.specs.Threads.{AreLexed, AreSmall, IsLexed};

use jv_lex::{LexFault, Token, lex};
use sc_io::SourceFile;
use std::alloc::{AllocError, Global};
use std::thread::{Threads, join};

/// The tokens of a file, or why it has none.
#[derive(Drop)]
pub(crate) enum Lexed {
    Tokens(Vec<Token>),
    NoTokens(LexFault),
}

/// The tokens of files, by so many threads, which get about as many bytes each.
pub(crate) fn lex_all<R: Threads + Sync>(
    rt: &R,
    alloc: Global,
    files: &[SourceFile],
    workers: u32,
) -> Result<Vec<Lexed>, AllocError>
    requires { AreSmall files.now }
    ensures { IfOk result (λ v. AreLexed files.now v.items) }
{
    if workers < 2 || files.len() < 2 {
        return lex_each(alloc, files);
    }
    let fewer = workers / 2;
    let others = workers - fewer;
    let (front, back) = files.split_at(cut(files, fewer, workers));
    let (first, second) = join(
        rt,
        || -> Result<Vec<Lexed>, AllocError>
            requires { IsSync R.row × AreSmall front.now }
            ensures { IfOk result (λ v. AreLexed front.entry.now v.items) }
        { lex_all(rt, alloc, front, fewer) },
        || -> Result<Vec<Lexed>, AllocError>
            requires { IsSync R.row × AreSmall back.now }
            ensures { IfOk result (λ v. AreLexed back.entry.now v.items) }
        { lex_all(rt, alloc, back, others) },
    );
    let mut all = first?;
    let mut others = second?;
    all.append(&mut others)?;
    Ok(all)
}

/// The tokens of files, one after another.
fn lex_each(alloc: Global, files: &[SourceFile]) -> Result<Vec<Lexed>, AllocError>
    requires { AreSmall files.now }
    ensures { IfOk result (λ v. AreLexed files.now v.items) }
{
    let mut all = Vec::with_capacity(alloc, files.len())?;
    for file in files {
        let lexed = lex_one(alloc, &file.bytes);
        all.push(lexed)?;
    }
    Ok(all)
}

/// The tokens of one source.
fn lex_one(alloc: Global, source: &[u8]) -> Lexed
    requires { length source.now ≤ 1048576 }
    ensures { IsLexed source.now result }
{
    match lex(alloc, source) {
        Ok(tokens) => Lexed::Tokens(tokens),
        Err(fault) => Lexed::NoTokens(fault),
    }
}

/// How many files have about such a part of all bytes: a file that crosses it stands where the greater part of it does, so that a large one is
/// left to few threads, and those before it to others.
fn cut(files: &[SourceFile], part: u32, whole: u32) -> usize
    requires { 0 < whole }
    ensures { result ≤ length files.now }
{
    let mut total = 0u64;
    for file in files {
        total = total.saturating_add(file.bytes.len() as u64);
    }
    let share = total.saturating_mul(u64::from(part)) / u64::from(whole);
    let mut sum = 0u64;
    for i in 0..files.len() {
        let size = files[i].bytes.len() as u64;
        if sum.saturating_add(size / 2) >= share {
            return i;
        }
        sum = sum.saturating_add(size);
    }
    files.len()
}
