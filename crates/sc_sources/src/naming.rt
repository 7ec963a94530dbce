//! The terminals of many files, with one number for each name.

ghost use Rattle.std.specs.Prelude.{◌≡◌, ◌+◌, ◌<◌, ◌≤◌, All, length, IfOk};
ghost use Rattle.jv_lex.specs.Source.{IsPlaced, Tokenizes};
ghost use Rattle.sc_io.specs.SourceFile.{sources_of};
ghost use Rattle.sc_sources.specs.Read.{AreWithinLimits};
ghost use Rattle.sc_sources.specs.Threads.{AreLexed, AreNamed, IsLexed, IsNamed, bytes_of};

use crate::lexing::Lexed;
use crate::terminals::Terminals;
use jv_lex::{LexFault, Token};
use jv_parse::name_tokens;
use jv_tree::Names;
use sc_io::SourceFile;
use std::alloc::{AllocError, Global};

/// The terminals of a file, or why it has none.
#[derive(Drop)]
pub(crate) enum Named {
    Listed(Terminals),
    NotListed(LexFault),
}

/// The terminals of files of these tokens, with the names so far.
pub(crate) fn name_all(
    alloc: Global,
    files: &[SourceFile],
    lexed: &[Lexed],
    names: &mut Names,
) -> Result<Vec<Named>, AllocError>
    requires within { AreWithinLimits (sources_of files.now) }
    requires lexed { AreLexed files.now lexed.now }
    requires count { length lexed.now ≡ length files.now }
    requires room { length names.old ≤ 1000 }
    ensures { IfOk result (λ v. AreNamed names.old (bytes_of files.now) names.new v.items) }
{
    let mut all = Vec::with_capacity(alloc, files.len())?;
    for i in 0..files.len() {
        let named = match name_one(alloc, &files[i].bytes, &lexed[i], names) {
            Ok(named) => named,
            Err(fault) => return Err(fault),
        };
        all.push(named)?;
    }
    Ok(all)
}

/// The terminals of a source of these tokens.
fn name_one(
    alloc: Global,
    source: &[u8],
    lexed: &Lexed,
    names: &mut Names,
) -> Result<Named, AllocError>
    requires size { length source.now ≤ 1048576 }
    requires lexed { IsLexed source.now lexed.now }
    requires room { length names.old + length source.now < u32.MAX }
    ensures { IfOk result (IsNamed source.now names.old names.new) }
{
    match lexed {
        Lexed::Tokens(tokens) => match str::from_utf8(source) {
            Ok(text) => name_text(alloc, text, tokens, names),
            Err(_) => unreachable!(),
        },
        Lexed::NoTokens(fault) => Ok(Named::NotListed(same_fault(fault))),
    }
}

/// The terminals of a text of these tokens.
fn name_text(
    alloc: Global,
    source: &str,
    tokens: &[Token],
    names: &mut Names,
) -> Result<Named, AllocError>
    requires tokens { Tokenizes source.now tokens.now }
    requires placed { All (IsPlaced source.now) tokens.now }
    requires size { length source.now ≤ 1048576 }
    requires few { length tokens.now ≤ 1048576 }
    requires room { length names.old + length tokens.now < u32.MAX }
    ensures { IfOk result (IsNamed source.now names.old names.new) }
{
    let list = name_tokens(alloc, source, tokens, names)?;
    Ok(Named::Listed(Terminals {
        list,
        end: source.len() as u32,
    }))
}

/// The same fault.
pub(crate) fn same_fault(fault: &LexFault) -> LexFault
    ensures { result ≡ fault.now }
{
    match fault {
        LexFault::NotUtf8 { at } => LexFault::NotUtf8 { at: *at },
        LexFault::BadToken { at } => LexFault::BadToken { at: *at },
        LexFault::BadLiteral { at } => LexFault::BadLiteral { at: *at },
        LexFault::OutOfMemory => LexFault::OutOfMemory,
    }
}
