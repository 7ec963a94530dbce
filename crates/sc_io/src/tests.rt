ghost use Rattle.std.specs.Prelude.{◌≡◌, [], ◌∷◌, IfOk, codes, map};
ghost use Rattle.sc_io.specs.FileList.{files_of};
ghost use Rattle.sc_io.specs.SourceTree.{HasDistinctPaths};

use crate::walk::java_paths_below;
use crate::{
    Content, CutSink, DirTree, MemSink, MemTree, PlainSink, PlainTree, Sink, SinkFault, SourceTree,
    StdSink, TreeFault,
};
use std::alloc::{AllocError, Global};
use std::cell::{Cell, RefCell};
use std::fmt::Display;
use std::fs::Permissions;
use std::os::unix::fs::{PermissionsExt, symlink};
use std::rt::Files;
use std::test::Fail;
use std::{env, fs, io, process};

fn three_files(alloc: Global) -> Result<Vec<(String, Vec<u8>)>, AllocError>
    ensures distinct { IfOk result (λ files. HasDistinctPaths (files_of files.items)) }
    ensures paths { IfOk result (λ files. map (λ f. f.path) (files_of files.items)
        ≡ codes "A.java" ∷ codes "notes.txt" ∷ codes "b/B.java" ∷ []) }
{
    let mut files = Vec::new(alloc);
    files.push((
        String::from_str(alloc, "A.java")?,
        b"class A {}".to_vec(alloc)?,
    ))?;
    files.push((
        String::from_str(alloc, "notes.txt")?,
        b"some notes".to_vec(alloc)?,
    ))?;
    files.push((
        String::from_str(alloc, "b/B.java")?,
        b"class B {}".to_vec(alloc)?,
    ))?;
    Ok(files)
}

fn mark<T: Drop>(answer: Result<T, TreeFault>) -> char {
    match answer {
        Ok(_) => '.',
        Err(TreeFault::Failed) => 'F',
        Err(TreeFault::OutOfMemory) => 'M',
    }
}

fn put_mark(answer: Result<(), SinkFault>) -> char {
    match answer {
        Ok(()) => '.',
        Err(SinkFault::Failed) => 'F',
        Err(SinkFault::OutOfMemory) => 'M',
    }
}

/// The paths in order, each with a space behind it.
fn listed(alloc: Global, mut paths: Vec<String>) -> Result<String, AllocError> {
    paths.sort()?;
    let mut text = String::new(alloc);
    for path in &paths {
        text.push_str(path.as_str())?;
        text.push(' ')?;
    }
    Ok(text)
}

fn shown(alloc: Global, content: Content) -> Result<String, AllocError> {
    match content {
        Content::Whole(bytes) => String::from_utf8_lossy(alloc, bytes.as_slice()),
        Content::TooLong => String::from_str(alloc, "too long"),
    }
}

#[test]
fn chosen_calls_fail(rt: HostRuntime) -> Result<(), Fail> {
    let alloc = rt.alloc();
    for (failing, want) in [
        (0, "F..."),
        (1, ".F.."),
        (2, "..F."),
        (3, "...F"),
        (4, "...."),
    ] {
        let mut tree = MemTree::new(three_files(alloc)?, vec![in alloc; failing]?);
        let mut seen = String::new(alloc);
        seen.push(mark(tree.list(alloc)))?;
        seen.push(mark(tree.read(alloc, "A.java", 10)))?;
        seen.push(mark(tree.read(alloc, "b/B.java", 10)))?;
        seen.push(mark(tree.list(alloc)))?;
        assert_eq!(rt; seen.as_str(), want);
    }
    Ok(())
}

/// What a tree of the three files tells of one of them, up to so many bytes.
fn read_of_three(alloc: Global, limit: u64) -> Result<String, Fail> {
    let mut tree = PlainTree::new(three_files(alloc)?);
    let content = tree.read(alloc, "b/B.java", limit)?;
    Ok(shown(alloc, content)?)
}

/// The sources that a tree of the three files lists.
fn list_of_three(alloc: Global) -> Result<String, Fail> {
    let mut tree = PlainTree::new(three_files(alloc)?);
    let paths = tree.list(alloc)?;
    Ok(listed(alloc, paths)?)
}

#[test]
fn plain_tree_lists_and_reads(rt: HostRuntime) -> Result<(), Fail> {
    let paths = list_of_three(rt.alloc())?;
    assert_eq!(rt; paths.as_str(), "A.java b/B.java ");
    for (limit, want) in [(9, "too long"), (10, "class B {}")] {
        let text = read_of_three(rt.alloc(), limit)?;
        assert_eq!(rt; text.as_str(), want);
    }
    Ok(())
}

#[test]
fn a_plain_sink_takes_all(rt: HostRuntime) -> Result<(), Fail> {
    let mut plain = PlainSink::new(rt.alloc());
    plain.put(b"two ")?;
    plain.put(b"pieces")?;
    assert_eq!(rt; plain.taken(), b"two pieces".as_slice());
    Ok(())
}

/// Whether a put of `hello` ends so in a sink with this room, and this is written.
fn takes_in(alloc: Global, room: u64, want: char, written: &str) -> bool {
    let mut sink = MemSink::new(alloc, Some(room));
    put_mark(sink.put(b"hello")) == want && sink.taken() == written.as_bytes()
}

#[test]
fn sinks_take_what_fits(rt: HostRuntime) -> Result<(), Fail> {
    let rows = [
        (0, 'F', ""),
        (1, 'F', "h"),
        (2, 'F', "he"),
        (3, 'F', "hel"),
        (4, 'F', "hell"),
        (5, '.', "hello"),
    ];
    for (room, want, written) in rows {
        assert!(rt; takes_in(rt.alloc(), room, want, written), "{room}");
    }
    Ok(())
}

/// What becomes of three puts.
fn three_puts(alloc: Global, sink: &mut CutSink) -> Result<String, AllocError> {
    let mut seen = String::new(alloc);
    for piece in ["one", "two", "three"] {
        seen.push(put_mark(sink.put(piece.as_bytes())))?;
    }
    Ok(seen)
}

/// Whether three puts end so in a sink with these cuts, and this is written in all.
fn is_cut(
    alloc: Global,
    cuts: &[(u64, u64)],
    want: &str,
    written: &str,
) -> Result<bool, AllocError> {
    let mut sink = CutSink::new(alloc, Vec::from_slice(alloc, cuts)?);
    let seen = three_puts(alloc, &mut sink)?;
    Ok(seen.as_str() == want && sink.taken() == written.as_bytes())
}

#[test]
fn a_cut_put_takes_a_front_and_fails(rt: HostRuntime) -> Result<(), Fail> {
    // Cuts, what becomes of three puts, and what is written in all.
    let rows: [(&[(u64, u64)], &str, &str); 5] = [
        (&[], "...", "onetwothree"),
        (&[(1, 0)], ".F.", "onethree"),
        (&[(0, 2), (2, 9)], "F.F", "ontwothree"),
        (&[(1, 1), (1, 2)], ".F.", "onetthree"),
        (&[(3, 0)], "...", "onetwothree"),
    ];
    for (cuts, want, written) in rows {
        assert!(rt; is_cut(rt.alloc(), cuts, want, written)?);
    }
    Ok(())
}

/// A fresh folder for one test.
fn fresh_folder(rt: &HostRuntime, name: &str) -> io::Result<String> {
    let temp = env::temp_dir(rt)?;
    let id = process::id(rt.process());
    let folder = format!(in rt.alloc(); "{}/sc_io_{id}_{name}", temp.as_str())?;
    let _ = fs::remove_dir_all(rt, folder.as_str());
    fs::create_dir_all(rt, folder.as_str())?;
    Ok(folder)
}

fn below(alloc: Global, folder: &str, name: &str) -> Result<String, AllocError> {
    format!(in alloc; "{folder}/{name}")
}

/// Makes a folder with sources, another file and links.
fn fill(rt: &HostRuntime, root: &str) -> Result<(), Fail> {
    let alloc = rt.alloc();
    fs::create_dir_all(rt, below(alloc, root, "a/b.java")?)?;
    fs::write(rt, below(alloc, root, "A.java")?, "class A {}")?;
    fs::write(rt, below(alloc, root, "a/b.java/C.java")?, "class C {}")?;
    fs::write(rt, below(alloc, root, "a/notes.txt")?, "some notes")?;
    symlink(rt, "A.java", below(alloc, root, "L.java")?)?;
    symlink(rt, "a", below(alloc, root, "z")?)?;
    symlink(rt, "nothing", below(alloc, root, "N.java")?)?;
    Ok(())
}

/// The sources that a tree lists.
fn list_of(alloc: Global, tree: &mut DirTree<HostRuntime>) -> Result<String, Fail> {
    let paths = tree.list(alloc)?;
    Ok(listed(alloc, paths)?)
}

/// What a tree tells of a file, up to so many bytes.
fn read_of(
    alloc: Global,
    tree: &mut DirTree<HostRuntime>,
    path: &str,
    limit: u64,
) -> Result<String, Fail> {
    let content = tree.read(alloc, path, limit)?;
    Ok(shown(alloc, content)?)
}

/// Whether a tree lists and reads the sources of the folder.
fn is_walked(alloc: Global, tree: &mut DirTree<HostRuntime>) -> Result<bool, Fail> {
    let paths = list_of(alloc, tree)?;
    let whole = read_of(alloc, tree, "L.java", 10)?;
    let long = read_of(alloc, tree, "a/b.java/C.java", 9)?;
    Ok(
        paths.as_str() == "A.java L.java a/b.java/C.java z/b.java/C.java "
            && whole.as_str() == "class A {}"
            && long.as_str() == "too long",
    )
}

#[test]
fn walks_the_file_system(rt: HostRuntime) -> Result<(), Fail> {
    let folder = fresh_folder(&rt, "walks")?;
    fill(&rt, folder.as_str())?;
    let mut tree = DirTree::new(rt, folder.clone()?);
    assert!(rt; is_walked(rt.alloc(), &mut tree)?);
    assert_eq!(rt; mark(tree.read(rt.alloc(), "missing.java", 10)), 'F');
    fs::remove_dir_all(&rt, folder.as_str())?;
    Ok(())
}

/// A folder with so many levels of folders, the root among them, with a source in the innermost.
fn nested(rt: &HostRuntime, levels: u32) -> io::Result<String> {
    let alloc = rt.alloc();
    let folder = fresh_folder(rt, "nested")?;
    let mut inner = folder.clone()?;
    for _ in 1..levels {
        inner.push_str("/d")?;
    }
    fs::create_dir_all(rt, inner.as_str())?;
    fs::write(rt, below(alloc, inner.as_str(), "A.java")?, "class A {}")?;
    Ok(folder)
}

#[test]
fn walks_64_levels(rt: HostRuntime) -> Result<(), Fail> {
    let alloc = rt.alloc();
    for (levels, want) in [(64, '.'), (65, 'F')] {
        let folder = nested(&rt, levels)?;
        let mut tree = DirTree::new(rt, folder.clone()?);
        assert_eq!(rt; mark(tree.list(alloc)), want);
        fs::remove_dir_all(&rt, folder.as_str())?;
    }
    Ok(())
}

#[test]
fn refuses_a_folder_that_is_not_there(rt: HostRuntime) -> Result<(), Fail> {
    let alloc = rt.alloc();
    let folder = fresh_folder(&rt, "empty")?;
    let mut missing = DirTree::new(rt, below(alloc, folder.as_str(), "missing")?);
    assert_eq!(rt; mark(missing.list(alloc)), 'F');
    fs::remove_dir_all(&rt, folder.as_str())?;
    Ok(())
}

#[test]
fn refuses_a_circle_of_links(rt: HostRuntime) -> Result<(), Fail> {
    let alloc = rt.alloc();
    let folder = fresh_folder(&rt, "circle")?;
    let link = below(alloc, folder.as_str(), "loop")?;
    symlink(&rt, ".", link.as_str())?;
    let mut tree = DirTree::new(rt, folder.clone()?);
    assert_eq!(rt; mark(tree.list(alloc)), 'F');
    fs::remove_file(&rt, link.as_str())?;
    assert_eq!(rt; mark(tree.list(alloc)), '.');
    fs::remove_dir_all(&rt, folder.as_str())?;
    Ok(())
}

#[test]
fn refuses_a_folder_that_may_not_be_read(rt: HostRuntime) -> Result<(), Fail> {
    let alloc = rt.alloc();
    let folder = fresh_folder(&rt, "refused")?;
    let locked = below(alloc, folder.as_str(), "locked")?;
    fs::create_dir(&rt, locked.as_str())?;
    rt.set_permissions(locked.as_str(), Permissions::from_mode(0))?;
    // Root may read every folder.
    if fs::read_dir(&rt, locked.as_str()).is_err() {
        let mut tree = DirTree::new(rt, folder.clone()?);
        assert_eq!(rt; mark(tree.list(alloc)), 'F');
    }
    rt.set_permissions(locked.as_str(), Permissions::from_mode(0o700))?;
    fs::remove_dir_all(&rt, folder.as_str())?;
    Ok(())
}

/// Makes a folder with four entries: a folder, two sources and another file.
fn fill_by_four(rt: &HostRuntime, root: &str) -> Result<(), Fail> {
    let alloc = rt.alloc();
    fs::create_dir_all(rt, below(alloc, root, "a")?)?;
    fs::write(rt, below(alloc, root, "A.java")?, "class A {}")?;
    fs::write(rt, below(alloc, root, "a/B.java")?, "class B {}")?;
    fs::write(rt, below(alloc, root, "a/notes.txt")?, "some notes")?;
    Ok(())
}

/// The sources that are found below a folder with room for so many entries.
fn found_in(rt: &HostRuntime, root: &str, room: u32) -> Result<String, Fail> {
    let paths = java_paths_below(rt, rt.alloc(), root, room)?;
    Ok(listed(rt.alloc(), paths)?)
}

#[test]
fn walks_up_to_a_number_of_entries(rt: HostRuntime) -> Result<(), Fail> {
    let folder = fresh_folder(&rt, "entries")?;
    fill_by_four(&rt, folder.as_str())?;
    for room in 0..4 {
        let found = mark(java_paths_below(&rt, rt.alloc(), folder.as_str(), room));
        assert_eq!(rt; found, 'F');
    }
    for room in 4..6 {
        let found = found_in(&rt, folder.as_str(), room)?;
        assert_eq!(rt; found.as_str(), "A.java a/B.java ");
    }
    fs::remove_dir_all(&rt, folder.as_str())?;
    Ok(())
}

/// Takes two bytes at a time, keeps them, and takes nothing once its room is used up.
#[derive(Drop)]
struct Narrow<'a> {
    room: &'a Cell<usize>,
    taken: &'a RefCell<Vec<u8>>,
}

impl Print for Narrow<'_> {
    fn print<D: Display + Drop>(&self, _value: D) -> io::Result<()> {
        Err(io::Error::from(io::ErrorKind::Unsupported))
    }

    fn println<D: Display + Drop>(&self, _value: D) -> io::Result<()> {
        Err(io::Error::from(io::ErrorKind::Unsupported))
    }

    fn write_all(&self, _bytes: &[u8]) -> io::Result<()> {
        Err(io::Error::from(io::ErrorKind::Unsupported))
    }

    fn write_some(&self, bytes: &[u8]) -> io::Result<usize> {
        let room = self.room.get();
        let count = bytes.len().min(2).min(room);
        let Ok(mut taken) = self.taken.try_borrow_mut() else {
            return Err(io::Error::from(io::ErrorKind::WouldBlock));
        };
        taken.extend_from_slice(&bytes[..count])?;
        self.room.set(room - count);
        Ok(count)
    }
}

#[test]
fn writes_pieces_out(rt: HostRuntime) -> Result<(), Fail> {
    let alloc = rt.alloc();
    let mut sink = StdSink::new(rt);
    assert_eq!(rt; put_mark(sink.put(b"a line\n")), '.');
    let room = Cell::new(5);
    let taken = RefCell::new(Vec::new(alloc));
    let mut narrow = StdSink::new(Narrow {
        room: &room,
        taken: &taken,
    });
    assert_eq!(rt; put_mark(narrow.put(b"abc")), '.');
    assert_eq!(rt; put_mark(narrow.put(b"def")), 'F');
    assert_eq!(rt; put_mark(narrow.put(b"")), '.');
    assert_eq!(rt; room.get(), 0);
    assert_eq!(rt; taken.try_borrow()?.as_slice(), b"abcde".as_slice());
    Ok(())
}
