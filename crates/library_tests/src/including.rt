//! Includes: a map that stands once, and files that keep their outlines.
use kx_include::{Bodies, Expansion, FileText, Files, Library, Place};
use kx_lex::Fault;
use kx_parse::Kind;
use std::alloc::{AllocError, Global};
use std::process::Abort;
use std::test::Fail;

// What owns much memory stands in a box: a function that holds it is proved much sooner.

fn add(alloc: Global, files: &mut Files, name: &[u8], bytes: &[u8]) -> Result<(), Fault> {
    let name = Vec::from_slice(alloc, name)?;
    let bytes = Vec::from_slice(alloc, bytes)?;
    files.insert(name, bytes)
}

/// The files handed in under these names.
fn handed(rt: &impl AllocGlobal, given: &[(&[u8], &[u8])]) -> Result<Box<Files>, Fail> {
    let mut files = Box::new(rt.alloc(), Files::new(rt.alloc()))?;
    for (name, bytes) in given {
        add(rt.alloc(), &mut files, name, bytes)?;
    }
    Ok(files)
}

fn library_of<'f>(alloc: Global, text: &[u8], files: &'f Files) -> Result<Box<Library<'f>>, Fault> {
    Ok(Box::new(alloc, Library::of_source(alloc, text, files)?)?)
}

fn bodies_of<'l>(alloc: Global, library: &'l Library) -> Result<Box<Bodies<'l>>, Fault> {
    Ok(Box::new(alloc, library.expand(alloc)?)?)
}

/// A source whose symbols are these items, which begin at byte 27.
fn symbols_of(rt: &(impl Abort + AllocGlobal), items: &[u8]) -> Result<Vec<u8>, Fail> {
    let before = b"xkb_keymap { xkb_symbols { ".as_slice();
    Ok([before, items, b" }; };".as_slice()].concat(rt.alloc())?)
}

/// A text so many times, one after another.
fn repeated(rt: &(impl Abort + AllocGlobal), times: usize, text: &[u8]) -> Result<Vec<u8>, Fail> {
    let mut all = Vec::new(rt.alloc());
    for _ in 0..times {
        all.extend_from_slice(text)?;
    }
    Ok(all)
}

/// Asserts that the one section of a body includes one map, the first of the file 1, 4,096 times.
fn stands_once(rt: &impl Abort, symbols: &Expansion) {
    assert!(rt; symbols.maps.len() == 1);
    let map = &symbols.maps[0];
    assert!(rt;
        map.place
            == Place {
                file: 1,
                section: 0
            }
    );
    assert!(rt; map.entries.len() == 1);
    assert!(rt; symbols.sections.len() == 1);
    assert!(rt; symbols.sections[0].entries.len() == 4096);
}

#[test]
fn a_map_stands_once_however_often_it_is_included(rt: HostRuntime) -> Result<(), Fail> {
    let us = b"xkb_symbols { key <A> { [ a ] }; };".as_slice();
    let files = handed(&rt, &[(b"us".as_slice(), us)])?;
    let items = repeated(&rt, 4096, b"include \"us\" ")?;
    let text = symbols_of(&rt, items.as_slice())?;
    let library = library_of(rt.alloc(), text.as_slice(), &files)?;
    let bodies = bodies_of(rt.alloc(), &library)?;
    stands_once(&rt, &bodies.symbols);
    Ok(())
}

fn text_of(alloc: Global, bytes: &[u8]) -> Result<Box<FileText>, AllocError> {
    let bytes = Vec::from_slice(alloc, bytes)?;
    Ok(Box::new(alloc, FileText::of(alloc, bytes)?)?)
}

#[test]
fn a_file_keeps_its_outline(rt: HostRuntime) -> Result<(), Fail> {
    let bytes =
        b"xkb_symbols \"x\" { }; default xkb_symbols \"y\" { include \"us(x)\" };".as_slice();
    let text = text_of(rt.alloc(), bytes)?;
    assert!(rt; text.outline().is_some());
    assert!(rt; text.map_of(Kind::Symbols, Some(b"x".as_slice())) == Some(0));
    assert!(rt; text.map_of(Kind::Symbols, None) == Some(1));
    assert!(rt; text.map_of(Kind::Types, None).is_none());
    let broken = text_of(rt.alloc(), b"xkb_symbols \"x\" { key <A> { [a }; };")?;
    assert!(rt; broken.outline().is_none());
    assert!(rt; broken.map_of(Kind::Symbols, None).is_none());
    Ok(())
}

#[test]
fn a_text_is_handed_in_with_its_outline(rt: HostRuntime) -> Result<(), Fail> {
    let bytes = b"xkb_symbols \"x\" { };".as_slice();
    let mut files = Box::new(rt.alloc(), Files::new(rt.alloc()))?;
    let text = FileText::of(rt.alloc(), Vec::from_slice(rt.alloc(), bytes)?)?;
    assert!(rt;
        files
            .insert_text(Vec::from_slice(rt.alloc(), b"us")?, text)
            .is_ok()
    );
    assert!(rt; files.bytes_at(0) == bytes);
    assert!(rt; files.text_at(1).is_none());
    match files.text_at(0) {
        Some(text) => assert!(rt; text.outline().is_some()),
        None => assert!(rt; false),
    }
    Ok(())
}
