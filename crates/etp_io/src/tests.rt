ghost use Rattle.std.specs.Prelude.{◌<◌};

use crate::{
    Failed, InFault, Lines, MemoryShelf, MemorySink, MemorySource, Next, Shelf, Sink, Source,
    SureShelf, SureSink, SureSource, write_all,
};
use std::alloc::Global;
use std::test::Fail;

const TEXT: &[u8] = b"law 1\r\n\n# a\r\r\n\r\nlast";

fn piece_of(index: usize) -> usize
    ensures { 0 < result }
{
    match index {
        0 => 1,
        1 => 7,
        _ => 4096,
    }
}

fn copy(alloc: Global, bytes: &[u8]) -> Result<Vec<u8>, Fail> {
    Ok(Vec::from_slice(alloc, bytes)?)
}

#[test]
fn lines_are_the_same_however_reads_are_cut(rt: HostRuntime) -> Result<(), Fail> {
    let alloc = rt.alloc();
    for index in 0..3_usize {
        let piece = piece_of(index);
        let mut source = MemorySource::of(copy(alloc, TEXT)?, piece, Vec::new(alloc));
        let mut lines = Lines::start(alloc, 134217728)?;
        for line in ["law 1", "", "# a\r", "", "last"] {
            assert_eq!(rt; lines.next(&mut source), Ok(Next::Line));
            assert_eq!(rt; lines.line(), line.as_bytes(), "in pieces of {piece}");
        }
        assert_eq!(rt; lines.next(&mut source), Ok(Next::End));
        assert_eq!(rt;
            (lines.line().len(), lines.number(), lines.taken()),
            (0, 5, 20)
        );
    }
    Ok(())
}

#[test]
fn a_line_of_4097_bytes_is_long(rt: HostRuntime) -> Result<(), Fail> {
    let alloc = rt.alloc();
    for index in 0..3_usize {
        let piece = piece_of(index);
        let mut bytes = vec![in alloc; b'a'; 4095]?;
        bytes.extend_from_slice(b"\r\n")?;
        bytes.extend_from_slice(vec![in alloc; b'a'; 4096]?.as_slice())?;
        bytes.extend_from_slice(b"\r\nend")?;
        let mut source = MemorySource::of(bytes, piece, Vec::new(alloc));
        let mut lines = Lines::start(alloc, 134217728)?;
        assert_eq!(rt; lines.next(&mut source), Ok(Next::Line));
        assert_eq!(rt; lines.line().len(), 4095);
        assert_eq!(rt; lines.next(&mut source), Ok(Next::Long));
        assert_eq!(rt; lines.line().is_empty(), true);
        assert_eq!(rt; lines.next(&mut source), Ok(Next::Line));
        assert_eq!(rt; lines.line(), b"end".as_slice());
        assert_eq!(rt; lines.next(&mut source), Ok(Next::End));
    }
    Ok(())
}

#[test]
fn one_byte_over_the_limit_is_too_much(rt: HostRuntime) -> Result<(), Fail> {
    let alloc = rt.alloc();
    let mut lines = Lines::start(alloc, 5)?;
    let mut source = SureSource::of(copy(alloc, b"abcde")?);
    assert_eq!(rt; lines.next(&mut source), Ok(Next::Line));
    let mut lines = Lines::start(alloc, 5)?;
    let mut source = MemorySource::of(copy(alloc, b"a\nbcdefg")?, 3, Vec::new(alloc));
    assert_eq!(rt; lines.next(&mut source), Ok(Next::Line));
    assert_eq!(rt; lines.next(&mut source), Err(InFault::TooMuch { bytes: 6 }));
    assert_eq!(rt; lines.next(&mut source), Err(InFault::TooMuch { bytes: 6 }));
    assert_eq!(rt; lines.taken(), 6);
    Ok(())
}

#[test]
fn a_failed_read_is_answered_for_good(rt: HostRuntime) -> Result<(), Fail> {
    let alloc = rt.alloc();
    let failing = vec![in alloc; 2]?;
    let mut source = MemorySource::of(copy(alloc, b"a\nbcd\n")?, 3, failing);
    let mut lines = Lines::start(alloc, 100)?;
    assert_eq!(rt; lines.next(&mut source), Ok(Next::Line));
    assert_eq!(rt; lines.next(&mut source), Err(InFault::ReadFault));
    assert_eq!(rt; lines.next(&mut source), Err(InFault::ReadFault));
    assert_eq!(rt; lines.number(), 1);
    assert_eq!(rt; lines.taken(), 3);
    Ok(())
}

#[test]
fn a_shelf_gives_the_lines_of_the_newest_bytes(rt: HostRuntime) -> Result<(), Fail> {
    let alloc = rt.alloc();
    for index in 0..3_usize {
        let piece = piece_of(index);
        let mut shelf = MemoryShelf::of(alloc, piece, vec![in alloc; 100]?);
        shelf.put(copy(alloc, b"p4")?, copy(alloc, b"old")?)?;
        shelf.put(copy(alloc, b"other")?, copy(alloc, b"x")?)?;
        shelf.put(copy(alloc, b"p4")?, copy(alloc, b"proof 4 3\nend\n")?)?;
        let mut lines = Lines::start(alloc, 134217728)?;
        assert_eq!(rt; lines.next_at(&mut shelf, b"p4"), Ok(Next::Line));
        assert_eq!(rt; lines.line(), b"proof 4 3".as_slice());
        assert_eq!(rt; lines.next_at(&mut shelf, b"p4"), Ok(Next::Line));
        assert_eq!(rt; lines.line(), b"end".as_slice());
        assert_eq!(rt; lines.next_at(&mut shelf, b"p4"), Ok(Next::End));
        assert_eq!(rt; lines.taken(), 14);
        let mut lines = Lines::start(alloc, 134217728)?;
        assert_eq!(rt; lines.next_at(&mut shelf, b"none"), Err(InFault::ReadFault));
    }
    Ok(())
}

#[test]
fn a_sure_shelf_has_the_empty_text_for_other_names(rt: HostRuntime) -> Result<(), Fail> {
    let alloc = rt.alloc();
    let mut shelf = SureShelf::of(alloc);
    shelf.put(copy(alloc, b"p4")?, copy(alloc, b"proof 4 3\nend")?)?;
    let mut lines = Lines::start(alloc, 134217728)?;
    assert_eq!(rt; lines.next_at(&mut shelf, b"p4"), Ok(Next::Line));
    assert_eq!(rt; lines.next_at(&mut shelf, b"p4"), Ok(Next::Line));
    assert_eq!(rt; lines.line(), b"end".as_slice());
    assert_eq!(rt; lines.next_at(&mut shelf, b"p4"), Ok(Next::End));
    let mut lines = Lines::start(alloc, 134217728)?;
    assert_eq!(rt; lines.next_at(&mut shelf, b"other"), Ok(Next::End));
    Ok(())
}

#[test]
fn a_sink_takes_pieces_up_to_its_room(rt: HostRuntime) -> Result<(), Fail> {
    let alloc = rt.alloc();
    let mut sink = MemorySink::of(alloc, 5, 2, vec![in alloc; 2]?)?;
    assert_eq!(rt; write_all(&mut sink, b"abcdef"), Err(Failed));
    assert_eq!(rt; sink.taken(), b"ab".as_slice());
    assert_eq!(rt; write_all(&mut sink, b"cde"), Ok(()));
    assert_eq!(rt; sink.write(b"f"), Err(Failed));
    assert_eq!(rt; sink.taken(), b"abcde".as_slice());
    assert_eq!(rt; write_all(&mut SureSink, b"abc"), Ok(()));
    Ok(())
}

#[test]
fn a_failed_call_of_a_form_in_memory_takes_nothing(rt: HostRuntime) -> Result<(), Fail> {
    let alloc = rt.alloc();
    let mut buf = [0; 4];
    let mut source = MemorySource::of(copy(alloc, b"abc")?, 2, vec![in alloc; 1]?);
    assert_eq!(rt; source.read(&mut buf), Err(Failed));
    assert_eq!(rt; source.read(&mut buf), Ok(2));
    assert_eq!(rt; buf, *b"ab\0\0");
    let mut shelf = MemoryShelf::of(alloc, 9, vec![in alloc; 1]?);
    shelf.put(copy(alloc, b"n")?, copy(alloc, b"abc")?)?;
    assert_eq!(rt; shelf.read_at(b"n", 1, &mut buf), Err(Failed));
    assert_eq!(rt; shelf.read_at(b"n", 1, &mut buf), Ok(2));
    assert_eq!(rt; buf, *b"bc\0\0");
    Ok(())
}
