//! Lists that grow, and streams, some of which fail.
use lcc_base::{
    Bytes, CountSink, Failed, FullSource, Items, MemSink, MemSource, ReadEnd, Sink, Source,
    StdSink, StdSource, read_all, write_all,
};
use lcc_text::{ByteClass, Class, run_len};
use std::alloc::Global;
use std::test::Fail;

#[test]
fn bytes_grow(rt: HostRuntime) -> Result<(), Fail> {
    let mut bytes = Bytes::copied(rt.alloc(), b"ab")?;
    bytes.push(b'c')?;
    bytes.extend(b"de")?;
    assert_eq!(rt; bytes.as_slice(), b"abcde".as_slice());
    Ok(())
}

#[test]
fn lists_grow(rt: HostRuntime) -> Result<(), Fail> {
    let mut items = Items::with_capacity(rt.alloc(), 1)?;
    items.push(5)?;
    items.push(6)?;
    assert_eq!(rt; items.as_slice(), [5, 6].as_slice());
    Ok(())
}

/// Whether a source gives these bytes within the limit.
fn gives<S: Source>(alloc: Global, source: &mut S, limit: usize, wanted: &[u8]) -> bool {
    match read_all(alloc, source, limit) {
        Ok(bytes) => bytes.as_slice() == wanted,
        Err(_) => false,
    }
}

#[test]
fn sources_give_their_bytes(rt: HostRuntime) -> Result<(), Fail> {
    let alloc = rt.alloc();
    let text = b"int main(void){return 0;}";
    assert!(rt; gives(alloc, &mut StdSource::new(&text[..]), 25, text));
    let mut source = FullSource::new(text.to_vec(alloc)?);
    assert!(rt; gives(alloc, &mut source, 25, text));
    let mut source = MemSource::new(text.to_vec(alloc)?, Vec::new(alloc));
    assert!(rt; gives(alloc, &mut source, 25, text));
    Ok(())
}

#[test]
fn reading_ends(rt: HostRuntime) -> Result<(), Fail> {
    let alloc = rt.alloc();
    let mut source = FullSource::new(b"four".to_vec(alloc)?);
    let end = read_all(alloc, &mut source, 3);
    assert!(rt; matches!(end, Err(ReadEnd::TooLong)));
    // The second read fails, where the first gave all bytes.
    let mut source = MemSource::new(b"four".to_vec(alloc)?, vec![in alloc; 2]?);
    let end = read_all(alloc, &mut source, 100);
    assert!(rt; matches!(end, Err(ReadEnd::Failed)));
    Ok(())
}

/// Whether a sink takes the bytes.
fn takes<K: Sink>(sink: &mut K, bytes: &[u8]) -> bool {
    write_all(sink, bytes).is_ok()
}

#[test]
fn writes_fail_by_their_numbers(rt: HostRuntime) -> Result<(), Fail> {
    let alloc = rt.alloc();
    let mut sink = MemSink::new(alloc, vec![in alloc; 2]?);
    assert!(rt; takes(&mut sink, b"one"));
    assert_eq!(rt; write_all(&mut sink, b"two"), Err(Failed));
    assert!(rt; takes(&mut sink, b"three"));
    assert_eq!(rt; sink.taken(), b"onethree".as_slice());
    Ok(())
}

#[test]
fn sinks_take_bytes(rt: HostRuntime) {
    let mut count = CountSink::new();
    assert!(rt; takes(&mut count, b"four"));
    assert_eq!(rt; count.count(), 4);
    let mut room = [0u8; 4];
    assert!(rt; takes(&mut StdSink::new(&mut room[..]), b"nop"));
    assert_eq!(rt; room, [b'n', b'o', b'p', 0]);
    assert!(rt; !takes(&mut StdSink::new(&mut room[..]), b"abcde"));
}

/// The length of a run, for any class.
fn length_of<C: ByteClass>(class: C, bytes: &[u8]) -> usize {
    run_len(class, bytes)
}

#[test]
fn runs_of_classes(rt: HostRuntime) {
    assert_eq!(rt; length_of(Class::Name, b"a_1 b"), 3);
    assert_eq!(rt; length_of(Class::Digit, b"a_1 b"), 0);
}
