//! Tests of what no clause says: that each call which allocates succeeds with ample memory. Each function owns few values,
//! since each exit by `?` has to let all of them go.
use bt_base::{CommandLine, Duplicate, Id, List, Num, SharedList, Text, words};
use byte_streams::{Failed, MemorySink, MemorySource, ReadFault, SureSink, read_all, write_all};
use std::test::Fail as TestFail;

#[test]
fn ids_are_read_and_copied(rt: HostRuntime) -> Result<(), TestFail> {
    let id = Id::read(rt.alloc(), "Pool-1_a")?;
    assert!(rt; id.copy()?.as_str() == "Pool-1_a");
    Ok(())
}

#[test]
fn command_lines_are_read_and_copied(rt: HostRuntime) -> Result<(), TestFail> {
    let line = CommandLine::read(rt.alloc(), "sh -c \"echo hi\"")?.ok_or("no command line")?;
    assert!(rt; line.copy()?.as_str() == "sh -c \"echo hi\"");
    Ok(())
}

#[test]
fn short_and_long_texts_are_copied(rt: HostRuntime) -> Result<(), TestFail> {
    let texts = [
        "",
        "a",
        "0123456789abcde",
        "0123456789abcdef",
        "0123456789abcdefg",
        "0123456789abcdé",
        "0123456789abcdeé",
    ];
    for text in texts {
        let made = Text::of_string(String::from_str(rt.alloc(), text)?)?;
        assert!(rt; made.as_str() == text);
        assert!(rt; made.copy()?.as_str() == text);
    }
    Ok(())
}

#[test]
fn words_are_read_into_a_list(rt: HostRuntime) -> Result<(), TestFail> {
    let list = List::of_vec(words(rt.alloc(), "sh -c \"echo hi\"")?);
    assert_eq!(rt; list.copy()?.as_slice().len(), 3);
    Ok(())
}

#[test]
fn numbers_are_written(rt: HostRuntime) -> Result<(), TestFail> {
    let number = Num::of_millionths(-12_500_000).ok_or("no number")?;
    let text = number.text(rt.alloc())?;
    assert!(rt; text.copy()?.as_str() == "-12.5");
    Ok(())
}

#[test]
fn plain_lists_are_copied(rt: HostRuntime) -> Result<(), TestFail> {
    let list = List::of_vec([1, 2].to_vec(rt.alloc())?);
    assert_eq!(rt; list.copied()?.into_vec().as_slice(), [1, 2].as_slice());
    Ok(())
}

#[test]
fn shared_lists_are_copied(rt: HostRuntime) -> Result<(), TestFail> {
    let list = List::of_vec([1, 2].to_vec(rt.alloc())?);
    let shared = SharedList::of_list(rt.alloc(), list)?;
    assert_eq!(rt; shared.copy()?.as_slice(), [1, 2].as_slice());
    let empty = SharedList::of_list(rt.alloc(), List::<u64>::empty(rt.alloc()))?;
    assert!(rt; empty.copy()?.as_slice().is_empty());
    assert!(rt; SharedList::<u64>::empty().as_slice().is_empty());
    Ok(())
}

#[test]
fn a_source_in_memory_fails_at_the_listed_calls(rt: HostRuntime) -> Result<(), TestFail> {
    let alloc = rt.alloc();
    let mut source = MemorySource::new(b"batch".to_vec(alloc)?, [1].to_vec(alloc)?);
    assert!(rt; read_all(alloc, &mut source, 9).err() == Some(ReadFault::Failed));
    let bytes = read_all(alloc, &mut source, 9).ok().ok_or("the bytes")?;
    assert_eq!(rt; bytes.as_slice(), b"batch".as_slice());
    Ok(())
}

#[test]
fn a_sink_in_memory_fails_at_the_listed_calls(rt: HostRuntime) -> Result<(), TestFail> {
    let mut sink = MemorySink::new(rt.alloc(), [2].to_vec(rt.alloc())?);
    assert_eq!(rt; write_all(&mut sink, b"batch"), Ok(()));
    assert_eq!(rt; write_all(&mut sink, b"es"), Err(Failed));
    assert_eq!(rt; write_all(&mut sink, b"ed"), Ok(()));
    let taken = sink.into_bytes().ok_or("memory was ample")?;
    assert_eq!(rt; taken.as_slice(), b"batched".as_slice());
    Ok(())
}

#[test]
fn with_ample_memory_a_sure_sink_keeps_what_it_took(rt: HostRuntime) -> Result<(), TestFail> {
    let mut sink = SureSink::new(rt.alloc());
    assert_eq!(rt; write_all(&mut sink, b"ab"), Ok(()));
    assert_eq!(rt; write_all(&mut sink, b"cd"), Ok(()));
    let taken = sink.into_bytes().ok_or("memory was ample")?;
    assert_eq!(rt; taken.as_slice(), b"abcd".as_slice());
    Ok(())
}
