//! A reader of std that fails, and a writer that takes nothing.
use std::io;
use std::io::{Error, ErrorKind, Read, Write};
use wg_io::{Failed, Sink, Source, StdSink, StdSource};

// A reader that only fails.
#[derive(Drop)]
struct Broken;

impl Read for Broken {
    fn read(&mut self, _buf: &mut [u8]) -> io::Result<usize> {
        Err(Error::from(ErrorKind::Other))
    }
}

// A writer that takes nothing.
#[derive(Drop)]
struct Stuck;

impl Write for Stuck {
    fn write(&mut self, _buf: &[u8]) -> io::Result<usize> {
        Ok(0)
    }

    fn flush(&mut self) -> io::Result<()> {
        Ok(())
    }
}

#[test]
fn a_reader_that_fails_says_so(rt: HostRuntime) {
    assert!(rt; StdSource::new(Broken).read(&mut [0; 4]) == Err(Failed));
}

/// What is taken of some bytes and of none.
fn of_stuck() -> [Result<usize, Failed>; 2] {
    let mut sink = StdSink::new(Stuck);
    [sink.write(b"hello"), sink.write(b"")]
}

#[test]
fn a_writer_that_takes_nothing_fails(rt: HostRuntime) {
    assert!(rt; of_stuck() == [Err(Failed), Ok(0)]);
}
