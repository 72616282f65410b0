//! Tests over readers and writers that fail. Others move one byte at a time, in memory. What the program prints of
//! which list is in `rows`, and in the table of cases.

use super::*;
use std::alloc::AllocError;
use std::io::{self, ErrorKind};
use std::process::Abort;
use std::str;
use std::test::Fail;

// Gives one byte at a time. After the last one it fails, if `failure` says how, and else ends.
#[derive(Drop)]
struct Reader<'a> {
    bytes: &'a [u8],
    failure: Option<ErrorKind>,
}

impl<'a> Read for Reader<'a> {
    fn read(&mut self, buf: &mut [u8]) -> io::Result<usize> {
        if self.bytes.is_empty() {
            return match self.failure {
                Some(kind) => Err(io::Error::from(kind)),
                None => Ok(0),
            };
        }
        let count = buf.len().min(1);
        self.bytes.read(&mut buf[..count])
    }
}

// Takes one byte at a time, has room for so many, and then fails.
#[derive(Drop)]
struct Writer {
    room: usize,
    flushes: bool,
}

impl Write for Writer {
    fn write(&mut self, buf: &[u8]) -> io::Result<usize> {
        let count = buf.len().min(self.room).min(1);
        if count == 0 {
            return Err(io::Error::from(ErrorKind::WriteZero));
        }
        self.room -= count;
        Ok(count)
    }

    fn flush(&mut self) -> io::Result<()> {
        if self.flushes {
            Ok(())
        } else {
            Err(io::Error::from(ErrorKind::BrokenPipe))
        }
    }
}

fn words(alloc: Global) -> Result<Vec<String>, AllocError> {
    let mut words = Vec::new(alloc);
    words.push(String::from_str(alloc, "expr")?)?;
    Ok(words)
}

// Compares what was printed.
fn check_printed(rt: &impl Abort, printed: &[u8], wanted: &str) {
    assert!(rt; printed == wanted.as_bytes(), "{wanted}");
}

// Runs the program on a reader, and compares its status and what it prints.
fn check(
    rt: &impl Abort,
    alloc: Global,
    mut input: Reader<'_>,
    (status, text): (u8, &str),
) -> Result<(), AllocError> {
    let words = words(alloc)?;
    let mut output: Vec<u8> = Vec::new(alloc);
    let answer = run(alloc, &words, &mut input, &mut output);
    assert!(rt; answer == status, "{text}");
    check_printed(rt, &output, text);
    Ok(())
}

const ACCEPTED: &str = "accepted\nExpr\n  Int 1:1 1\nfunctions 0\n";

const NO_MEMORY: &str = "refused E36 none OutOfMemory\n";

#[test]
fn a_reader_of_single_bytes(rt: HostRuntime) -> Result<(), Fail> {
    let lists: [(&[u8], (u8, &str)); 3] = [
        (b"1:1 int 1\n1:2 eof\n", (0, ACCEPTED)),
        (b"1:1 eof", (1, "refused E1 1:1 UnexpectedEOF\n")),
        (b"1:1 int 1\n", (2, "unreadable line 2\n")),
    ];
    for (bytes, wanted) in lists {
        let failure = None;
        check(&rt, rt.alloc(), Reader { bytes, failure }, wanted)?;
    }
    Ok(())
}

// The answer where a reader fails after these bytes, all of which can be read.
fn failed_read(alloc: Global, bytes: &[u8]) -> Result<String, AllocError> {
    let ended = bytes.iter().filter(|byte| **byte == b'\n').count();
    let line = ended.saturating_add(1);
    format!(in alloc; "unreadable line {line}\n")
}

#[test]
fn a_reader_that_fails(rt: HostRuntime) -> Result<(), Fail> {
    let list: &[u8] = b"1:1 int 12\n1:3 sym +\n1:4 str a\\sb\n1:9 eof\n";
    let failure = Some(ErrorKind::Other);
    for count in 0..list.len() + 1 {
        let bytes = &list[..count];
        let text = failed_read(rt.alloc(), bytes)?;
        check(&rt, rt.alloc(), Reader { bytes, failure }, (2, &text))?;
    }
    Ok(())
}

#[test]
fn a_reader_that_fails_after_a_bad_line(rt: HostRuntime) -> Result<(), Fail> {
    let lists: [&[u8]; 2] = [b"1:1 bad\n1:2 eof\n", b"bad\n\xff\n1"];
    for bytes in lists {
        let failure = Some(ErrorKind::Other);
        let wanted = (2, "unreadable line 1\n");
        check(&rt, rt.alloc(), Reader { bytes, failure }, wanted)?;
    }
    Ok(())
}

#[test]
fn a_reader_without_memory(rt: HostRuntime) -> Result<(), Fail> {
    let bytes: &[u8] = b"1:1 int 1\n1:2 eof\n";
    let failure = Some(ErrorKind::OutOfMemory);
    check(&rt, rt.alloc(), Reader { bytes, failure }, (1, NO_MEMORY))?;
    Ok(())
}

// Runs the program on a list, and wants it to say by its status that the writer fails.
fn check_writer(
    rt: &impl Abort,
    alloc: Global,
    mut list: &[u8],
    mut output: Writer,
    wanted: u8,
) -> Result<(), AllocError> {
    let room = output.room;
    let status = run(alloc, &words(alloc)?, &mut list, &mut output);
    assert!(rt; status == wanted, "room for {room}");
    Ok(())
}

#[test]
fn a_writer_that_fails(rt: HostRuntime) -> Result<(), Fail> {
    let lists: [(&[u8], (u8, usize)); 3] = [
        (b"1:1 int 1\n1:2 eof\n", (0, ACCEPTED.len())),
        (b"1:1 eof", (1, "refused E1 1:1 UnexpectedEOF\n".len())),
        (b"", (2, "unreadable line 1\n".len())),
    ];
    for (list, (status, length)) in lists {
        for room in 0..length + 1 {
            for flushes in [true, false] {
                let wanted = if room == length && flushes { status } else { 2 };
                let output = Writer { room, flushes };
                check_writer(&rt, rt.alloc(), list, output, wanted)?;
            }
        }
    }
    Ok(())
}
