//! What a page program writes, its status, and what it says to people.
use super::status;
use crate::pages::{
    MOVES, MOVES_PAGE, MOVES_RUNNING, UTILITIES, UTILITIES_PAGE, UTILITIES_RUNNING, WORKED,
    WORKED_PAGE, WORKED_RUNNING,
};
use divider::Divider;
use largest::LargestRemainder;
use ratebook::run;
use running::RunningSums;
use std::alloc::{AllocError, Global};
use std::io;
use std::io::{ErrorKind, Read, Write};
use std::process::{Abort, ExitCode};
use streams::{Failure, Sink, conclude};

type Answer = Result<ExitCode, Failure<io::Error, io::Error, io::Error>>;

const PAGE: &[u8] = b"H,100,10\nC,1,A,100,0,0,1,0,0,0,0\nE,1,C,90\n";

const LISTING: &[u8] = b"1,A,100,10,0,90,0,0,0\n0,SUM,100,10,0,90,0,0,0\n";

// Gives a byte at each second call, and is interrupted at the others; at its end it fails, if it is to.
#[derive(Drop)]
struct Slow<'a> {
    rest: &'a [u8],
    interrupted: bool,
    end: Option<ErrorKind>,
}

impl<'a> Slow<'a> {
    fn new(rest: &'a [u8], end: Option<ErrorKind>) -> Self {
        Slow {
            rest,
            interrupted: false,
            end,
        }
    }
}

impl Read for Slow<'_> {
    fn read(&mut self, buffer: &mut [u8]) -> io::Result<usize> {
        self.interrupted = !self.interrupted;
        if self.interrupted {
            return Err(io::Error::from(ErrorKind::Interrupted));
        }
        if let (true, Some(kind)) = (self.rest.is_empty(), self.end) {
            return Err(io::Error::from(kind));
        }
        let count = self.rest.len().min(buffer.len()).min(1);
        buffer[..count].copy_from_slice(&self.rest[..count]);
        let rest: &[u8] = self.rest;
        self.rest = &rest[count..];
        Ok(count)
    }
}

// Takes a byte at each second call, and is interrupted at the others; it fails once it is full.
#[derive(Drop)]
struct Full<'a> {
    room: &'a mut [u8],
    taken: usize,
    interrupted: bool,
}

impl Write for Full<'_> {
    fn write(&mut self, bytes: &[u8]) -> io::Result<usize> {
        self.interrupted = !self.interrupted;
        if self.interrupted {
            return Err(io::Error::from(ErrorKind::Interrupted));
        }
        if bytes.is_empty() {
            return Ok(0);
        }
        if self.taken >= self.room.len() {
            return Err(io::Error::from(ErrorKind::StorageFull));
        }
        self.room[self.taken] = bytes[0];
        self.taken += 1;
        Ok(1)
    }

    fn flush(&mut self) -> io::Result<()> {
        Ok(())
    }
}

// Takes all of each call, and counts the calls.
#[derive(Drop)]
struct Counted {
    calls: u64,
}

impl Write for Counted {
    fn write(&mut self, bytes: &[u8]) -> io::Result<usize> {
        self.calls = self.calls.wrapping_add(1);
        Ok(bytes.len())
    }

    fn flush(&mut self) -> io::Result<()> {
        Ok(())
    }
}

fn ended(rt: &impl Abort, answer: Answer, code: ExitCode) {
    assert!(rt; matches!(answer, Ok(found) if found == code));
}

// Runs the program on a page in memory, and compares what it writes, its status and what it says.
fn compare<D: Divider + Drop>(
    rt: &impl Abort,
    heap: Global,
    divider: D,
    page: &[u8],
    written: &[u8],
    said: &[u8],
    code: ExitCode,
) {
    let (mut output, mut errors) = (Vec::new(heap), Vec::new(heap));
    let mut input = page;
    let answer = run(divider, "name", None, &mut input, &mut output, &mut errors);
    ended(rt, answer, code);
    assert_eq!(rt; output.as_slice(), written);
    assert_eq!(rt; errors.as_slice(), said);
    assert!(rt; input.is_empty());
}

// Lists a page, with status 0 and without a word on `errors`.
fn lists<D: Divider + Drop>(
    rt: &impl Abort,
    heap: Global,
    divider: D,
    page: &[u8],
    listing: &[u8],
) {
    compare(rt, heap, divider, page, listing, b"", ExitCode::SUCCESS);
}

// Refuses a page with the row of its fault and a sentence, and status 1.
fn refuses(rt: &impl Abort, heap: Global, page: &[u8], row: &[u8], sentence: &[u8]) {
    compare(
        rt,
        heap,
        LargestRemainder,
        page,
        row,
        sentence,
        ExitCode::FAILURE,
    );
}

#[test]
fn examples_are_listed(rt: HostRuntime) {
    let heap = rt.alloc();
    lists(&rt, heap, LargestRemainder, WORKED_PAGE, WORKED);
    lists(&rt, heap, RunningSums, WORKED_PAGE, WORKED_RUNNING);
    lists(&rt, heap, LargestRemainder, MOVES_PAGE, MOVES);
    lists(&rt, heap, RunningSums, MOVES_PAGE, MOVES_RUNNING);
    lists(&rt, heap, LargestRemainder, UTILITIES_PAGE, UTILITIES);
    lists(&rt, heap, RunningSums, UTILITIES_PAGE, UTILITIES_RUNNING);
    assert_eq!(rt; status(LargestRemainder, UTILITIES_PAGE), ExitCode::SUCCESS);
    assert_eq!(rt; status(RunningSums, b""), ExitCode::FAILURE);
}

#[test]
fn faults_of_each_layer(rt: HostRuntime) {
    let heap = rt.alloc();
    refuses(
        &rt,
        heap,
        b"",
        b"F,page,0,0,2\n",
        b"name: the last line is not ended by byte 10\n",
    );
    refuses(
        &rt,
        heap,
        b"H,100,10\nC,1,A,100,0,0,1,0,0,0,0\nE,1,C,90\nC,2,B,1,0,0,1,0,0,0,0\n",
        b"F,page,4,1,11\n",
        b"name: line 4, field 1: C lines stand before all other lines but H\n",
    );
    refuses(
        &rt,
        heap,
        b"H,100,10\nC,1,A,050,0,0,1,0,0,0,0\n",
        b"F,line,2,4,5\n",
        b"name: line 2, field 4: 050: a figure has no leading zero\n",
    );
    refuses(
        &rt,
        heap,
        b"H,100,10\nC,1,A,100,0,0,1,0,0,0,0\nT,1,7,5\n",
        b"F,book,3,0,31\n",
        b"name: line 3: no customer has the receiver's number\n",
    );
}

// A page of 65,536 bytes: 46, and 10,915 grants of 6.
fn long_page(heap: Global) -> Result<Vec<u8>, AllocError> {
    let mut page = Vec::new(heap);
    page.extend_from_slice(b"H,100,10\nC,1,Alder,100,0,0,1,0,0,0,0\nE,1,C,90\n")?;
    for _ in 0..10_915 {
        page.extend_from_slice(b"G,1,1\n")?;
    }
    Ok(page)
}

#[test]
fn longest_page(rt: HostRuntime) -> Result<(), AllocError> {
    let heap = rt.alloc();
    let mut page = long_page(heap)?;
    assert_eq!(rt; page.len(), 65_536);
    lists(
        &rt,
        heap,
        LargestRemainder,
        &page,
        b"1,Alder,11015,10,0,90,0,0,0\n0,SUM,11015,10,0,90,0,0,0\n",
    );
    page.push(b'\n')?;
    refuses(
        &rt,
        heap,
        &page,
        b"F,page,0,0,1\n",
        b"name: the page has more than 65,536 bytes\n",
    );
    Ok(())
}

#[test]
fn reads_slowly(rt: HostRuntime) {
    let mut output = Vec::new(rt.alloc());
    let answer = run(
        LargestRemainder,
        "name",
        None,
        &mut Slow::new(PAGE, None),
        &mut output,
        &mut io::sink(),
    );
    ended(&rt, answer, ExitCode::SUCCESS);
    assert_eq!(rt; output.as_slice(), LISTING);
}

#[test]
fn writes_slowly(rt: HostRuntime) {
    let mut room = [0; LISTING.len()];
    let mut output = Full {
        room: &mut room,
        taken: 0,
        interrupted: false,
    };
    let answer = run(
        LargestRemainder,
        "name",
        None,
        &mut &PAGE[..],
        &mut output,
        &mut io::sink(),
    );
    ended(&rt, answer, ExitCode::SUCCESS);
    assert_eq!(rt; room.as_slice(), LISTING);
}

#[test]
fn stops_where_reading_fails(rt: HostRuntime) {
    let (mut output, mut errors) = (Vec::new(rt.alloc()), Vec::new(rt.alloc()));
    let answer = run(
        LargestRemainder,
        "name",
        None,
        &mut Slow::new(PAGE, Some(ErrorKind::TimedOut)),
        &mut output,
        &mut errors,
    );
    assert!(rt;
        matches!(&answer, Err(Failure::Reading(error)) if error.kind() == ErrorKind::TimedOut)
    );
    assert!(rt; output.is_empty() && errors.is_empty());
    assert_eq!(rt; conclude("name", answer, &mut errors), ExitCode::FAILURE);
    assert_eq!(rt;
        errors.as_slice(),
        b"name: the input cannot be read: timed out\n".as_slice()
    );
}

#[test]
fn stops_where_writing_fails(rt: HostRuntime) {
    let mut room = [0; 20];
    let mut output = Full {
        room: &mut room,
        taken: 0,
        interrupted: false,
    };
    let mut errors = Vec::new(rt.alloc());
    let answer = run(
        LargestRemainder,
        "name",
        None,
        &mut &PAGE[..],
        &mut output,
        &mut errors,
    );
    assert!(rt;
        matches!(&answer, Err(Failure::Writing(error, _)) if error.kind() == ErrorKind::StorageFull)
    );
    assert!(rt; LISTING.starts_with(&room));
    assert!(rt; errors.is_empty());
    assert_eq!(rt; conclude("name", answer, &mut errors), ExitCode::FAILURE);
    assert_eq!(rt;
        errors.as_slice(),
        b"name: the output cannot be written: no storage space\n".as_slice()
    );
}

#[test]
fn stops_where_a_writer_takes_no_more(rt: HostRuntime) {
    let mut room = [0; 5];
    let answer = run(
        LargestRemainder,
        "name",
        None,
        &mut &PAGE[..],
        &mut &mut room[..],
        &mut io::sink(),
    );
    assert!(rt;
        matches!(answer, Err(Failure::Writing(error, _)) if error.kind() == ErrorKind::WriteZero)
    );
    assert!(rt; LISTING.starts_with(&room));
}

#[test]
fn stops_where_a_sentence_fails(rt: HostRuntime) {
    let mut output = Vec::new(rt.alloc());
    let answer = run(
        LargestRemainder,
        "name",
        None,
        &mut &b"H,1"[..],
        &mut output,
        &mut &mut [0; 3][..],
    );
    assert!(rt; matches!(answer, Err(Failure::Reporting(_))));
    assert_eq!(rt; output.as_slice(), b"F,page,0,0,2\n".as_slice());
}

// A sentence, the words on how a program is used and a listing go out in one piece each.
#[test]
fn writes_in_one_piece(rt: HostRuntime) {
    for (word, page, written, said) in [
        (None, b"H,1".as_slice(), 1, 1),
        (None, PAGE, 1, 0),
        (Some("--help"), PAGE, 0, 1),
    ] {
        let (mut output, mut errors) = (Counted { calls: 0 }, Counted { calls: 0 });
        let answer = run(
            LargestRemainder,
            "name",
            word,
            &mut &page[..],
            &mut output,
            &mut errors,
        );
        assert!(rt; answer.is_ok());
        assert_eq!(rt; output.calls, written);
        assert_eq!(rt; errors.calls, said);
    }
    let mut errors = Counted { calls: 0 };
    let answer = Err(Failure::Reading(io::Error::from(ErrorKind::TimedOut)));
    assert_eq!(rt; conclude("name", answer, &mut errors), ExitCode::FAILURE);
    assert_eq!(rt; errors.calls, 1);
}

// A line of 1,024 bytes, with the one that ends it, is the longest that goes out in one piece.
#[test]
fn longest_line_in_one_piece(rt: HostRuntime) {
    let line = [b'a'; 1024];
    for (length, calls) in [(0, 1), (1023, 1), (1024, 2)] {
        let mut errors = Counted { calls: 0 };
        match str::from_utf8(&line[..length]) {
            Ok(text) => assert!(rt; errors.write_line(text).is_ok()),
            Err(_) => assert!(rt; false),
        }
        assert_eq!(rt; errors.calls, calls);
    }
}

// The status and the words where the reader of the output has gone away.
#[test]
fn a_closed_pipe_is_no_fault(rt: HostRuntime) {
    let mut errors = Vec::new(rt.alloc());
    for code in [ExitCode::SUCCESS, ExitCode::FAILURE] {
        let answer = Err(Failure::Writing(io::Error::from(ErrorKind::BrokenPipe), code));
        assert_eq!(rt; conclude("name", answer, &mut errors), code);
    }
    assert!(rt; errors.is_empty());
}

#[test]
fn says_how_it_is_used(rt: HostRuntime) {
    let (mut output, mut errors) = (Vec::new(rt.alloc()), Vec::new(rt.alloc()));
    for (word, code) in [("--help", ExitCode::SUCCESS), ("other", ExitCode::FAILURE)] {
        let answer = run(
            LargestRemainder,
            "name",
            Some(word),
            &mut Slow::new(b"", Some(ErrorKind::TimedOut)),
            &mut output,
            &mut errors,
        );
        ended(&rt, answer, code);
    }
    assert!(rt; output.is_empty());
    assert!(rt; errors.starts_with(b"usage: name < PAGE\n"));
}
