//! Lines, commands and the writing loop, over readers and writers that are interrupted and fail.
use mc_script::{Command, Line, LineFault, ReadFault, parse, read_line, send};
use std::alloc::AllocError;
use std::io;
use std::io::{Error, ErrorKind, Read, Write};

/// A reader that gives some bytes, one at a time, each after an interrupted read, and then fails.
#[derive(Drop)]
struct Broken<'a> {
    left: &'a [u8],
    was_interrupted: bool,
}

impl<'a> Read for Broken<'a> {
    fn read(&mut self, buf: &mut [u8]) -> io::Result<usize> {
        self.was_interrupted = !self.was_interrupted;
        if self.was_interrupted {
            return Err(Error::from(ErrorKind::Interrupted));
        }
        if self.left.is_empty() {
            return Err(Error::from(ErrorKind::Other));
        }
        self.left.read(buf)
    }
}

/// A writer that takes at most three bytes at a time, each time after an interrupted write, and fails when it is full.
#[derive(Drop)]
struct Narrow {
    taken: Vec<u8>,
    room: usize,
    was_interrupted: bool,
    fault: Option<ErrorKind>,
}

impl Write for Narrow {
    fn write(&mut self, buf: &[u8]) -> io::Result<usize> {
        self.was_interrupted = !self.was_interrupted;
        if self.was_interrupted {
            return Err(Error::from(ErrorKind::Interrupted));
        }
        let count = buf.len().min(self.room).min(3);
        match self.fault {
            Some(kind) if count == 0 => Err(Error::from(kind)),
            _ => {
                self.taken.extend_from_slice(&buf[..count])?;
                self.room -= count;
                Ok(count)
            }
        }
    }

    fn flush(&mut self) -> io::Result<()> {
        Ok(())
    }
}

#[test]
fn a_line_ends_at_a_line_feed(rt: HostRuntime) {
    let mut input = b"a\n\nb\r\n\r\nc\r\r\nd\re\n\0\xff\n \t\nf\r".as_slice();
    let lines: [&[u8]; 9] = [
        b"a", b"", b"b", b"", b"c\r", b"d\re", b"\0\xff", b" \t", b"f\r",
    ];
    let mut line = Line::new();
    for want in lines {
        assert!(rt; read_line(&mut input, &mut line) == Ok(true));
        assert!(rt; line.as_slice() == want);
    }
    for _ in 0..2 {
        assert!(rt; read_line(&mut input, &mut line) == Ok(false));
    }
}

#[test]
fn a_failed_read_is_told_unless_the_line_is_too_long(rt: HostRuntime) -> Result<(), AllocError> {
    let alloc = rt.alloc();
    let cases: [(usize, &[u8], ReadFault); 5] = [
        (0, b"", ReadFault::ReadFailed),
        (3, b"\r", ReadFault::ReadFailed),
        (4096, b"", ReadFault::ReadFailed),
        (4096, b"\r", ReadFault::ReadFailed),
        (4097, b"", ReadFault::TooLong),
    ];
    for (count, end, fault) in cases {
        let mut bytes = Vec::new(alloc);
        bytes.extend_from_slice(b"get 0\n")?;
        bytes.resize(6 + count, b'#')?;
        bytes.extend_from_slice(end)?;
        let mut input = Broken {
            left: bytes.as_slice(),
            was_interrupted: false,
        };
        let mut line = Line::new();
        assert!(rt; read_line(&mut input, &mut line) == Ok(true));
        assert!(rt; line.as_slice() == b"get 0".as_slice());
        assert!(rt; read_line(&mut input, &mut line) == Err(fault));
    }
    Ok(())
}

#[test]
fn a_line_says_its_command(rt: HostRuntime) {
    let cases: [(&[u8], Result<Option<Command<2>>, LineFault>); 26] = [
        (b"\t # get 0", Ok(None)),
        (b"\t get \t\t 7 \t", Ok(Some(Command::Get(7)))),
        (b"remove 007", Ok(Some(Command::Remove(7)))),
        (b"put\t1\t\t02  3\t", Ok(Some(Command::Put(1, [2, 3])))),
        (b"putif 1 2 3 4", Ok(Some(Command::PutIf(1, 2, [3, 4])))),
        (b"stamp 7", Ok(Some(Command::Stamp(7)))),
        (b"begin put 1 2 3", Ok(Some(Command::BeginPut(1, [2, 3])))),
        (
            b"begin putif 1 2 3 4",
            Ok(Some(Command::BeginPutIf(1, 2, [3, 4]))),
        ),
        (b"begin remove 3", Ok(Some(Command::BeginRemove(3)))),
        (b"begin 1 get 5", Ok(Some(Command::BeginGet(1, 5)))),
        (b"w", Ok(Some(Command::Write(1)))),
        (b"r 2 12", Ok(Some(Command::Read(2, 12)))),
        (b"reopen 2 08", Ok(Some(Command::Reopen(2, 8)))),
        (b"r 2 0", Err(LineFault::BadNumber)),
        (b"w 12", Ok(Some(Command::Write(12)))),
        (b"w 0", Err(LineFault::BadNumber)),
        (b"r 2", Ok(Some(Command::Read(2, 1)))),
        (b"begin remove get 5", Err(LineFault::BadNumber)),
        (b"begin put get 5", Err(LineFault::BadNumber)),
        (b"begin put 1 2", Err(LineFault::NotACommand)),
        (b"putif 1 2 3", Err(LineFault::NotACommand)),
        (b"reopen 2", Err(LineFault::NotACommand)),
        (b"reopen 2 x", Err(LineFault::BadNumber)),
        (b"begin", Err(LineFault::NotACommand)),
        (b"put 1 2", Err(LineFault::NotACommand)),
        (b"get \xff", Err(LineFault::NotACommand)),
    ];
    for (line, want) in cases {
        assert!(rt; parse::<2>(line) == want, "{line:?}");
    }
}

#[test]
fn what_a_narrow_writer_takes(rt: HostRuntime) -> Result<(), AllocError> {
    let alloc = rt.alloc();
    let text = b"absent at 0\n".as_slice();
    for (room, fault) in [
        (20, None),
        (12, Some(ErrorKind::Other)),
        (11, Some(ErrorKind::Other)),
        (11, None),
        (5, Some(ErrorKind::Other)),
        (0, None),
    ] {
        let mut output = Narrow {
            taken: Vec::new(alloc),
            room,
            was_interrupted: false,
            fault,
        };
        let (sent, is_whole) = send(&mut output, text);
        let taken = room.min(12);
        assert!(rt; sent == taken);
        assert!(rt; is_whole == (room >= 12));
        assert!(rt; output.taken.as_slice() == &text[..taken]);
    }
    let mut full = Narrow {
        taken: Vec::new(alloc),
        room: 0,
        was_interrupted: false,
        fault: Some(ErrorKind::Other),
    };
    assert!(rt; send(&mut full, b"") == (0, true), "an empty text");
    Ok(())
}
