//! Replays over readers and writers that fail.
use crate::shapes::checked;
use mc_replay::{ReplayError, replay};
use mc_step::run_step;
use mc_words::ShapeError;
use std::alloc::Global;
use std::io;
use std::io::{BufReader, Error, ErrorKind, Read, Write};

/// A writer that takes `room` bytes and then fails.
#[derive(Drop)]
struct Narrow {
    taken: Vec<u8>,
    room: usize,
}

impl Write for Narrow {
    fn write(&mut self, buf: &[u8]) -> io::Result<usize> {
        let count = buf.len().min(self.room);
        if count == 0 {
            return Err(Error::from(ErrorKind::Other));
        }
        self.taken.extend_from_slice(&buf[..count])?;
        self.room -= count;
        Ok(count)
    }

    fn flush(&mut self) -> io::Result<()> {
        Ok(())
    }
}

/// A reader that gives some bytes and then fails.
#[derive(Drop)]
struct Broken<'a> {
    left: &'a [u8],
}

impl<'a> Read for Broken<'a> {
    fn read(&mut self, buf: &mut [u8]) -> io::Result<usize> {
        if self.left.is_empty() {
            return Err(Error::from(ErrorKind::Other));
        }
        self.left.read(buf)
    }
}

/// The words of a command line without options.
const PLAIN: &[&str] = &["mcstep"];

const SCRIPT: &[u8] = b"put 0 7\nput 0 9\nget 0\n";

const ANSWERS: &[u8] = b"stored at 1 moves 0\nrenewed at 2\nfound 9 at 2\n";

/// The line that is read after `count` bytes of the script, and the answers of those before it.
fn reading(count: usize) -> (u64, &'static [u8]) {
    if count < 8 {
        (1, b"")
    } else if count < 16 {
        (2, b"stored at 1 moves 0\n")
    } else if count < 22 {
        (3, b"stored at 1 moves 0\nrenewed at 2\n")
    } else {
        (4, ANSWERS)
    }
}

/// The line whose answer is written after `count` bytes.
fn writing(count: usize) -> u64 {
    if count < 20 {
        1
    } else if count < 33 {
        2
    } else {
        3
    }
}

/// Replays a script of a new cache with two readers, into a writer that takes `room` bytes: what it took, and the end.
fn replay_narrow(
    alloc: Global,
    script: &[u8],
    room: usize,
) -> Result<(Vec<u8>, Result<(), ReplayError>), ShapeError> {
    let checked = checked(4, 16, 0)?;
    let mut input = script;
    let mut output = Narrow {
        taken: Vec::new(alloc),
        room,
    };
    let result = replay::<1, &[u8], Narrow>(alloc, &checked, 2, &mut input, &mut output);
    Ok((output.taken, result))
}

/// What a run of the program leaves.
#[derive(Drop)]
struct Outcome {
    status: u8,
    output: Vec<u8>,
    errors: Vec<u8>,
}

/// Runs the program over these bytes, after which a read fails.
fn run_broken(alloc: Global, bytes: &[u8]) -> io::Result<Outcome> {
    let mut input = BufReader::new(alloc, Broken { left: bytes })?;
    let mut output = Vec::new(alloc);
    let mut errors = Vec::new(alloc);
    let status = run_step(alloc, PLAIN, &mut input, &mut output, &mut errors);
    Ok(Outcome {
        status,
        output,
        errors,
    })
}

#[test]
fn a_replay_writes_its_answers(rt: HostRuntime) -> Result<(), ShapeError> {
    let alloc = rt.alloc();
    let checked = checked(4, 16, 0)?;
    let mut input = SCRIPT;
    let mut output = Vec::new(alloc);
    assert!(rt; replay::<1, &[u8], Vec<u8>>(alloc, &checked, 2, &mut input, &mut output) == Ok(()));
    assert!(rt; output.as_slice() == ANSWERS);
    let mut input = b"put 1 2 3 4\nget 1\nput 1 5 6 7\nget 1\nremove 1\nget 1".as_slice();
    let mut output = Vec::new(alloc);
    assert!(rt; replay::<3, &[u8], Vec<u8>>(alloc, &checked, 2, &mut input, &mut output) == Ok(()));
    let answers =
        b"stored at 1 moves 0\nfound 2 3 4 at 1\nrenewed at 2\nfound 5 6 7 at 2\nremoved at 3\nabsent at 3\n".as_slice();
    assert!(rt; output.as_slice() == answers);
    Ok(())
}

#[test]
fn a_replay_tells_the_line_and_the_fault(rt: HostRuntime) -> Result<(), ShapeError> {
    let alloc = rt.alloc();
    let checked = checked(4, 16, 0)?;
    let cases: [(&[u8], u64, u8); 6] = [
        (b"get 0\nget 0\nx", 3, 4),
        (b"get 0\nget x\nw", 2, 5),
        (b"#\n\nput 0", 3, 4),
        (b"get 0\nr 2", 2, 6),
        (b"begin remove 0\nbegin put 0 7\nget 0", 3, 7),
        (b"w", 1, 8),
    ];
    for (script, line, number) in cases {
        let mut input = script;
        let mut output = Vec::new(alloc);
        let result = replay::<1, &[u8], Vec<u8>>(alloc, &checked, 2, &mut input, &mut output);
        assert!(rt; result == Err(ReplayError { line, number }));
    }
    for readers in [0, 1025] {
        let mut input = SCRIPT;
        let mut output = Vec::new(alloc);
        let result = replay::<1, &[u8], Vec<u8>>(alloc, &checked, readers, &mut input, &mut output);
        assert!(rt; result == Err(ReplayError { line: 0, number: 6 }));
        assert!(rt; output.is_empty());
        assert!(rt; input.len() == SCRIPT.len());
    }
    Ok(())
}

#[test]
fn a_refused_line_has_its_answer_written_first(rt: HostRuntime) -> Result<(), ShapeError> {
    let alloc = rt.alloc();
    let answer = b"stored at 1 moves 0\n".as_slice();
    for (room, number) in [(20, 8), (19, 9), (0, 9)] {
        let (taken, result) = replay_narrow(alloc, b"begin put 0 7\nw 9", room)?;
        assert!(rt;
            result == Err(ReplayError { line: 2, number }),
            "with room for {room}"
        );
        assert!(rt; taken.as_slice() == &answer[..room]);
    }
    Ok(())
}

#[test]
fn each_byte_that_is_not_taken(rt: HostRuntime) -> Result<(), ShapeError> {
    let alloc = rt.alloc();
    for room in 0..ANSWERS.len() {
        let (taken, result) = replay_narrow(alloc, SCRIPT, room)?;
        let line = writing(room);
        assert!(rt;
            result == Err(ReplayError { line, number: 9 }),
            "with room for {room}"
        );
        assert!(rt; taken.as_slice() == &ANSWERS[..room]);
    }
    assert!(rt; writing(25) == 2);
    assert!(rt; &ANSWERS[..25] == b"stored at 1 moves 0\nrenew".as_slice());
    Ok(())
}

#[test]
fn each_byte_that_is_not_read(rt: HostRuntime) -> io::Result<()> {
    let alloc = rt.alloc();
    for count in 0..=SCRIPT.len() {
        let (line, answers) = reading(count);
        let told = format!(in alloc; "line {line}: read failed\n")?;
        let outcome = run_broken(alloc, &SCRIPT[..count])?;
        assert!(rt; outcome.status == 3);
        assert!(rt; outcome.errors.as_slice() == told.as_bytes());
        assert!(rt; outcome.output.as_slice() == answers);
    }
    Ok(())
}

#[test]
fn a_line_that_is_too_long_before_the_read_fails(rt: HostRuntime) -> io::Result<()> {
    let alloc = rt.alloc();
    let cases: [(usize, &[u8], u8); 3] = [
        (4096, b"line 1: read failed\n", 3),
        (4097, b"line 1: too long\n", 2),
        (5000, b"line 1: too long\n", 2),
    ];
    for (length, told, wanted) in cases {
        let bytes = vec![in alloc; b'#'; length]?;
        let outcome = run_broken(alloc, bytes.as_slice())?;
        assert!(rt; outcome.status == wanted);
        assert!(rt; outcome.errors.as_slice() == told);
        assert!(rt; outcome.output.is_empty());
    }
    Ok(())
}

#[test]
fn the_status_of_a_failed_write(rt: HostRuntime) {
    let alloc = rt.alloc();
    let cases: [(&[&str], usize, &[u8], u8); 4] = [
        (PLAIN, 25, b"line 2: write failed\n", 3),
        (PLAIN, 0, b"line 1: write failed\n", 3),
        (PLAIN, 46, b"", 0),
        (&["mcstep", "--help"], 5, b"", 3),
    ];
    for (words, room, told, wanted) in cases {
        let mut input = SCRIPT;
        let mut output = Narrow {
            taken: Vec::new(alloc),
            room,
        };
        let mut errors = Vec::new(alloc);
        let status = run_step(alloc, words, &mut input, &mut output, &mut errors);
        assert!(rt; status == wanted);
        assert!(rt; errors.as_slice() == told);
    }
}

#[test]
fn a_failed_write_to_the_errors_is_passed_over(rt: HostRuntime) {
    let alloc = rt.alloc();
    let cases: [(&[&str], &[u8]); 3] = [
        (PLAIN, b"get 0\nput 1\n"),
        (&["mcstep", "--buckets", "3"], b""),
        (&["mcstep", "--words", "3"], b""),
    ];
    for (words, script) in cases {
        let mut input = script;
        let mut output = Vec::new(alloc);
        let mut errors = Narrow {
            taken: Vec::new(alloc),
            room: 3,
        };
        let status = run_step(alloc, words, &mut input, &mut output, &mut errors);
        assert!(rt; status == 2);
    }
}
