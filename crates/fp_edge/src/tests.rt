use crate::{Failed, Gate, MemSink, MemSource, OpenGate, Sink, Source, StdSink, StdSource};
use std::alloc::{AllocError, Global};
use std::io::{self, ErrorKind, Read, Write};
use std::test::Fail;

// A reader that fails at first, then gives two bytes and writes over the rest of its buffer, and then ends.
#[derive(Drop)]
struct Careless {
    calls: u32,
}

impl Read for Careless {
    fn read(&mut self, buf: &mut [u8]) -> io::Result<usize> {
        let call = self.calls;
        self.calls = call.saturating_add(1);
        match buf {
            _ if call == 0 => Err(ErrorKind::Other.into()),
            [first, second, third, ..] if call == 1 => {
                (*first, *second, *third) = (b'a', b'b', b'x');
                Ok(2)
            }
            _ => Ok(0),
        }
    }
}

#[test]
fn a_reader_of_std_is_a_source(rt: HostRuntime) {
    let mut reader = Careless { calls: 0 };
    let mut source = StdSource::new(&mut reader);
    let mut buf = *b"....";
    let cases = [(Err(Failed), b"...."), (Ok(2), b"ab.."), (Ok(0), b"ab..")];
    for (answer, after) in cases {
        assert_eq!(rt; source.read(&mut buf), answer);
        assert_eq!(rt; buf.as_slice(), after.as_slice());
    }
    assert_eq!(rt; reader.calls, 3);
}

// A writer that takes a piece whole, then none of one, then fails; its second flush fails; from then on it takes two bytes
// at most.
#[derive(Drop)]
struct Unsteady {
    calls: u32,
    flushes: u32,
    taken: Vec<u8>,
}

impl Write for Unsteady {
    fn write(&mut self, buf: &[u8]) -> io::Result<usize> {
        self.calls = self.calls.saturating_add(1);
        let amount = match self.calls {
            2 => 0,
            3 => return Err(ErrorKind::Other.into()),
            5 => buf.len().min(2),
            _ => buf.len(),
        };
        if self.taken.extend_from_slice(&buf[..amount]).is_err() {
            return Err(ErrorKind::OutOfMemory.into());
        }
        Ok(amount)
    }

    fn flush(&mut self) -> io::Result<()> {
        self.flushes = self.flushes.saturating_add(1);
        if self.flushes == 2 {
            return Err(ErrorKind::Other.into());
        }
        Ok(())
    }
}

#[test]
fn a_writer_of_std_is_a_sink(rt: HostRuntime) {
    let mut writer = Unsteady {
        calls: 0,
        flushes: 0,
        taken: Vec::new(rt.alloc()),
    };
    let mut sink = StdSink::new(&mut writer);
    let cases: [(&[u8], Result<usize, Failed>); 7] = [
        (b"abc", Ok(3)),
        (b"de", Err(Failed)),
        (b"de", Err(Failed)),
        (b"de", Err(Failed)),
        (b"fghij", Ok(2)),
        (b"", Ok(0)),
        (b"h", Ok(1)),
    ];
    for (piece, answer) in cases {
        assert_eq!(rt; sink.write(piece), answer);
    }
    // Nothing was tried again, and each write that took something was flushed once.
    assert_eq!(rt; (writer.calls, writer.flushes), (7, 5));
    assert_eq!(rt; writer.taken.as_slice(), b"abcdefgh".as_slice());
}

// What six reads into three bytes answer, 9 for a failure, and what came of them.
fn six_reads<S: Source>(alloc: Global, source: &mut S) -> Result<(Vec<u8>, Vec<u8>), AllocError> {
    let mut answers = Vec::new(alloc);
    let mut bytes = Vec::new(alloc);
    for _ in 0..6 {
        let mut buf = [0; 3];
        match source.read(&mut buf) {
            Ok(n) => {
                answers.extend_from_slice(&[n as u8])?;
                bytes.extend_from_slice(&buf[..n])?;
            }
            Err(Failed) => answers.extend_from_slice(&[9])?,
        }
    }
    Ok((answers, bytes))
}

#[test]
fn a_source_in_memory_fails_where_it_is_told_to(rt: HostRuntime) -> Result<(), Fail> {
    let alloc = rt.alloc();
    let cases: [(usize, &[u32], [u8; 6]); 4] = [
        (9, &[], [3, 3, 1, 0, 0, 0]),
        (2, &[0, 2], [9, 2, 9, 2, 2, 1]),
        (2, &[3, 5], [2, 2, 2, 9, 1, 9]),
        (1, &[7], [1, 1, 1, 1, 1, 1]),
    ];
    for (most, failing, answers) in cases {
        let mut source = MemSource::new(b"abcdefg".to_vec(alloc)?, most, failing.to_vec(alloc)?);
        let (given, bytes) = six_reads(alloc, &mut source)?;
        assert_eq!(rt; given.as_slice(), answers.as_slice());
        assert!(rt; b"abcdefg".starts_with(bytes.as_slice()));
    }
    Ok(())
}

// What six writes of three bytes answer, 9 for a failure.
fn six_writes<S: Sink>(alloc: Global, sink: &mut S) -> Result<Vec<u8>, AllocError> {
    let mut answers = Vec::new(alloc);
    for _ in 0..6 {
        match sink.write(b"xyz") {
            Ok(n) => answers.extend_from_slice(&[n as u8])?,
            Err(Failed) => answers.extend_from_slice(&[9])?,
        }
    }
    Ok(answers)
}

#[test]
fn a_sink_in_memory_fails_where_it_is_told_to_and_where_it_is_full(
    rt: HostRuntime,
) -> Result<(), Fail> {
    let alloc = rt.alloc();
    let cases: [(usize, usize, &[u32], [u8; 6], &[u8]); 4] = [
        (100, 9, &[], [3, 3, 3, 3, 3, 3], b"xyzxyzxyzxyzxyzxyz"),
        (100, 2, &[0, 4], [9, 2, 2, 2, 9, 2], b"xyxyxyxy"),
        (7, 9, &[1], [3, 9, 3, 1, 9, 9], b"xyzxyzx"),
        (0, 1, &[], [9, 9, 9, 9, 9, 9], b""),
    ];
    for (room, most, failing, answers, held) in cases {
        let mut sink = MemSink::new(alloc, room, most, failing.to_vec(alloc)?)?;
        assert_eq!(rt;
            six_writes(alloc, &mut sink)?.as_slice(),
            answers.as_slice()
        );
        assert_eq!(rt; sink.held(), held);
    }
    Ok(())
}

// A gate that threads share.
fn pass<G: Gate + Sync>(gate: &G) {
    gate.enter(0, 1, 2);
    gate.paint(0, 1);
}

#[test]
fn threads_can_share_the_open_gate() {
    pass(&OpenGate);
}
