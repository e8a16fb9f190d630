// Whole runs over memory, with small pieces and short writes, and one that fails in its middle.
use super::*;
use std::io::Error;

const NIGHT: &[u8] = b"L 1000 5 10 1\nL 1000 5 10 2\nL 1000 5 10 3\n";

const LOG: &[u8] =
    b"no sev let n ac verdict next score\n1 N J 80 2 accept N 3\n2 N J 80 2 accept N 0\n3 N J 80 2 reject N 0\n";

// Cannot be read.
#[derive(Drop)]
struct Torn;

impl Read for Torn {
    fn read(&mut self, _buf: &mut [u8]) -> Result<usize> {
        Err(Error::other("torn"))
    }
}

// Takes at most ten bytes at a time, and fails where its room is used up.
#[derive(Drop)]
struct Paper {
    written: Vec<u8>,
    room: usize,
}

impl Write for Paper {
    fn write(&mut self, buf: &[u8]) -> Result<usize> {
        if self.room == 0 {
            return Err(Error::other("full"));
        }
        let n = buf.len().min(10).min(self.room);
        self.room -= n;
        self.written.write(&buf[..n])
    }

    fn flush(&mut self) -> Result<()> {
        Ok(())
    }
}

fn blank(rt: HostRuntime, room: usize) -> Paper {
    Paper {
        written: Vec::new(rt.alloc()),
        room,
    }
}

#[test]
fn whole_night(rt: HostRuntime) {
    let mut night = NIGHT;
    let mut log = blank(rt, 1000);
    let last = run(&rt, &mut night, &mut log, &mut [0u8; 7], &mut [0u8; 100]);
    assert_eq!(rt; log.written.as_slice(), LOG);
    assert!(rt; last.over);
    assert!(rt; !last.failed);
}

// The header and the first line are written, and a piece of the second.
#[test]
fn full_paper(rt: HostRuntime) {
    let mut night = NIGHT;
    let mut log = blank(rt, 60);
    let last = run(&rt, &mut night, &mut log, &mut [0u8; 7], &mut [0u8; 100]);
    assert_eq!(rt; log.written.as_slice(), &LOG[..60]);
    assert!(rt; last.failed);
}

// The line that is cut is not answered.
#[test]
fn torn_night(rt: HostRuntime) {
    let mut night = NIGHT[..40].chain(Torn);
    let mut log = blank(rt, 1000);
    let last = run(&rt, &mut night, &mut log, &mut [0u8; 7], &mut [0u8; 100]);
    assert_eq!(rt; log.written.as_slice(), &LOG[..79]);
    assert!(rt; last.failed);
}

// Too little room: nothing is read or written.
#[test]
fn small_output(rt: HostRuntime) {
    let mut night = NIGHT;
    let mut log = blank(rt, 1000);
    let last = run(&rt, &mut night, &mut log, &mut [0u8; 7], &mut [0u8; 99]);
    assert_eq!(rt; log.written.len(), 0);
    assert_eq!(rt; night.len(), NIGHT.len());
    assert!(rt; last.failed);
}
