// Pieces that are written, and readers that are read, in turns: a byte a time, up to a call that takes nothing or fails.
use std::alloc::Global;
use std::io::{Error, ErrorKind, Read, Result as IoResult, Write};
use std::test::Fail;
use w2c_io::{ReadAnswer, WriteAnswer, read_whole, write_piece};

/// Takes a byte at each call. Behind so many it takes nothing, or fails.
#[derive(Drop)]
struct Sips {
    got: Vec<u8>,
    most: usize,
    then: Option<ErrorKind>,
}

impl Write for Sips {
    fn write(&mut self, buf: &[u8]) -> IoResult<usize> {
        let Some(byte) = buf.first() else {
            return Ok(0);
        };
        if self.got.len() < self.most {
            self.got.push(*byte)?;
            return Ok(1);
        }
        match self.then {
            Some(kind) => Err(Error::from(kind)),
            None => Ok(0),
        }
    }

    fn flush(&mut self) -> IoResult<()> {
        Ok(())
    }
}

/// Gives a byte of its text at each call. Behind so many it is at its end, or fails.
#[derive(Drop)]
struct Drips {
    given: usize,
    most: usize,
    then: Option<ErrorKind>,
}

impl Read for Drips {
    fn read(&mut self, buf: &mut [u8]) -> IoResult<usize> {
        let Some(place) = buf.first_mut() else {
            return Ok(0);
        };
        if self.given < self.most {
            *place = b'a';
            self.given = self.given.saturating_add(1);
            return Ok(1);
        }
        match self.then {
            Some(kind) => Err(Error::from(kind)),
            None => Ok(0),
        }
    }
}

// How many bytes of a piece of three are taken, and the answer.
fn written(alloc: Global, most: usize, then: Option<ErrorKind>) -> (usize, Option<WriteAnswer>) {
    let mut sips = Sips {
        got: Vec::new(alloc),
        most,
        then,
    };
    let answer = write_piece(&mut sips, b"abc").err();
    (sips.got.len(), answer)
}

// How many bytes are read with a limit of three, and the answer.
fn read(alloc: Global, most: usize, then: Option<ErrorKind>) -> (usize, Option<ReadAnswer>) {
    let mut drips = Drips {
        given: 0,
        most,
        then,
    };
    match read_whole(alloc, &mut drips, 3) {
        Ok(bytes) => (bytes.len(), None),
        Err(answer) => (drips.given, Some(answer)),
    }
}

#[test]
fn a_piece_is_written_in_turns(rt: HostRuntime) -> Result<(), Fail> {
    let alloc = rt.alloc();
    let answers = [
        written(alloc, 9, None),
        written(alloc, 2, None),
        written(alloc, 1, Some(ErrorKind::BrokenPipe)),
        written(alloc, 1, Some(ErrorKind::OutOfMemory)),
    ];
    let wanted = [
        (3, None),
        (2, Some(WriteAnswer::Failed)),
        (1, Some(WriteAnswer::Failed)),
        (1, Some(WriteAnswer::Memory)),
    ];
    assert!(rt; answers == wanted);
    Ok(())
}

#[test]
fn a_reader_is_read_in_turns(rt: HostRuntime) -> Result<(), Fail> {
    let alloc = rt.alloc();
    let answers = [
        read(alloc, 3, None),
        read(alloc, 4, None),
        read(alloc, 1, Some(ErrorKind::BrokenPipe)),
        read(alloc, 1, Some(ErrorKind::OutOfMemory)),
    ];
    let wanted = [
        (3, None),
        (4, Some(ReadAnswer::TooLong)),
        (1, Some(ReadAnswer::Failed)),
        (1, Some(ReadAnswer::Memory)),
    ];
    assert!(rt; answers == wanted);
    Ok(())
}
