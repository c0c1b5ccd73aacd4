// Readers that end before the buffer is full and after it, and one that gives a byte a read and fails between.
use super::read_full;
use std::io;
use std::io::{ErrorKind, Read};
use std::test::Fail;

// Gives its bytes one by one; a 0 stands for a read that a signal interrupts, a 255 for one that fails.
#[derive(Drop)]
struct Bytewise<'a>(&'a [u8]);

impl Read for Bytewise<'_> {
    fn read(&mut self, buffer: &mut [u8]) -> io::Result<usize> {
        if buffer.is_empty() {
            return Ok(0);
        }
        match self.0.split_first() {
            None => Ok(0),
            Some((first, rest)) => {
                self.0 = rest;
                match *first {
                    0 => Err(io::Error::from(ErrorKind::Interrupted)),
                    255 => Err(io::Error::from(ErrorKind::PermissionDenied)),
                    byte => {
                        buffer[0] = byte;
                        Ok(1)
                    }
                }
            }
        }
    }
}

#[test]
fn the_input_ends_first(rt: HostRuntime) -> Result<(), Fail> {
    let mut reader: &[u8] = b"abc";
    let mut buffer = [0u8; 5];
    assert_eq!(rt; read_full(&mut reader, &mut buffer)?, 3);
    assert_eq!(rt; buffer, [97, 98, 99, 0, 0]);
    Ok(())
}

#[test]
fn the_buffer_is_full_first(rt: HostRuntime) -> Result<(), Fail> {
    let mut reader: &[u8] = b"abcdef";
    let mut buffer = [0u8; 4];
    assert_eq!(rt; read_full(&mut reader, &mut buffer)?, 4);
    assert_eq!(rt; buffer, [97, 98, 99, 100]);
    assert_eq!(rt; reader, b"ef".as_slice());
    Ok(())
}

#[test]
fn short_and_interrupted_reads_are_joined(rt: HostRuntime) -> Result<(), Fail> {
    let mut reader = Bytewise(b"\0ab\0\0c\0");
    let mut buffer = [0u8; 5];
    assert_eq!(rt; read_full(&mut reader, &mut buffer)?, 3);
    assert_eq!(rt; buffer, [97, 98, 99, 0, 0]);
    Ok(())
}

#[test]
fn a_failed_read_is_the_answer(rt: HostRuntime) {
    let mut reader = Bytewise(b"ab\xffcd");
    let mut buffer = [0u8; 4];
    let answer = read_full(&mut reader, &mut buffer);
    assert_eq!(rt;
        answer.map_err(|e| e.kind()),
        Err(ErrorKind::PermissionDenied)
    );
}
