// The first line that asks for something, from a reader that gives a byte at a time.
use super::Lines;
use std::io::{Error, Read, Result};
use text_lines::{Lists, Op};

// After its bytes it ends, or fails.
#[derive(Drop)]
struct Bytes<'a> {
    left: &'a [u8],
    fails: bool,
}

impl<'a> Read for Bytes<'a> {
    fn read(&mut self, buf: &mut [u8]) -> Result<usize> {
        if buf.is_empty() {
            return Ok(0);
        }
        match self.left.split_first() {
            Some((b, left)) => {
                buf[0] = *b;
                self.left = left;
                Ok(1)
            }
            None => {
                if self.fails {
                    return Err(Error::other("the reader fails"));
                }
                Ok(0)
            }
        }
    }
}

// What `first_op` finds: 0 where the read fails, 1 where there is no such line, 2 where the line inserts 7 and 8, else 3.
fn found(text: &[u8], fails: bool) -> u8 {
    let mut input = Bytes { left: text, fails };
    let mut lists = Lists::new();
    match Lines::new().first_op(&mut input, &mut lists) {
        Err(_) => 0,
        Ok(None) => 1,
        Ok(Some(Op::Insert(2))) if lists.numbers[0] == 7 && lists.numbers[1] == 8 => 2,
        Ok(Some(_)) => 3,
    }
}

#[test]
fn a_byte_at_a_time(rt: HostRuntime) {
    assert_eq!(rt;
        found(b"\n# a remark\r\n  insert 7 8\r\npin 0 1 2 3\n", false),
        2
    );
    assert_eq!(rt; found(b"insert 7 8", false), 2);
    assert_eq!(rt; found(b" \n# a remark", false), 1);
    assert_eq!(rt; found(b"insert 7 8 9\n", false), 3);
}

// What was read of the line is not taken for a line.
#[test]
fn a_read_that_fails(rt: HostRuntime) {
    assert_eq!(rt; found(b"# a remark\ninsert 7 8", true), 0);
    assert_eq!(rt; found(b"", true), 0);
    assert_eq!(rt; found(b"insert 7 8\npin", true), 2);
}
