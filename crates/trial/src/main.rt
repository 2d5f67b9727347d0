// The test program: a script on standard input, a call a line, and each line written back with its answer.
#![tactic(auto)]

use console::{Console, reply, without_end};
use std::io::{BufRead, BufReader, Write};

fn main(rt: HostRuntime) -> anyhow::Result<()> {
    let mut console: Console = None;
    let mut input = BufReader::new(rt.alloc(), rt.stdin())?;
    // Nothing says that an input ends, so its lines are counted, as std counts them.
    for _ in 0..u64::MAX {
        // A line's room goes with it, so that the longest does not stay to the end.
        let mut line = Vec::new(rt.alloc());
        if input.read_until(b'\n', &mut line)? == 0 {
            break;
        }
        let back = reply(rt.alloc(), &mut console, without_end(line.as_slice()))?;
        rt.write_all(back.as_slice())?;
        rt.write_all(b"\n")?;
    }
    Ok(())
}

#[cfg(test)]
mod tests {
    use console::read_answer;
    use std::alloc::{AllocError, Global};
    use std::test::Fail;

    // What so many bytes, all 0, are read as.
    fn zeros_read(alloc: Global, bytes: usize) -> Result<String, AllocError> {
        let zeros = vec![in alloc; 0u8; bytes]?;
        read_answer(alloc, zeros.as_slice())
    }

    // One byte too many, and as many as there may be.
    #[test]
    fn too_long_by_one(rt: HostRuntime) -> Result<(), Fail> {
        let text = zeros_read(rt.alloc(), 65537)?;
        assert_eq!(rt; text.as_str(), "bytes 11 65536");
        Ok(())
    }

    #[test]
    fn as_long_as_may_be(rt: HostRuntime) -> Result<(), Fail> {
        let text = zeros_read(rt.alloc(), 65536)?;
        assert_eq!(rt; text.as_str(), "file 13 0");
        Ok(())
    }
}
