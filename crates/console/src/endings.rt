// The end of a line.
ghost use Rattle.std.specs.Prelude.{◌≡◌};
ghost use Rattle.std.specs.Io.BufRead.{strip_last};
ghost use Rattle.console.specs.Endings.{without_end};

// Without the last byte, if that is `byte`.
fn without_last(bytes: &[u8], byte: u8) -> &[u8]
    ensures { result.now ≡ strip_last byte bytes.now }
{
    match bytes {
        [front @ .., last] if *last == byte => front,
        _ => bytes,
    }
}

/// A line without its end, `\n` or `\r\n`: what std's `lines` cuts off, but of any bytes.
pub fn without_end(line: &[u8]) -> &[u8]
    ensures { result.now ≡ without_end line.now }
{
    match line {
        [front @ .., b'\n'] => without_last(front, b'\r'),
        _ => line,
    }
}
