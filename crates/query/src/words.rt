// The words of a line: runs of bytes parted by spaces and tabs.
ghost use Rattle.std.specs.Prelude.{◌≡◌};
ghost use Rattle.query.specs.Words.{Split, separates as parts};

fn separates(byte: u8) -> bool
    ensures { result ≡ parts byte }
{
    byte == b' ' || byte == b'\t'
}

// The first word of a line, and the line after it.
pub fn next_word(line: &[u8]) -> Option<(&[u8], &[u8])>
    ensures { Split line.now result }
{
    let start = line.iter().position(|b| !separates(*b))?;
    let line = &line[start..];
    let end = line
        .iter()
        .position(|b| separates(*b))
        .unwrap_or(line.len());
    Some(line.split_at(end))
}
