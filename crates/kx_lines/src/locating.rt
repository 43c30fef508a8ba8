//! Lines and columns of a text.
ghost use Rattle.std.specs.Prelude.{◌≡◌, ◌+◌, ◌≤◌, length, min, take};
ghost use Rattle.kx_lines.specs.Locating.{line_feeds, since_line_feed};

/// Where a byte of a text stands: its line, and its place among the line's bytes, both counted from 1.
#[derive(Clone, Copy, PartialEq, Eq)]
pub struct Position {
    pub line: usize,
    pub column: usize,
}

/// Where the byte at a place stands, or the end where the text is shorter. The place is counted from 0.
pub fn locate(text: &[u8], place: usize) -> Position
    ensures line { result.line ≡ line_feeds (take place text.now) + 1 }
    ensures column { result.column ≡ since_line_feed (take place text.now) + 1 }
{
    let before = &text[..place.min(text.len())];
    Position {
        line: line_feeds(before) + 1,
        column: since_line_feed(before) + 1,
    }
}

fn line_feeds(bytes: &[u8]) -> usize
    ensures value { result ≡ line_feeds bytes.now }
    ensures within { result ≤ length bytes.now }
{
    bytes.iter().filter(|byte| **byte == b'\n').count()
}

/// How many bytes stand after the last line feed.
fn since_line_feed(bytes: &[u8]) -> usize
    ensures value { result ≡ since_line_feed bytes.now }
    ensures within { result ≤ length bytes.now }
{
    bytes
        .iter()
        .rev()
        .take_while(|byte| **byte != b'\n')
        .count()
}
