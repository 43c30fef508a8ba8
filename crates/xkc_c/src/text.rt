//! What needs no handle.
ghost use Rattle.std.specs.Prelude.{◌≡◌, ◌+◌, take};
ghost use Rattle.kx_lines.specs.Locating.{line_feeds, since_line_feed};

use kx_calls::text::XkcPosition;
use kx_tool::locate;

/// Where the byte at a place stands, or the end where the text is shorter. The place is counted from 0.
#[unsafe(no_mangle)]
pub extern "C" fn xkc_locate(text: &[u8], place: usize, position: &mut XkcPosition)
    ensures line { position.new.line ≡ line_feeds (take place text.now) + 1 }
    ensures column { position.new.column ≡ since_line_feed (take place text.now) + 1 }
{
    let found = locate(text, place);
    *position = XkcPosition {
        line: found.line,
        column: found.column,
    };
}

/// The library's version: 65,536 times the first number, 256 times the second, and the third.
#[unsafe(no_mangle)]
pub extern "C" fn xkc_version() -> u32
    ensures { result ≡ 65536 }
{
    0x0001_0000
}
