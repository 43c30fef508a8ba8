//! Lines and columns.
use kx_tool::{Position, locate};

#[test]
fn bytes_stand_on_lines(rt: HostRuntime) {
    let text = b"ab\n\ncd";
    let rows = [
        (0usize, 1, 1),
        (2, 1, 3),
        (3, 2, 1),
        (4, 3, 1),
        (5, 3, 2),
        (6, 3, 3),
        (70, 3, 3),
    ];
    for (place, line, column) in &rows {
        assert!(rt;
            locate(text, *place)
                == Position {
                    line: *line,
                    column: *column
                },
            "at {place}"
        );
    }
}
