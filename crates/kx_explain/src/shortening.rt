//! Tokens without those that have no part in what may stand after them.
use kx_lex::{Token, TokenKind};
use std::alloc::{AllocError, Global};

/// What is kept after an opening mark whose closing one isn't reached.
#[derive(Clone, Copy)]
struct Open {
    mark: u8,
    /// So many tokens are kept up to the mark.
    start: usize,
    /// So many are kept up to the first comma after it, where there is one.
    first: Option<usize>,
}

/// The tokens that are kept so far.
#[derive(Drop)]
struct Kept {
    tokens: Vec<Token>,
    open: Vec<Open>,
}

impl Kept {
    fn begin(&mut self, mark: u8) -> Result<(), AllocError> {
        let start = self.tokens.len();
        let first = None;
        Ok(self.open.push(Open { mark, start, first })?)
    }

    /// Closes what a mark opened, where it is the last that did.
    fn close(&mut self, mark: u8) {
        if let Some(open) = self.open.as_slice().last()
            && open.mark == mark
        {
            let _ = self.open.pop();
        }
    }

    /// Closes what a brace opened. Geometry may have other marks in it that aren't closed.
    fn close_brace(&mut self) {
        for _ in 0..self.open.len() {
            match self.open.pop() {
                Some(open) if open.mark != b'{' => {}
                _ => return,
            }
        }
    }

    /// A `;` ends a piece, and nothing of it is kept.
    fn end(&mut self) {
        if let Some(open) = self.open.last_mut() {
            open.first = None;
            self.tokens.truncate(open.start);
        }
    }

    /// A `,` stands after a piece, of which the first is kept.
    fn part(&mut self) {
        let count = self.tokens.len();
        if let Some(open) = self.open.last_mut() {
            match open.first {
                Some(first) => self.tokens.truncate(first),
                None => open.first = Some(count),
            }
        }
    }

    fn add(&mut self, token: Token) -> Result<(), AllocError> {
        self.tokens.push(token)?;
        let TokenKind::Mark(mark) = token.kind else {
            return Ok(());
        };
        match mark {
            b'{' | b'[' | b'(' => self.begin(mark)?,
            b'}' => self.close_brace(),
            b']' => self.close(b'['),
            b')' => self.close(b'('),
            b';' => self.end(),
            b',' => self.part(),
            _ => {}
        }
        Ok(())
    }
}

/// Tokens without the pieces that `;` ends, and of those that `,` parts with the first alone, in a file and between marks. What
/// stands between no marks is kept in a source.
pub(crate) fn shortened(
    alloc: Global,
    tokens: &[Token],
    is_file: bool,
) -> Result<Vec<Token>, AllocError> {
    let mut kept = Kept {
        tokens: Vec::new(alloc),
        open: Vec::new(alloc),
    };
    if is_file {
        kept.begin(b'{')?;
    }
    for token in tokens {
        kept.add(*token)?;
    }
    Ok(kept.tokens)
}
