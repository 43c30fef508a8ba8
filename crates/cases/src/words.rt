//! What a case gives where a line with some word tells it.
use crate::case::Case;
use crate::trouble::Trouble;
use crate::{parts, rules, shown};
use std::alloc::Global;

/// What a word asks of a whole keymap, of the parts of compiling, or of rules; nothing where it is no word of these. Of what is
/// wanted stand there the words that say what to show.
pub fn shown(
    alloc: Global,
    case: &Case,
    word: &str,
    wanted: &str,
) -> Result<Option<String>, Trouble> {
    if let Some(found) = shown::of_keymap(alloc, case, word, wanted)? {
        return Ok(Some(found));
    }
    if let Some(found) = parts::shown(alloc, case, word, wanted)? {
        return Ok(Some(found));
    }
    rules::shown(alloc, case, word, wanted)
}
