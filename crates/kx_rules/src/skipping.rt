//! Rules that are passed over whatever they say.
ghost use Rattle.std.specs.Prelude.{◌≡◌, ◌≤◌, ◌<◌, ℕ, List, IfSome, length};
ghost use Rattle.kx_rule_lines.specs.Bytes.{begins_plain};
ghost use Rattle.kx_rule_lines.specs.Lines.{is_value, is_word};
ghost use Rattle.kx_rules.specs.Names.{Names as NamesValue};
ghost use Rattle.kx_rule_lines.specs.Pieces.{pieces};
ghost use Rattle.kx_rules.specs.Rules.{State as StateValue, lines_of, run};
ghost use Rattle.kx_rules.specs.Steps.{BeginsWith, IsBehind};
ghost use Rattle.kx_rule_lines.specs.declared.scan.Kind.TheVariants.{Equals as EqualsKind, NewLine as NewLineKind};
ghost use Rattle.kx_rules.specs.declared.state.Rules.TheVariants.{PassedOver};

use kx_rule_lines::{blank_len, is_word_byte, word_len};

/// Whether a byte begins a word wherever a piece begins with it.
fn begins_plain(byte: u8) -> bool
    ensures { result ≡ begins_plain byte }
{
    let is_sign = byte == b'!' || byte == b'=' || byte == b'*' || byte == b'$';
    is_word_byte(byte) && !(is_sign || byte == b'i' || byte == b'/')
}

/// What is left of a text after blanks.
#[tactic(auto, using(crate::proofs::PassedRules::behind_blanks))]
fn behind_blanks(text: &[u8]) -> &[u8]
    ensures same { pieces result.now 0 ≡ pieces text.now 0 }
    ensures within { length result.now ≤ length text.now }
{
    let (_, rest) = text.split_at(blank_len(text));
    rest
}

/// What is left after the word that a text begins with; none where it begins otherwise, and before some words.
#[tactic(auto, using(crate::proofs::PassedRules::plain_long))]
fn behind_word(text: &[u8]) -> Option<&[u8]>
    ensures value { IfSome result (λ rest.
        BeginsWith is_word (pieces text.now 0) (pieces rest.now 0)) }
    ensures shorter { IfSome result (λ rest. length rest.now < length text.now) }
{
    match text {
        [byte, ..] if begins_plain(*byte) => {
            let (_, rest) = text.split_at(word_len(text));
            Some(rest)
        }
        _ => None,
    }
}

/// The same of a value on the left of a rule.
#[tactic(auto, using(crate::proofs::PassedRules::word_value))]
fn behind_value(text: &[u8]) -> Option<&[u8]>
    ensures value { IfSome result (λ rest.
        BeginsWith is_value (pieces text.now 0) (pieces rest.now 0)) }
    ensures shorter { IfSome result (λ rest. length rest.now < length text.now) }
{
    match text {
        [] => None,
        [b'*', rest @ ..] => Some(rest),
        [b'$', name @ ..] => {
            let len = word_len(name);
            if len == 0 {
                return None;
            }
            let (_, rest) = name.split_at(len);
            Some(rest)
        }
        _ => behind_word(text),
    }
}

/// What is left after values and a sign =, where a text begins so.
fn behind_equals(text: &[u8]) -> Option<&[u8]>
    ensures value { IfSome result (λ rest.
        IsBehind is_value EqualsKind (pieces text.now 0) (pieces rest.now 0)) }
    ensures shorter { IfSome result (λ rest. length rest.now < length text.now) }
{
    let mut rest = text;
    'values: loop {
        let front = behind_blanks(rest);
        match front {
            [b'=', right @ ..] => return Some(right),
            _ => match behind_value(front) {
                None => return None,
                Some(behind) => rest = behind,
            },
        }
    }
}

/// What is left after words and a line end, where a text begins so.
fn behind_line_end(text: &[u8]) -> Option<&[u8]>
    ensures value { IfSome result (λ rest.
        IsBehind is_word NewLineKind (pieces text.now 0) (pieces rest.now 0)) }
    ensures shorter { IfSome result (λ rest. length rest.now < length text.now) }
{
    let mut rest = text;
    'words: loop {
        let front = behind_blanks(rest);
        match front {
            [b'\n', behind @ ..] => return Some(behind),
            _ => match behind_word(front) {
                None => return None,
                Some(behind) => rest = behind,
            },
        }
    }
}

/// What is left after a rule, where a text begins with one.
fn behind_rule(text: &[u8]) -> Option<&[u8]>
    ensures value { (names : NamesValue) → (inc : List ℕ → StateValue → StateValue)
        → (s : StateValue) → s.rules ≡ PassedOver → IfSome result (λ rest.
        run names inc s (lines_of rest.now) ≡ run names inc s (lines_of text.now)) }
    ensures shorter { IfSome result (λ rest. length rest.now < length text.now) }
{
    let right = behind_equals(text)?;
    behind_line_end(right)
}

/// What is left after the rules that a text begins with.
pub(crate) fn behind_rules(text: &[u8]) -> &[u8]
    ensures value { (names : NamesValue) → (inc : List ℕ → StateValue → StateValue)
        → (s : StateValue) → s.rules ≡ PassedOver
        → run names inc s (lines_of result.now) ≡ run names inc s (lines_of text.now) }
    ensures within { length result.now ≤ length text.now }
{
    let mut rest = text;
    'rules: loop {
        match behind_rule(rest) {
            None => return rest,
            Some(behind) => rest = behind,
        }
    }
}
