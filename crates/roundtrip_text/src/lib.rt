//! How a printed text is read: texts that are put together of phrases, what sound tables hold, and the tokens of their text.
#![tactic(auto)]

ghost use Rattle.kx_builder.specs.IndicatorMaps.{with_indicator_maps};
ghost use Rattle.kx_builder.specs.Placed.{content_of_resolved};
ghost use Rattle.kx_builder.specs.Seen.{seen};
ghost use Rattle.kx_lex.specs.Reading.{IsReading, mark_len};
ghost use Rattle.kx_lex.specs.declared.token.Token.{Token};
ghost use Rattle.kx_print.specs.Printed.{printed};
ghost use Rattle.kx_tables.specs.Content.{Content};
ghost use Rattle.kx_tables.specs.Sound.{Sound};
ghost use Rattle.roundtrip_text.specs.Sections.{printed_slices};
ghost use Rattle.roundtrip_text.specs.Slices.{Begins, Lexes, Slice};
ghost use Rattle.roundtrip_text.specs.Source.{indicators_printed, names_printed};
ghost use Rattle.std.specs.Prelude.{◌≡◌, ℕ, List, []};

/// A text that is read as some tokens, without their places, has a token reading, which these are.
pub fn phrases_are_read()
    ensures { (text : List ℕ) (slices : List Slice) → Lexes text slices → mark_len text ≡ 0
        → (tokens : List Token) × IsReading text tokens × Begins text slices tokens [] }
{}

/// The types, keys, indicators and names of groups that are seen in sound tables make these tables.
pub fn seen_tables_are_themselves()
    ensures { (c : Content) → Sound c
        → with_indicator_maps (content_of_resolved (seen c)) (indicators_printed c)
        (names_printed c) ≡ c }
{}

/// The text of sound tables is read as its tokens.
pub fn printed_text_is_read()
    ensures { (c : Content) → Sound c → Lexes (printed c) (printed_slices c) }
{}
