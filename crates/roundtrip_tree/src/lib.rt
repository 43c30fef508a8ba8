//! What the tokens of a printed text are spelled as.
#![tactic(auto)]

ghost use Rattle.std.specs.Prelude.{ℕ, List, []};
ghost use Rattle.kx_builder.specs.IndicatorMaps.{ResolvedIndicator};
ghost use Rattle.kx_builder.specs.Resolved.{ResolvedType};
ghost use Rattle.kx_lex.specs.declared.token.Token.{Token};
ghost use Rattle.kx_tree.specs.Sections.{Spells};
ghost use Rattle.kx_tree.specs.declared.tree.Tree.{Tree};
ghost use Rattle.roundtrip_text.specs.Slices.{Begins};
ghost use Rattle.roundtrip_text.specs.Source.{EachOf, IndicatorFits, KeyFits, NamesFit, PrintedKey, TypeFits};
ghost use Rattle.roundtrip_text.specs.Sections.{source_slices};
ghost use Rattle.roundtrip_tree.specs.Sources.{ShowsSource};

/// The tokens of a printed text spell a tree that shows what was printed.
pub fn printed_tokens_are_a_tree()
    ensures { (text : List ℕ) (ks : List PrintedKey) (ts : List ResolvedType)
        (ds : List ResolvedIndicator) (gs : List (List ℕ)) (tokens : List Token)
        → EachOf KeyFits ks → EachOf TypeFits ts → EachOf IndicatorFits ds → NamesFit gs
        → Begins text (source_slices ks ts ds gs) tokens []
        → (tree : Tree) × Spells text tokens tree × ShowsSource ks ts ds gs tree }
{}
