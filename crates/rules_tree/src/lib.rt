//! What the source that is made of components says: four includes, and nothing else.
#![tactic(auto)]

ghost use Rattle.std.specs.Prelude.{◌≡◌, true, List};
ghost use Rattle.kx_lex.specs.Reading.{IsReading};
ghost use Rattle.kx_lex.specs.declared.token.Token.{Token};
ghost use Rattle.kx_tree.specs.Sections.{Spells};
ghost use Rattle.kx_tree.specs.declared.tree.Tree.{Tree};
ghost use Rattle.kx_rules.specs.Rules.{Components};
ghost use Rattle.kx_rules.specs.Sources.{are_writable, source_of};
ghost use Rattle.rules_tree.specs.Includes.{HasFourIncludes};

use kx_lex::one_reading;
use kx_parse::one_tree;

/// The source that is made of components has tokens and a tree; and whatever tree it has, that has four sections, of which each
/// includes its component and holds nothing else.
pub fn made_source_has_four_includes()
    ensures some { (c : Components) → are_writable c ≡ true → (tokens : List Token) × (tree : Tree)
        × IsReading (source_of c) tokens × Spells (source_of c) tokens tree }
    ensures only { (c : Components) (tokens : List Token) (tree : Tree) → are_writable c ≡ true
        → IsReading (source_of c) tokens → Spells (source_of c) tokens tree
        → HasFourIncludes c tree }
{
    one_reading();
    one_tree();
}
