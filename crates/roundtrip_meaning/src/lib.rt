//! What a printed text means: what its bodies are, what its keycodes, types, indicators, names of groups and keys declare, and
//! that this resolves to what was seen in the tables.
#![tactic(auto)]

ghost use Rattle.ks_core.specs.Table.{KeysymTable};
ghost use Rattle.ks_core.specs.Lines.{is_sound};
ghost use Rattle.kx_builder.specs.Resolved.{ResolvedType};
ghost use Rattle.kx_builder.specs.Seen.{seen};
ghost use Rattle.kx_codes.specs.Codes.{Codes, code_of};
ghost use Rattle.kx_include.specs.Expansion.{Begin, End};
ghost use Rattle.kx_include.specs.Library.{Library};
ghost use Rattle.kx_include.specs.Texts.{IsLibrary};
ghost use Rattle.kx_include.specs.declared.place.Place.{Place as PlaceValue};
ghost use Rattle.kx_merge.specs.Bodies.{offers_of};
ghost use Rattle.kx_merge.specs.Offers.{value_of, width_of};
ghost use Rattle.kx_tree.specs.declared.tree.Stated.{Stated};
ghost use Rattle.kx_tree.specs.declared.tree.Tree.{Tree};
ghost use Rattle.kx_keys.specs.Given.{given_by};
ghost use Rattle.kx_keys.specs.Keys.{Keyed, resolved_of};
ghost use Rattle.kx_keys.specs.Selecting.{RealSet};
ghost use Rattle.kx_keys.specs.Typing.{Typing};
ghost use Rattle.kx_symbols.specs.Keys.{key_moves, key_rules};
ghost use Rattle.kx_tables.specs.Content.{Content};
ghost use Rattle.kx_tables.specs.Sound.{Sound};
ghost use Rattle.kx_types.specs.KeyTypes.{Definition};
ghost use Rattle.kx_types.specs.Types.{declared_type};
ghost use Rattle.kx_types.specs.declared.limits.TheConstants.{MOST_TYPES};
ghost use Rattle.roundtrip_meaning.specs.Bodies.{own_body};
ghost use Rattle.roundtrip_meaning.specs.Given.{IsGiven};
ghost use Rattle.roundtrip_meaning.specs.Resolving.{ReadAgain};
ghost use Rattle.roundtrip_meaning.specs.Sources.{library_of};
ghost use Rattle.roundtrip_meaning.specs.Types.{definition_seen};
ghost use Rattle.roundtrip_text.specs.ModifierMaps.{MapLine, maps_of_key};
ghost use Rattle.roundtrip_text.specs.Source.{AreApart, EachOf, TypeFits, AreRising, KeyFits, PrintedKey};
ghost use Rattle.roundtrip_tree.specs.Keys.{IsKey};
ghost use Rattle.roundtrip_tree.specs.Shows.{AreShown, IsStated, IsModifierMap};
ghost use Rattle.roundtrip_tree.specs.Source.{IsNameStated};
ghost use Rattle.roundtrip_tree.specs.Sources.{sections_of};
ghost use Rattle.roundtrip_tree.specs.Types.{IsType};
ghost use Rattle.std.specs.List.{flat_map, list_all};
ghost use Rattle.std.specs.Prelude.{◌≡◌, List, [], ℕ, Option, ◌++◌, true, Some, nat_eq, ◌≤◌, length};

/// Without files a tree of printed sections is these sections alone.
pub fn printed_sections_stand_alone()
    ensures { (keycodes types indicators symbols : List Stated) (tree : Tree) (library : Library)
        → tree ≡ record { sections = sections_of keycodes types indicators symbols }
        → IsLibrary tree [] library → library ≡ library_of keycodes types indicators symbols }
{}

/// The section of printed types declares each as it was printed.
pub fn printed_types_are_declared()
    ensures { (place : PlaceValue) (ts : List ResolvedType) (items : List Stated)
        → AreShown (λ t i. IsStated (IsType t) i) ts items → EachOf TypeFits ts
        → AreApart (λ (t : ResolvedType). t.name) ts → length ts ≤ MOST_TYPES
        → EachOf (λ (t : ResolvedType).
        declared_type [] (Begin (own_body place items End)) t.name ≡ Some (definition_seen t)) ts }
{}

/// A section of printed names of groups, keys and modifier maps gives each key what was printed of it.
pub fn printed_keys_are_given()
    ensures { (codes : Codes) (names : KeysymTable) (place : PlaceValue) (ks : List PrintedKey)
        (group_names keys maps : List Stated)
        → list_all is_sound names.names ≡ true → EachOf IsNameStated group_names
        → AreShown (λ (k : PrintedKey) i. IsStated (IsKey k) i) ks keys
        → AreShown (λ (l : MapLine) i. IsStated (IsModifierMap l.modifier l.name) i)
        (flat_map maps_of_key ks) maps
        → EachOf KeyFits ks → AreRising (λ (k : PrintedKey). k.code) 0 ks
        → EachOf (λ (k : PrintedKey). code_of codes k.name ≡ Some k.code) ks
        → EachOf (λ (k : PrintedKey). IsGiven k (given_by
        (value_of nat_eq (offers_of nat_eq (key_rules codes names []) key_moves
        (Begin (own_body place (group_names ++ (keys ++ maps)) End))) k.code)
        (width_of nat_eq (offers_of nat_eq (key_rules codes names []) key_moves
        (Begin (own_body place (group_names ++ (keys ++ maps)) End))) k.code))) ks }
{}

/// Types and keys that are read as they were printed resolve to those that are seen in the tables.
pub fn read_again_resolves_again()
    ensures { (c : Content) (real : ℕ → RealSet) (typing : Typing) (keyed : Keyed) → Sound c
        → ReadAgain c real typing keyed → resolved_of real typing keyed ≡ seen c }
{}
