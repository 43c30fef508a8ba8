//! Tables as they are built within the limits.
ghost use Rattle.std.specs.Prelude.{◌≡◌};
ghost use Rattle.kx_builder.specs.declared.fault.BuildFault.TheVariants as builds;
ghost use Rattle.kx_lex.specs.declared.fault.Fault.TheVariants.{Memory};

use ks_core::{Note, Notes};
use kx_builder::{BuildFault, Builder, Indicator};
use kx_lex::Fault;
use kx_mods::Mods;
use kx_tables::{Action, EntryRow, Range, RawTables};
use std::alloc::Global;
use std::marker::Model;

/// Tables as they are built, with so little in them that only memory is refused, and what is passed over at that.
#[derive(Drop)]
pub(crate) struct TablesBuilder {
    builder: Builder,
    notes: Notes,
}

impl Model for TablesBuilder {
    ghost use Rattle.kx_builder.specs.Resolved.{Resolved};
    ghost use Rattle.kx_builder.specs.WithinLimits.{IsWithinLimits};

    ghost Value = { Resolved };

    ghost view = { λ b. b.builder };

    ghost invariant = { λ b. IsWithinLimits b.builder };
}

/// The refusal of what has its place and whose numbers fit.
fn refused(fault: BuildFault) -> Fault
    requires { fault ≡ builds.Memory }
    ensures { result ≡ Memory }
{
    match fault {
        BuildFault::Memory => Fault::Memory,
        BuildFault::TooMany | BuildFault::Misplaced => unreachable!(),
    }
}

impl TablesBuilder {
    ghost use Rattle.std.specs.Prelude.{◌≡◌, ◌<◌, ◌≤◌, [], IfErr, IfOk, OnOk, length, map};
    ghost use Rattle.kx_basics.specs.declared.limits.TheConstants.{CODES, MOST_GROUPS, MOST_KEYSYMS, MOST_LEVELS, MOST_NAME_BYTES};
    ghost use Rattle.kx_builder.specs.Agreement.{ShowsSame};
    ghost use Rattle.kx_builder.specs.IndicatorMaps.{IndicatorMapsAreValid, indicator_of, keymap_with, with_indicator_maps};
    ghost use Rattle.kx_builder.specs.Placed.{content_of_resolved};
    ghost use Rattle.kx_builder.specs.Pushes.{last_groups, with_cell, with_group, with_key, with_type};
    ghost use Rattle.kx_builder.specs.Resolved.{keymap_of_resolved, nothing_resolved};
    ghost use Rattle.kx_builder.specs.Valid.{IsValid};
    ghost use Rattle.kx_builder.specs.Whole.{IsWhole};
    ghost use Rattle.kx_builder.specs.WithinLimits.{TypeIsWithinLimits};
    ghost use Rattle.kx_lex.specs.declared.fault.Fault.TheVariants.{Memory};
    ghost use Rattle.kx_resolve.specs.Bare.{bare_group, bare_key, whole_type};
    ghost use Rattle.kx_keys.specs.Bounds.{last_cells};
    ghost use Rattle.kx_tables.specs.Keymap.{keymap_of};
    ghost use Rattle.kx_tables.specs.RawTables.{content_of};
    ghost use Rattle.kx_tables.specs.Sound.{Sound};
    ghost use Rattle.kx_types.specs.declared.limits.TheConstants.{MOST_TYPES};

    /// Tables without types and keys.
    pub(crate) fn new(alloc: Global) -> TablesBuilder
        ensures { result ≡ nothing_resolved }
    {
        TablesBuilder {
            builder: Builder::new(alloc),
            notes: Notes::new(),
        }
    }

    /// Counts what is passed over.
    pub(crate) fn note(&mut self, note: Note)
        ensures { self.new ≡ self.old }
    {
        self.notes.count(note);
    }

    /// Appends a type, before there are keys.
    #[tactic(auto, using(crate::proofs::Small::type_refused))]
    pub(crate) fn push_type(
        &mut self,
        name: &[u8],
        mods: Mods,
        levels: u8,
        entries: &[EntryRow],
    ) -> Result<(), Fault>
        requires keyless { self.old.keys ≡ [] }
        requires few { length self.old.types ≤ MOST_TYPES }
        requires within { TypeIsWithinLimits (whole_type name.now mods levels entries.now) }
        ensures pushed { OnOk result (self.new
            ≡ with_type self.old (whole_type name.now mods levels entries.now)) }
        ensures err { IfErr result (λ e. e ≡ Memory) }
    {
        if let Err(fault) = self.builder.push_type(name, mods, levels, entries) {
            return Err(refused(fault));
        }
        Ok(())
    }

    /// Appends a key without groups.
    #[tactic(auto, using(crate::proofs::Small::key_refused))]
    pub(crate) fn push_key(
        &mut self,
        code: u16,
        name: &[u8],
        modmap: Mods,
        range: Range,
    ) -> Result<(), Fault>
        requires few { length self.old.keys < CODES }
        requires short { length name.now ≤ MOST_NAME_BYTES }
        ensures pushed { OnOk result (self.new
            ≡ with_key self.old (bare_key code name.now modmap range)) }
        ensures err { IfErr result (λ e. e ≡ Memory) }
    {
        if let Err(fault) = self.builder.push_key(code, name, modmap, range) {
            return Err(refused(fault));
        }
        Ok(())
    }

    /// Appends a group without levels to the last key.
    #[tactic(auto, using(crate::proofs::Small::group_refused))]
    pub(crate) fn push_group(&mut self, key_type: u16) -> Result<(), Fault>
        requires some { 0 < length self.old.keys }
        requires few { length (last_groups self.old.keys) < MOST_GROUPS }
        ensures pushed { OnOk result (self.new ≡ with_group self.old (bare_group key_type)) }
        ensures err { IfErr result (λ e. e ≡ Memory) }
    {
        if let Err(fault) = self.builder.push_group(key_type) {
            return Err(refused(fault));
        }
        Ok(())
    }

    /// Appends a level to the last group of the last key.
    #[tactic(auto, using(crate::proofs::Small::cell_refused))]
    pub(crate) fn push_level(&mut self, keysyms: &[u32], action: Action) -> Result<(), Fault>
        requires some { 0 < length (last_groups self.old.keys) }
        requires few { length (last_cells self.old.keys) < MOST_LEVELS }
        requires short { length keysyms.now ≤ MOST_KEYSYMS }
        ensures pushed { OnOk result (self.new
            ≡ with_cell self.old (record { syms = keysyms.now; action = action })) }
        ensures err { IfErr result (λ e. e ≡ Memory) }
    {
        if let Err(fault) = self.builder.push_cell(keysyms, action) {
            return Err(refused(fault));
        }
        Ok(())
    }

    /// The tables, with these indicators and names of groups, and what was passed over.
    #[tactic(auto, using(crate::proofs::IndicatorMaps::indicator_maps_refused))]
    pub(crate) fn with_indicator_maps(
        self,
        lit: &[Indicator<'_>],
        names: &[&[u8]],
    ) -> Result<(RawTables, Notes), Fault>
        requires valid { IndicatorMapsAreValid (map indicator_of lit.now)
            (map (λ g. g.now) names.now) }
        ensures content { IfOk result (λ made.
            content_of made.0 ≡ with_indicator_maps (content_of_resolved self)
            (map indicator_of lit.now) (map (λ g. g.now) names.now)) }
        ensures agrees { IsWhole self → IfOk result (λ made.
            ShowsSame (keymap_of (content_of made.0))
            (keymap_with (keymap_of_resolved self) (map indicator_of lit.now))) }
        ensures sound { IsValid self → IfOk result (λ made. Sound (content_of made.0)) }
        ensures err { IfErr result (λ e. e ≡ Memory) }
    {
        match self.builder.with_indicator_maps(lit, names) {
            Ok(tables) => Ok((tables, self.notes)),
            Err(fault) => Err(refused(fault)),
        }
    }
}
