//! What is passed over, so that a program can warn of it. Of lines that are passed over no clause speaks.
ghost use Rattle.std.specs.Prelude.{◌≡◌, ◌++◌, IfOk, OnOk, []};
ghost use Rattle.kx_rules.specs.Uses.{IsLeft, uses_of};

use crate::columns::{Column, Field};
use crate::marks::{is_model_left, items_left, options_left};
use crate::members::Groups;
use crate::names::Names;
use crate::uses::{Use, left_uses, push_all_written};
use kx_rule_lines::Piece;
use std::alloc::{AllocError, Global};
use std::marker::Model;

/// Why a line is passed over.
#[derive(Clone, Copy, PartialEq, Eq)]
pub enum Reason {
    /// A mapping has an unknown word or one twice, or no component on its right side; its rules are passed over too.
    Mapping,
    /// A rule has more or fewer values than its mapping.
    Rule,
    /// A value of a rule that applies has a faulty placeholder, and isn't used.
    Value,
}

/// A line that is faulty and passed over.
#[derive(Clone, Copy)]
pub struct PassedLine {
    /// 0 for the rules text itself, else the place from 1 on of its name among `Passed::texts`.
    pub text: usize,
    /// The line's number, counted from 1.
    pub line: usize,
    pub reason: Reason,
}

/// What no rule takes, and lines that are faulty and passed over. A name is taken where a rule that applies has a value for
/// it on its left side, or writes it on its right side. Names without bytes are never told.
#[derive(Drop)]
pub struct Passed {
    /// Whether the model is passed over.
    pub model: bool,
    /// The places of layouts, counted from 0.
    pub layouts: Vec<usize>,
    /// The places of variants, counted from 0.
    pub variants: Vec<usize>,
    /// The options themselves, each once.
    pub options: Vec<Vec<u8>>,
    /// The names of included texts in the order in which they were read.
    pub texts: Vec<Vec<u8>>,
    pub lines: Vec<PassedLine>,
}

/// What was taken and passed over so far. Seen as what was taken.
#[derive(Drop)]
pub(crate) struct Uses {
    taken: Vec<Use>,
    texts: Vec<Vec<u8>>,
    lines: Vec<PassedLine>,
    text: usize,
    /// Whether the last line has no number yet.
    lacks_line: bool,
}

impl Model for Uses {
    ghost use Rattle.std.specs.Prelude.{List};
    ghost use Rattle.kx_rules.specs.declared.uses.Use.{Use};

    ghost Value = { List Use };

    ghost view = { λ u. u.taken.items };
}

impl Uses {
    pub(crate) fn new(alloc: Global) -> Uses
        ensures { result ≡ [] }
    {
        Uses {
            taken: Vec::new(alloc),
            texts: Vec::new(alloc),
            lines: Vec::new(alloc),
            text: 0,
            lacks_line: false,
        }
    }

    pub(crate) fn lacks_line(&self) -> bool {
        self.lacks_line
    }

    /// Tells the number of the last line.
    pub(crate) fn tell_line(&mut self, line: usize)
        ensures { self.new ≡ self.old }
    {
        if let Some(last) = self.lines.last_mut() {
            last.line = line;
        }
        self.lacks_line = false;
    }

    /// Begins an included text.
    pub(crate) fn enter(&mut self, alloc: Global, name: &[u8]) -> Result<(), AllocError>
        ensures { self.new ≡ self.old }
    {
        self.texts.push(Vec::from_slice(alloc, name)?)?;
        self.text = self.texts.len();
        Ok(())
    }

    pub(crate) fn text(&self) -> usize {
        self.text
    }

    /// Goes back to a text.
    pub(crate) fn leave_to(&mut self, text: usize)
        ensures { self.new ≡ self.old }
    {
        self.text = text;
    }

    /// Notes the line that is read, if it is faulty; its number is told later, since few are.
    pub(crate) fn note(&mut self, is_faulty: bool, reason: Reason) -> Result<(), AllocError>
        ensures { self.new ≡ self.old }
    {
        if is_faulty {
            self.lines.push(PassedLine {
                text: self.text,
                line: 0,
                reason,
            })?;
            self.lacks_line = true;
        }
        Ok(())
    }

    /// Adds what a rule takes that applies.
    #[tactic(auto, unfolding(crate::specs::Uses::uses_of))]
    pub(crate) fn take(
        &mut self,
        names: &Names,
        groups: &Groups,
        columns: &[Column],
        lefts: &[Piece],
        rights: &[Piece],
    ) -> Result<(), AllocError>
        ensures { OnOk result (self.new ≡ self.old
            ++ uses_of names.now groups.now columns.now lefts.now rights.now) }
    {
        let alloc = *self.taken.allocator();
        let found = left_uses(alloc, names, groups, columns, lefts)?;
        self.taken.extend_from_slice(found.as_slice())?;
        push_all_written(&mut self.taken, names, rights)
    }

    /// What is passed over in the end.
    pub(crate) fn passed(
        self,
        alloc: Global,
        names: &Names,
        groups: &Groups,
    ) -> Result<Passed, AllocError>
        ensures { IfOk result (λ passed. IsLeft names.now groups.now self passed) }
    {
        let uses = self.taken.as_slice();
        let model = is_model_left(alloc, groups, uses, names)?;
        let layouts = items_left(alloc, groups, uses, Field::Layout, names.layouts())?;
        let variants = items_left(alloc, groups, uses, Field::Variant, names.variants())?;
        let options = options_left(alloc, groups, uses, names)?;
        Ok(Passed {
            model,
            layouts,
            variants,
            options,
            texts: self.texts,
            lines: self.lines,
        })
    }
}
