//! What lasts from line to line.
ghost use Rattle.std.specs.Prelude.{◌≡◌, ◌≤◌, ℕ, List, IfOk, OnOk, length};
ghost use Rattle.std.specs.Option.{option_map};
ghost use Rattle.kx_rule_lines.specs.Lines.{Heading, Inclusion, inclusion, line_of, listing, ruled, sides, told, words_len};
ghost use Rattle.kx_rules.specs.Mappings.{mapping_of};
ghost use Rattle.kx_rules.specs.Matches.{members_of, with_group};
ghost use Rattle.kx_rules.specs.Names.{Names as NamesValue};
ghost use Rattle.kx_rules.specs.Rules.{State as StateValue, after, anew, at_first, has_rules, lines_of, rules_of, run, with_rule};
ghost use Rattle.kx_rules.specs.Steps.{IsCutAt, IsEntered, IsTaken};
ghost use Rattle.kx_rules.specs.declared.limits.TheConstants.{MOST_READ_BYTES};

use crate::columns::{Mapping, is_faulty, mapping_of};
use crate::components::Components;
use crate::limits::MOST_READ_BYTES;
use crate::matching::applies;
use crate::members::Groups;
use crate::names::Names;
use crate::passed::{Reason, Uses};
use crate::skipping::behind_rules;
use crate::texts::Texts;
use kx_rule_lines::{Kind, Piece, right_of, values_len, words_len};
use std::alloc::{AllocError, Global};
use std::marker::Model;

/// Which rules may stand in the next line.
#[derive(Drop)]
pub(crate) enum Rules {
    NoRules,
    PassedOver,
    Under(Mapping),
}

/// What a line leads to.
#[derive(Drop)]
pub(crate) enum Taken<'a> {
    /// It is taken.
    Next,
    /// It is an include, whose text is to be read.
    Inner(&'a [u8]),
    /// Something unexpected begins where so many bytes are left.
    Unexpected(usize),
}

impl<'a> Taken<'a> {
    /// A line that is cut or not.
    fn at(cut: Option<usize>) -> Taken<'a>
        ensures { IsCutAt cut result }
    {
        match cut {
            None => Taken::Next,
            Some(left) => Taken::Unexpected(left),
        }
    }
}

/// What has been read.
#[derive(Drop)]
pub(crate) struct State {
    rules: Rules,
    groups: Groups,
    components: Components,
    read: usize,
    is_full: bool,
    /// What was taken, and lines that were passed over.
    uses: Uses,
}

impl Model for State {
    ghost use Rattle.std.specs.Prelude.{◌≤◌};
    ghost use Rattle.kx_rules.specs.Rules.{State};

    ghost Value = { State };

    ghost view = { λ s. record { rules = s.rules; groups = s.groups; components = s.components; read = s.read; is_full = s.is_full; taken = s.uses } };

    ghost invariant = { λ s. s.read ≤ 4194304 };
}

fn rules_of(mapping: Option<Mapping>) -> Rules
    ensures { result ≡ rules_of mapping }
{
    match mapping {
        None => Rules::PassedOver,
        Some(mapping) => Rules::Under(mapping),
    }
}

impl State {
    /// Before a text of so many bytes.
    pub(crate) fn new(alloc: Global, read: usize) -> State
        requires { read ≤ MOST_READ_BYTES }
        ensures { result ≡ at_first read }
    {
        State {
            rules: Rules::NoRules,
            groups: Groups::new(alloc),
            components: Components::new(alloc),
            read,
            is_full: false,
            uses: Uses::new(alloc),
        }
    }

    pub(crate) fn is_full(&self) -> bool
        ensures { result ≡ self.now.is_full }
    {
        self.is_full
    }

    /// The components, and the groups and what was taken for them.
    pub(crate) fn into_parts(self) -> (Components, Groups, Uses)
        ensures { result ≡ (self.components, self.groups, self.taken) }
    {
        (self.components, self.groups, self.uses)
    }

    /// Whether the line that was taken last is noted, and not told yet.
    pub(crate) fn lacks_line(&self) -> bool {
        self.uses.lacks_line()
    }

    /// Tells the number of the line that was noted last.
    pub(crate) fn tell_line(&mut self, line: usize)
        ensures { self.new ≡ self.old }
    {
        self.uses.tell_line(line);
    }

    /// Which text is read.
    pub(crate) fn text(&self) -> usize {
        self.uses.text()
    }

    /// Begins an included text that is called so.
    pub(crate) fn name_text(&mut self, alloc: Global, line: &[Piece]) -> Result<(), AllocError>
        ensures { OnOk result (self.new ≡ self.old) }
    {
        match line.last() {
            None => Ok(()),
            Some(name) => self.uses.enter(alloc, name.text()),
        }
    }

    /// Goes back to a text.
    pub(crate) fn leave_to(&mut self, text: usize)
        ensures { self.new ≡ self.old }
    {
        self.uses.leave_to(text);
    }

    /// What is left of a text after rules that are passed over.
    pub(crate) fn behind_passed<'a>(&self, text: &'a [u8]) -> &'a [u8]
        ensures value { (names : NamesValue) → (inc : List ℕ → StateValue → StateValue)
            → run names inc self.now (lines_of result.now)
            ≡ run names inc self.now (lines_of text.entry.now) }
        ensures within { length result.now ≤ length text.entry.now }
    {
        match self.rules {
            Rules::PassedOver => behind_rules(text),
            Rules::NoRules => text,
            Rules::Under(_) => text,
        }
    }

    /// Whether a rule may stand here.
    fn has_rules(&self) -> bool
        ensures { result ≡ has_rules self.now.rules }
    {
        !matches!(self.rules, Rules::NoRules)
    }

    /// After a group or an include no rule may stand.
    pub(crate) fn begin(&mut self)
        ensures { self.new ≡ anew self.old }
    {
        self.rules = Rules::NoRules;
    }

    fn add_group(
        &mut self,
        alloc: Global,
        names: &Names,
        name: &[u8],
        words: &[Piece],
    ) -> Result<(), AllocError>
        ensures { OnOk result (self.new ≡ record (anew self.old) {
          groups = with_group self.old.groups name.now (members_of names.now words.now);
        }) }
    {
        self.groups.add(alloc, names, name, words)?;
        self.rules = Rules::NoRules;
        Ok(())
    }

    fn set_mapping(
        &mut self,
        alloc: Global,
        names: &Names,
        lefts: &[Piece],
        rights: &[Piece],
    ) -> Result<(), AllocError>
        ensures { OnOk result (self.new ≡ record self.old {
          rules = rules_of (mapping_of names.now lefts.now rights.now);
        }) }
    {
        let mapping = mapping_of(alloc, names, lefts, rights)?;
        self.rules = rules_of(mapping);
        let is_faulty = is_faulty(alloc, lefts, rights)?;
        self.uses.note(is_faulty, Reason::Mapping)
    }

    fn add_rule(
        &mut self,
        alloc: Global,
        names: &Names,
        lefts: &[Piece],
        rights: &[Piece],
    ) -> Result<(), AllocError>
        ensures { OnOk result (self.new
            ≡ with_rule names.now self.old.rules lefts.now rights.now self.old) }
    {
        let Rules::Under(mapping) = &self.rules else {
            return Ok(());
        };
        if !applies(names, &self.groups, mapping, lefts, rights) {
            let is_faulty = !mapping.has_sizes(lefts, rights);
            return self.uses.note(is_faulty, Reason::Rule);
        }
        let sections = mapping.sections.as_slice();
        let are_used = self.components.add_values(alloc, names, sections, rights)?;
        let columns = mapping.columns.as_slice();
        self.uses.take(names, &self.groups, columns, lefts, rights)?;
        self.uses.note(!are_used, Reason::Value)?;
        if !mapping.has_choice() {
            self.rules = Rules::PassedOver;
        }
        Ok(())
    }

    /// Takes the line of a group after its name; answers where it is cut.
    #[tactic(auto, unfolding(crate::specs::Rules::after))]
    fn take_group(
        &mut self,
        alloc: Global,
        names: &Names,
        name: &[u8],
        line: &[Piece],
    ) -> Result<Option<usize>, AllocError>
        ensures { (inc : List ℕ → StateValue → StateValue) → IfOk result (λ cut.
            after names.now inc self.old (listing name.now line.now) ≡ (self.new, cut)) }
    {
        let right = right_of(line);
        self.add_group(alloc, names, name, right.words)?;
        Ok(right.cut)
    }

    /// Takes a mapping after its sign !; answers where it is cut.
    #[tactic(auto, unfolding(crate::specs::Rules::after))]
    fn take_mapping(
        &mut self,
        alloc: Global,
        names: &Names,
        line: &[Piece],
    ) -> Result<Option<usize>, AllocError>
        ensures { (inc : List ℕ → StateValue → StateValue) → IfOk result (λ cut.
            after names.now inc self.old (sides Heading (words_len line.now) line.now)
            ≡ (self.new, cut)) }
    {
        let (lefts, behind) = line.split_at(words_len(line));
        let right = right_of(behind);
        match right.cut {
            None => {
                self.set_mapping(alloc, names, lefts, right.words)?;
                Ok(None)
            }
            Some(left) => Ok(Some(left)),
        }
    }

    /// Takes a rule, where one may stand; answers where it is cut.
    #[tactic(auto, unfolding(crate::specs::Rules::after))]
    fn take_rule(
        &mut self,
        alloc: Global,
        names: &Names,
        left: usize,
        line: &[Piece],
    ) -> Result<Option<usize>, AllocError>
        ensures { (inc : List ℕ → StateValue → StateValue) → IfOk result (λ cut.
            after names.now inc self.old (ruled (has_rules self.old.rules) left line.now)
            ≡ (self.new, cut)) }
    {
        if !self.has_rules() {
            return Ok(Some(left));
        }
        let (lefts, behind) = line.split_at(values_len(line));
        let right = right_of(behind);
        match right.cut {
            None => {
                self.add_rule(alloc, names, lefts, right.words)?;
                Ok(None)
            }
            Some(left) => Ok(Some(left)),
        }
    }

    /// Begins the text of an include, where it is found and there is room for it.
    fn enter<'a>(&mut self, texts: &'a Texts, name: &[u8]) -> Option<&'a [u8]>
        ensures { IsEntered texts.entry.now name.now self.old self.new
            (option_map (λ t. t.now) result) }
    {
        self.begin();
        let text = texts.text_of(name)?;
        if text.len() > MOST_READ_BYTES - self.read {
            self.is_full = true;
            return None;
        }
        self.read += text.len();
        Some(text)
    }

    /// Takes the name of an include.
    fn take_name<'a>(&mut self, texts: &'a Texts, depth: usize, name: &[u8]) -> Taken<'a>
        ensures { (names : NamesValue) → IsTaken names texts.entry.now depth
            (Inclusion name.now) self.old self.new result }
    {
        if depth == 0 {
            self.begin();
            return Taken::Next;
        }
        match self.enter(texts, name) {
            None => Taken::Next,
            Some(inner) => Taken::Inner(inner),
        }
    }

    /// Takes an include after this word.
    #[tactic(auto, unfolding(crate::specs::Rules::after))]
    fn take_include<'a>(&mut self, texts: &'a Texts, depth: usize, line: &[Piece]) -> Taken<'a>
        ensures { (names : NamesValue) → IsTaken names texts.entry.now depth
            (inclusion line.now) self.old self.new result }
    {
        match line {
            [] => Taken::Unexpected(0),
            [piece, ..] => match piece.kind() {
                Kind::Word => self.take_name(texts, depth, piece.text()),
                _ => Taken::Unexpected(piece.left()),
            },
        }
    }

    /// Takes a line after its sign !.
    #[tactic(auto, unfolding(crate::specs::Rules::after))]
    fn take_told<'a>(
        &mut self,
        alloc: Global,
        names: &Names,
        texts: &'a Texts,
        depth: usize,
        line: &[Piece],
    ) -> Result<Taken<'a>, AllocError>
        ensures { IfOk result (λ taken. IsTaken names.now texts.entry.now depth
            (told line.now) self.old self.new taken) }
    {
        let [piece, more @ ..] = line else {
            return Ok(Taken::Unexpected(0));
        };
        match piece.kind() {
            Kind::Include => Ok(self.take_include(texts, depth, more)),
            Kind::Group => Ok(Taken::at(self.take_group(alloc, names, piece.text(), more)?)),
            Kind::Word => Ok(Taken::at(self.take_mapping(alloc, names, line)?)),
            _ => Ok(Taken::Unexpected(piece.left())),
        }
    }

    /// Takes a line, where includes may be nested so deep.
    #[tactic(auto, unfolding(crate::specs::Rules::after, kx_rule_lines::specs::Lines::line_of))]
    pub(crate) fn take<'a>(
        &mut self,
        alloc: Global,
        names: &Names,
        texts: &'a Texts,
        depth: usize,
        line: &[Piece],
    ) -> Result<Taken<'a>, AllocError>
        ensures { IfOk result (λ taken. IsTaken names.now texts.entry.now depth
            (line_of (has_rules self.old.rules) line.now) self.old self.new taken) }
    {
        let [piece, more @ ..] = line else {
            return Ok(Taken::Next);
        };
        match piece.kind() {
            Kind::NewLine => Ok(Taken::Next),
            Kind::Bang => self.take_told(alloc, names, texts, depth, more),
            _ => Ok(Taken::at(self.take_rule(alloc, names, piece.left(), line)?)),
        }
    }
}
