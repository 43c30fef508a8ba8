//! What is passed over in the groups of keys.
use crate::kind::WarningKind;
use crate::levels::{Reached, reached_levels};
use crate::names::near_type;
use crate::statements::Reader;
use crate::switching::groups_in_use;
use kx_explain::quoted;
use kx_lex::At;
use kx_resolve::{GroupType, Typing, content_group, group_count, group_type};
use kx_symbols::KeyRecord;
use std::alloc::{AllocError, Global};
use std::fmt;

/// X11 has so many groups; its keyboards leave the others out.
const X11_GROUPS: usize = 4;

/// A key has so many groups at most.
const MOST_GROUPS: usize = 32;

/// The type that is written for a group.
fn written_type(key: &KeyRecord, group: usize) -> Option<&[u8]> {
    let settings = key.settings();
    match settings.group_type(group) {
        Some(name) => Some(name),
        None => settings.key_type(),
    }
}

/// The first group after those of a key for which a type is written, where the key has groups.
fn stray_type(key: &KeyRecord, count: usize) -> Option<usize> {
    if count == 0 {
        return None;
    }
    (count..MOST_GROUPS).find(|group| key.settings().group_type(*group).is_some())
}

/// A group of a key, by its number from 1, as a person names it.
#[derive(Clone, Copy)]
struct GroupOf<'k> {
    number: usize,
    key: &'k str,
}

impl fmt::Display for GroupOf<'_> {
    fn fmt<W: fmt::Write>(&self, f: &mut fmt::Formatter<W>) -> fmt::Result {
        let number = self.number;
        let key = self.key;
        write!(f, "group {number} of <{key}>")
    }
}

/// A group, the record that gives its content, and where it is told.
#[derive(Clone, Copy)]
struct Group<'k> {
    name: GroupOf<'k>,
    key: &'k KeyRecord,
    /// The group from which it takes its content.
    content: usize,
    at: At,
}

impl Group<'_> {
    /// Whether a level has keysyms or an action.
    fn has_level(&self, level: usize) -> bool {
        self.key.keysyms(self.content, level).is_some()
            || self.key.action(self.content, level).is_some()
    }

    fn width(&self) -> usize {
        self.key.width(self.content)
    }

    /// Whether it has keysyms or an action after the levels of its type.
    fn loses_levels(&self, levels: usize) -> bool {
        (levels..self.width()).any(|level| self.has_level(level))
    }

    /// The first level within its type that has something, and to which no modifiers lead, from 0.
    fn unreached_level(&self, levels: usize, reached: &Reached) -> Option<usize> {
        (1..levels.min(self.width())).find(|level| {
            self.has_level(*level) && !reached.get(*level).copied().unwrap_or(true)
        })
    }
}

/// A key, by its name, and where it is told.
#[derive(Clone, Copy)]
struct NamedKey<'k> {
    name: &'k str,
    record: &'k KeyRecord,
    at: At,
}

impl Reader<'_, '_, '_> {
    /// Notes that no type has the name that is written for a group.
    fn note_unknown_type(&mut self, group: Group, word: &[u8]) -> Result<(), AllocError> {
        let near = if self.seeks_type(group.at.file) {
            near_type(self.read.types, word)
        } else {
            None
        };
        let kind = WarningKind::Types;
        let name = quoted(word);
        let of = group.name;
        match near.map(quoted) {
            Some(near) => {
                let message = format_args!(
                    "{of} has the type ONE_LEVEL, since no type {name} is declared; {near} is"
                );
                self.warnings.add(kind, group.at, message)
            }
            None => {
                let message = format_args!(
                    "{of} has the type ONE_LEVEL, since no type {name} is declared"
                );
                self.warnings.add(kind, group.at, message)
            }
        }
    }

    /// Notes that a group has the type ONE_LEVEL in place of another.
    fn note_type(&mut self, group: Group) -> Result<(), AllocError> {
        let kind = WarningKind::Types;
        let width = group.width();
        let of = group.name;
        match written_type(group.key, group.content) {
            Some(word) => self.note_unknown_type(group, word),
            None if width > 4 => {
                let message = format_args!(
                    "{of} has the type ONE_LEVEL, since none is written for its {width} levels"
                );
                self.warnings.add(kind, group.at, message)
            }
            None => {
                let message = format_args!(
                    "{of} has the type ONE_LEVEL, since the type for its {width} levels isn't declared"
                );
                self.warnings.add(kind, group.at, message)
            }
        }
    }

    /// Notes that a group has levels after those of its type.
    fn note_lost_levels(&mut self, group: Group, found: GroupType) -> Result<(), AllocError> {
        let of = group.name;
        let width = group.width();
        let name = quoted(found.name);
        let levels = found.levels;
        let message = format_args!(
            "{of} has {width} levels, and its type {name} has {levels}: the others are lost"
        );
        self.warnings.add(WarningKind::Levels, group.at, message)
    }

    /// Notes that no modifiers lead to a level of a group.
    fn note_unreached(
        &mut self,
        group: Group,
        found: GroupType,
        reached: &[Reached],
    ) -> Result<(), AllocError> {
        if found.levels < 2 || group.width() < 2 {
            return Ok(());
        }
        let Some(place) = self.read.types.index_of(found.name) else {
            return Ok(());
        };
        let Some(level) = reached
            .get(place)
            .and_then(|reached| group.unreached_level(found.levels, reached))
        else {
            return Ok(());
        };
        let of = group.name;
        let level = level.saturating_add(1);
        let name = quoted(found.name);
        let message = format_args!(
            "nothing leads to level {level} of {of}: its type {name} maps none to it"
        );
        self.warnings.add(WarningKind::Unreached, group.at, message)
    }

    /// Notes what is passed over in a group of a key.
    fn note_group(&mut self, group: Group, reached: &[Reached]) -> Result<(), AllocError> {
        let typing = Typing {
            types: self.read.types,
            letters: self.read.names.letters(),
        };
        let found = group_type(typing, group.key, group.content);
        if found.falls_back {
            self.note_type(group)?;
        }
        if group.loses_levels(found.levels) {
            self.note_lost_levels(group, found)?;
        }
        self.note_unreached(group, found, reached)
    }

    /// Notes groups of a key to which nothing leads, or that X11 doesn't have.
    fn note_group_count(
        &mut self,
        key: NamedKey,
        count: usize,
        used: usize,
    ) -> Result<(), AllocError> {
        let kind = WarningKind::Groups;
        let at = key.at;
        let key = key.name;
        if count > used {
            let number = used.saturating_add(1);
            let message = format_args!(
                "nothing leads to group {number} of <{key}>: no key changes the group, and no name[{number}] is given; levels of one group stand in one list, as [a, A]"
            );
            self.warnings.add(kind, at, message)
        } else if count > X11_GROUPS {
            let message = format_args!("group 5 of <{key}> is one more than X11 has");
            self.warnings.add(kind, at, message)
        } else {
            Ok(())
        }
    }

    /// Notes that a type is written for a group that the key doesn't have.
    fn note_stray_type(&mut self, key: NamedKey, count: usize) -> Result<(), AllocError> {
        let Some(group) = stray_type(key.record, count) else {
            return Ok(());
        };
        let number = group.saturating_add(1);
        let name = key.name;
        let message = format_args!("type[{number}] is for a group that <{name}> doesn't have");
        self.warnings.add(WarningKind::Groups, key.at, message)
    }

    /// Notes what is passed over in the groups of a key.
    fn note_key_groups(
        &mut self,
        key: NamedKey,
        used: usize,
        reached: &[Reached],
    ) -> Result<(), AllocError> {
        let count = group_count(key.record);
        for group in 0..count {
            let group = Group {
                name: GroupOf {
                    number: group.saturating_add(1),
                    key: key.name,
                },
                key: key.record,
                content: content_group(key.record, group),
                at: key.at,
            };
            self.note_group(group, reached)?;
        }
        self.note_group_count(key, count, used)?;
        self.note_stray_type(key, count)
    }

    /// Notes what is passed over in the groups of keys.
    pub(crate) fn note_keys(&mut self, alloc: Global) -> Result<(), AllocError> {
        let read = self.read;
        let reached = reached_levels(alloc, read.types)?;
        let used = groups_in_use(alloc, self);
        for code in 0..read.codes.end() {
            let (Some(name), Some(record), Some(at)) = (
                read.codes.name_of(code),
                read.keys.key(code),
                self.place_of(code),
            ) else {
                continue;
            };
            let name = str::from_utf8(name).unwrap_or("");
            let key = NamedKey { name, record, at };
            self.note_key_groups(key, used, reached.as_slice())?;
            self.note_replaced(code, name)?;
        }
        Ok(())
    }
}
