//! What is kept to find likely slips.
use crate::keysyms::{keysyms_given, most_groups};
use kx_lex::At;
use kx_source::ReadSource;
use std::alloc::{AllocError, Global};

/// A key has so many groups at most.
const MOST_GROUPS: usize = 32;

/// What was met in the author's text, and what keys have, once it is asked for.
#[derive(Drop)]
pub(crate) struct Slips {
    alloc: Global,
    /// Where a code is given to a name that keeps it, by keycode.
    codes: Vec<Option<At>>,
    /// The number of the map in which a type was last written, by the place of the type.
    types: Vec<usize>,
    /// The number of the map in which a group was last named.
    named: [usize; MOST_GROUPS],
    /// The keysyms that keys give, in order.
    given: Option<Vec<u32>>,
    most_groups: Option<usize>,
}

/// Makes room for a place, with what stands where nothing was met.
fn make_room<T: Copy + Drop>(all: &mut Vec<T>, place: usize, empty: T) -> Result<(), AllocError> {
    for _ in all.len()..=place {
        all.push(empty)?;
    }
    Ok(())
}

impl Slips {
    pub(crate) fn new(alloc: Global) -> Slips {
        Slips {
            alloc,
            codes: Vec::new(alloc),
            types: Vec::new(alloc),
            named: [0; MOST_GROUPS],
            given: None,
            most_groups: None,
        }
    }

    /// Keeps where a code is given to a name that keeps it.
    pub(crate) fn keep_code(&mut self, code: u16, at: At) -> Result<(), AllocError> {
        let place = usize::from(code);
        make_room(&mut self.codes, place, None)?;
        if let Some(kept) = self.codes.get_mut(place) {
            *kept = Some(at);
        }
        Ok(())
    }

    pub(crate) fn has_codes(&self) -> bool {
        !self.codes.is_empty()
    }

    /// Where a code is given to a name that keeps it.
    pub(crate) fn place_of_code(&self, code: u16) -> Option<At> {
        self.codes.get(usize::from(code)).copied().flatten()
    }

    /// Keeps that a type is written in a map; answers whether the map has it already.
    pub(crate) fn meets_type(&mut self, place: usize, map: usize) -> bool {
        if make_room(&mut self.types, place, 0).is_err() {
            return false;
        }
        match self.types.get_mut(place) {
            Some(last) => {
                let is_met = *last == map;
                *last = map;
                is_met
            }
            None => false,
        }
    }

    /// Keeps that a group, from 0, is named in a map; answers whether the map names it already.
    pub(crate) fn meets_name(&mut self, group: usize, map: usize) -> bool {
        match self.named.get_mut(group) {
            Some(last) => {
                let is_met = *last == map;
                *last = map;
                is_met
            }
            None => false,
        }
    }

    /// Whether a key gives a keysym.
    pub(crate) fn is_given(&mut self, read: ReadSource, keysym: u32) -> Result<bool, AllocError> {
        if self.given.is_none() {
            self.given = Some(keysyms_given(self.alloc, read)?);
        }
        Ok(match &self.given {
            Some(given) => given.as_slice().binary_search(&keysym).is_ok(),
            None => true,
        })
    }

    /// The most groups that a key has.
    pub(crate) fn most_groups(&mut self, read: ReadSource) -> usize {
        match self.most_groups {
            Some(most) => most,
            None => {
                let most = most_groups(read);
                self.most_groups = Some(most);
                most
            }
        }
    }
}
