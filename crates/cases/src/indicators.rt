//! Indicators.
use crate::case::Case;
use crate::sources::{bodies_of, library_of, modifiers_of, text_of};
use crate::trouble::Trouble;
use kx_indicators::{IndicatorMap, Indicators, indicators};
use kx_lex::Fault;
use std::alloc::Global;
use std::fmt::Write;

fn indicators_in(alloc: Global, case: &Case) -> Result<Box<Indicators>, Fault> {
    let library = library_of(alloc, case)?;
    let bodies = bodies_of(alloc, &library)?;
    let modifiers = modifiers_of(alloc, &bodies)?;
    Ok(Box::new(alloc, indicators(alloc, &bodies.compat, &modifiers)?)?)
}

/// Puts an indicator's name, its modifiers, the states of these, the states of groups, and its groups.
fn push_shown(all: &mut String, name: &[u8], indicator_map: &IndicatorMap) -> Result<(), Trouble> {
    let name = text_of(name);
    let modifiers = indicator_map.modifiers().bits();
    let states = indicator_map.mod_states().mask();
    let group_states = indicator_map.group_states().mask();
    let groups = indicator_map.groups();
    write!(all, "{name} {modifiers} {states} {group_states} {groups};")?;
    Ok(())
}

/// The indicators of a source.
pub fn shown(alloc: Global, case: &Case) -> Result<String, Trouble> {
    let found = indicators_in(alloc, case)?;
    let mut all = String::new(alloc);
    for number in 0..found.len() {
        if let (Some(name), Some(indicator_map)) = (
            found.name(number),
            found.indicator_map(number),
        ) {
            push_shown(&mut all, name, indicator_map)?;
        }
    }
    Ok(all)
}

/// How many indicators a source has.
pub fn count(alloc: Global, case: &Case) -> Result<String, Trouble> {
    Ok(indicators_in(alloc, case)?.len().to_string(alloc)?)
}
