//! Runs cases over whole sources, over the parts of compiling, and over rules. Of a source: how it is refused, its image, what is
//! noted, its printed text, and what a session over it answers to events. Of the parts: tokens, trees, names, includes, and the
//! records that statements give. Of rules: the components that they name. Each word of the program is a file of cases, or a call
//! that is made twice on the keymap of standard input.
#![tactic(auto)]

mod actions;
mod calls;
mod case;
mod codes;
mod entries;
mod indicators;
mod interpretations;
mod key_types;
mod keys;
mod modifiers;
mod names;
mod notes;
mod parts;
mod rules;
mod running;
mod settings;
mod shown;
mod sources;
mod symbols;
mod texts;
mod trouble;
mod values;
mod words;

use crate::calls::Call;
use crate::running::run_file;
use crate::trouble::Trouble;
use std::env;
use std::io::Read;

fn main(rt: HostRuntime) -> Result<(), Trouble> {
    let words: Vec<String> = env::args(&rt)?.collect(rt.alloc())?;
    let mut keymap = Vec::new(rt.alloc());
    for word in words.iter().skip(1) {
        let word = word.as_str();
        let Some(call) = Call::of(word) else {
            run_file(&rt, word)?;
            continue;
        };
        if keymap.is_empty() {
            rt.reader().read_to_end(&mut keymap)?;
        }
        calls::make_twice(&rt, keymap.as_slice(), call, word)?;
    }
    Ok(())
}
