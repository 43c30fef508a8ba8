//! From a source and events to replies.
ghost use Rattle.std.specs.Prelude.{◌≡◌, ◌⊎◌, map, IfErr, IfOk};
ghost use Rattle.kx_headline.specs.Played.{AnswersAs};
ghost use Rattle.kx_lex.specs.declared.fault.Fault.TheVariants.{Memory};
ghost use Rattle.kx_run.specs.Replies.{answered};
ghost use Rattle.kx_source.specs.Source.{HasFault};

use ks_core::NameTable;
use kx_image::View;
use kx_lex::Fault;
use kx_run::{Event, Player, Reply};
use kx_tool::{Files, compile};
use std::alloc::Global;

/// What a keyboard with nothing held, latched or locked replies to a list of presses and releases, over the image that a
/// source is compiled to: what the source's statements mean. The calls are those of a compositor.
///
/// # Errors
/// A fault of the source with its place, or `Memory`.
pub fn play(
    alloc: Global,
    source: &[u8],
    files: &Files,
    names: &NameTable,
    events: &[Event],
) -> Result<Vec<Reply>, Fault>
    ensures replies { IfOk result (λ replies.
        AnswersAs source.now files.now names.now events.now (map answered replies.items)) }
    ensures fault { IfErr result (λ e. (e ≡ Memory) ⊎ HasFault source.now files.now names.now e) }
{
    let (image, _notes) = compile(alloc, source, files, names)?;
    let view = match View::open(image.as_slice()) {
        Ok(view) => view,
        Err(_) => unreachable!(),
    };
    let mut player = Player::start(alloc, view)?;
    let replies = player.run(alloc, events)?;
    Ok(replies)
}
