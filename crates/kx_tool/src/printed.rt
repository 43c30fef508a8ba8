//! Tables through their printed text.
ghost use Rattle.std.specs.Prelude.{◌≡◌, ◌≤◌, length, IfErr, IfOk};
ghost use Rattle.kx_image.specs.Image.{image};
ghost use Rattle.kx_image.specs.declared.header.ImageVersion.TheVariants.{Two};
ghost use Rattle.kx_lex.specs.declared.fault.Fault.TheVariants.{Memory};
ghost use Rattle.kx_lex.specs.declared.scan.TheConstants.{MOST_TEXT_BYTES};
ghost use Rattle.kx_print.specs.Printed.{printed};
ghost use Rattle.kx_types.specs.declared.limits.TheConstants.{MOST_TYPES};

use crate::compiler::compile;
use ks_core::{Lent, NameTable};
use kx_include::Files;
use kx_lex::Fault;
use kx_print::print;
use kx_tables::Tables;
use std::alloc::Global;

/// The version 2 image of tables, by way of their printed text: the text is compiled, without files. The tables have at most
/// 4,096 types, and their text at most 1,048,576 bytes.
///
/// # Errors
/// Only `Memory`: the text has no fault.
pub fn compile_printed<T: Tables>(
    alloc: Global,
    tables: &T,
    names: &NameTable,
) -> Result<Vec<u8>, Fault>
    requires few_types { length (T.content tables.now).types ≤ MOST_TYPES }
    requires short { length (printed (T.content tables.now)) ≤ MOST_TEXT_BYTES }
    ensures same { IfOk result (λ bytes. bytes.items ≡ image Two (T.content tables.now)) }
    ensures memory { IfErr result (λ e. e ≡ Memory) }
{
    let mut text = Lent::new(Vec::new(alloc));
    match print(tables, &mut text) {
        Ok(()) => compile_text(alloc, tables, text.device.as_slice(), names),
        Err(_) => Err(Fault::Memory),
    }
}

/// The image of tables from their printed text.
fn compile_text<T: Tables>(
    alloc: Global,
    tables: &T,
    text: &[u8],
    names: &NameTable,
) -> Result<Vec<u8>, Fault>
    requires few_types { length (T.content tables.now).types ≤ MOST_TYPES }
    requires short { length (printed (T.content tables.now)) ≤ MOST_TEXT_BYTES }
    requires text { text.now ≡ printed (T.content tables.now) }
    ensures same { IfOk result (λ bytes. bytes.items ≡ image Two (T.content tables.now)) }
    ensures memory { IfErr result (λ e. e ≡ Memory) }
{
    // No effect: the proof reads that tables are sound.
    let _sound = tables.key_count();
    let files = Files::new(alloc);
    match compile(alloc, text, &files, names) {
        Ok((image, _)) => Ok(image),
        Err(fault) => Err(fault),
    }
}
