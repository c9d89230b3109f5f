//! The output of `asm` and of `disasm`, and the line that reports how much was written.

ghost use Rattle.std.specs.Prelude.{◌≡◌, IfOk, string_bytes};
ghost use Rattle.mb_model.specs.outside.Texts.{line_with_lf};
ghost use Rattle.mb_console.specs.Ending.{CarriesOut};
ghost use Rattle.mb_tools_app.specs.AssemblyCommands.{line_of_count, write_counted};

use mb_console::{End, Output, finish};
use mb_host::Host;
use mb_model::NoMemory;
use mb_model_commands::Role;
use std::alloc::Global;

/// Writes the bytes, and prints a count after a word.
pub(crate) fn write_counted<H: Host>(
    alloc: Global,
    out: &str,
    bytes: &[u8],
    word: &str,
    count: usize,
    host: &mut H,
) -> Result<(), End>
    ensures { CarriesOut (write_counted out.now bytes.now word.now count) (H.outside host.old) result (H.outside host.new) }
{
    let Ok(text) = count_text(alloc, word, count) else {
        return Err(End::NoMemory);
    };
    let outputs = [Output {
        role: Role::Out,
        name: out,
        bytes,
    }];
    finish(host, &outputs, text.as_bytes())
}

/// The line of a count after a word, with its LF.
fn count_text(alloc: Global, word: &str, count: usize) -> Result<String, NoMemory>
    ensures { IfOk result (λ text. string_bytes text ≡ line_with_lf (line_of_count word.now count)) }
{
    Ok(format!(in alloc; "{word} {count}\n")?)
}
