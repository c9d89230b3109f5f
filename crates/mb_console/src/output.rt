//! The outputs of a command, written one after another, and the text that is printed after them.

ghost use Rattle.std.specs.Prelude.{◌≡◌, map, IfErr, OnOk};
ghost use Rattle.mb_model_commands.specs.Outside.{WritesFile, FailsToWrite};
ghost use Rattle.mb_model_commands.specs.Commands.{print};
ghost use Rattle.mb_console.specs.Ending.{CarriesOutAfter};
ghost use Rattle.mb_console.specs.Outputs.{output_of, writes, WritesAll, StopsWriting};

use crate::end::End;
use mb_host::Host;
use mb_model_commands::Role;

/// An output: its role, the name of its file, and its bytes.
#[derive(Clone, Copy)]
pub struct Output<'n, 'b> {
    pub role: Role,
    pub name: &'n str,
    pub bytes: &'b [u8],
}

/// Writes the outputs in their order, and then prints the text. Takes no memory. If one name stands for two outputs,
/// the later write counts. That is not refused: names can reach one file in ways that a program cannot see, and a check
/// of the words alone would promise too much.
pub fn finish<H: Host>(host: &mut H, outputs: &[Output<'_, '_>], text: &[u8]) -> Result<(), End>
    ensures { CarriesOutAfter (writes (map output_of outputs.now) (print text.now)) (H.outside host.old) result (H.outside host.new) }
{
    write_all(host, outputs)?;
    print_text(host, text)
}

/// Writes the outputs in their order. Takes no memory.
pub fn write_all<H: Host>(host: &mut H, outputs: &[Output<'_, '_>]) -> Result<(), End>
    ensures ok { OnOk result (WritesAll (map output_of outputs.now) (H.outside host.old) (H.outside host.new)) }
    ensures err { IfErr result (λ why. StopsWriting (map output_of outputs.now) (H.outside host.old) why (H.outside host.new)) }
{
    let Some((output, rest)) = outputs.split_first() else {
        return Ok(());
    };
    write_output(host, output)?;
    write_all(host, rest)
}

/// Writes an output.
fn write_output<H: Host>(host: &mut H, output: &Output<'_, '_>) -> Result<(), End>
    ensures ok { OnOk result (WritesFile output.now.name.now output.now.bytes.now (H.outside host.old) (H.outside host.new)) }
    ensures err { IfErr result (λ why. (why ≡ End.NotWritten output.now.role) × FailsToWrite output.now.name.now (H.outside host.old) (H.outside host.new)) }
{
    match host.write(output.name, output.bytes) {
        Ok(()) => Ok(()),
        Err(_) => Err(End::NotWritten(output.role)),
    }
}

/// Prints the text.
pub fn print_text<H: Host>(host: &mut H, text: &[u8]) -> Result<(), End>
    ensures { CarriesOutAfter (print text.now) (H.outside host.old) result (H.outside host.new) }
{
    match host.print(text) {
        Ok(()) => Ok(()),
        Err(_) => Err(End::NotPrinted),
    }
}
