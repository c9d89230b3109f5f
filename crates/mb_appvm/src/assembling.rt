//! The assembler.

ghost use Rattle.std.specs.Prelude.{◌≡◌, ◌≤◌, length, IfOk};
ghost use Rattle.mb_model.specs.declared.limits.TheConstants.{CODE_LIMIT};
ghost use Rattle.mb_appvm.specs.Checking.{ReadsTo, AssemblesTo};
ghost use Rattle.mb_appvm.specs.declared.assembling.TheConstants.{ASSEMBLY_LIMIT};

use crate::checking::count_sound;
use crate::encoding::write_code;
use crate::given::{Later, Lines};
use crate::lines::{Said, read_line};
use mb_model::{Bytes, FILE_LIMIT, NoMemory};
use mb_words::{TextEnd, split_line};
use std::alloc::Global;

/// The longest text that is assembled, in bytes: 14 times the longest file, since a text with constants and strings may be
/// that much longer once it is written out.
pub const ASSEMBLY_LIMIT: usize = 58_720_256;

const _: () = prove!(ASSEMBLY_LIMIT == 14 * FILE_LIMIT);

/// Why a text was not assembled: a line is not in the grammar, repeats a label, names a label that no line gives, or
/// takes the code past 32,768 bytes; or an allocation failed.
pub type AsmEnd = TextEnd;

/// Assembles a text of at most 58,720,256 bytes to code of at most 32,768 bytes. A line is `label NAME`, or the name of
/// an instruction with its operand; lines end with LF, which the last may lack.
///
/// Errors: `BadLine` with the first line that is wrong, and `NoMemory`.
pub fn assemble(alloc: Global, text: &[u8]) -> Result<Bytes, AsmEnd>
    requires { length text.now ≤ ASSEMBLY_LIMIT }
    ensures assembled { AssemblesTo text.now result }
    ensures short { IfOk result (λ code. length code ≤ CODE_LIMIT) }
{
    let (said, rest) = read_lines(alloc, text)?;
    let lines = Lines::of(alloc, said)?;
    let later = Later::of(alloc, rest)?;
    let right = count_sound(&lines, &later);
    if right < lines.as_slice().len() || !later.is_empty() {
        return Err(AsmEnd::BadLine {
            line: right as u32 + 1,
        });
    }
    let code = write_code(alloc, &lines)?;
    Ok(Bytes::from_vec(code))
}

/// What the lines of a text say, up to the first that says nothing; and the text from that line on.
fn read_lines(alloc: Global, text: &[u8]) -> Result<(Vec<Said<'_>>, &[u8]), NoMemory>
    requires { length text.now ≤ ASSEMBLY_LIMIT }
    ensures { IfOk result (λ parts. ReadsTo text.now parts.0.items parts.1.now) }
{
    let mut said = Vec::new(alloc);
    let mut rest = text;
    while !rest.is_empty() {
        let (line, later) = split_line(rest);
        match read_line(line) {
            Some(line) => said.push(line)?,
            None => return Ok((said, rest)),
        }
        rest = later;
    }
    Ok((said, rest))
}
