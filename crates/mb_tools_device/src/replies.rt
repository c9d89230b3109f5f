//! The text of the replies.

ghost use Rattle.std.specs.Prelude.{◌≡◌, IfOk};
ghost use Rattle.mb_model.specs.chains.Replies.{replies_text};

use mb_model::{Answered, NoMemory};
use mb_script::write_reply;
use std::alloc::Global;

/// The lines of the replies, in order.
pub fn write_replies(alloc: Global, answered: &[Answered]) -> Result<Vec<u8>, NoMemory>
    ensures { IfOk result (λ text. text.items ≡ replies_text answered.now) }
{
    let mut text = Vec::new(alloc);
    for one in answered {
        write_reply(&one.reply, &mut text)?;
    }
    Ok(text)
}
