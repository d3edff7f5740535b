// Writing the line of a message that is moved to the dead-letter file.
ghost use Rattle.std.specs.Prelude.{◌≡◌, ◌++◌, IfOk, OnOk};
ghost use Rattle.std.specs.Str.{IsUtf8};
ghost use Rattle.esm_model.specs.JsonText.{quoted};
ghost use Rattle.esm_redrive_model.specs.DeadLetter.{group_member, dead_letter};
ghost use Rattle.esm_redrive.specs.ReadsBack.{IsUtf8Group, IsUtf8Message, ReadsBack};

use esm_event::bytes::push_bytes;
use esm_event::digits::push_decimal;
use esm_event::json::push_quoted;
use esm_model::{Message, OutOfMemory, Text};
use std::alloc::Global;

/// Appends the text in quotation marks. After an `Err` a part of it may have been appended.
fn push_text(out: &mut Vec<u8>, text: &Text) -> Result<(), OutOfMemory>
    ensures text { OnOk result (out.new.items ≡ out.old.items ++ quoted text.now) }
    ensures utf8 { IsUtf8 text.now }
{
    push_quoted(out, text.as_str().as_bytes())
}

/// Appends the member of the group, if there is one. After an `Err` a part of it may have been appended.
fn push_group(out: &mut Vec<u8>, group: &Option<Text>) -> Result<(), OutOfMemory>
    ensures text { OnOk result (out.new.items ≡ out.old.items ++ group_member group.now) }
    ensures utf8 { OnOk result (IsUtf8Group group.now) }
{
    match group {
        None => Ok(()),
        Some(text) => {
            push_bytes(out, b",\"messageGroupId\":")?;
            push_text(out, text)?;
            Ok(())
        }
    }
}

/// Appends the line. After an `Err` a part of it may have been appended.
fn push_letter(out: &mut Vec<u8>, message: &Message) -> Result<(), OutOfMemory>
    ensures text { OnOk result (out.new.items ≡ out.old.items ++ dead_letter message.now) }
    ensures utf8 { OnOk result (IsUtf8Message message.now) }
{
    push_bytes(out, b"{\"messageId\":")?;
    push_text(out, &message.id)?;
    push_bytes(out, b",\"body\":")?;
    push_text(out, &message.body)?;
    push_bytes(out, b",\"sentTimestamp\":")?;
    push_decimal(out, message.sent)?;
    push_group(out, &message.group)?;
    push_bytes(out, b"}")?;
    Ok(())
}

/// States that the texts of a message are UTF-8. Does nothing.
pub fn has_texts(message: &Message)
    ensures { IsUtf8Message message.now }
{
    let _ = message.id.as_str();
    let _ = message.body.as_str();
    if let Some(group) = &message.group {
        let _ = group.as_str();
    }
}

/// Returns the line of a dead letter, without its line feed. It is an input line of the message's queue, so it can be fed
/// again.
pub fn dead_line(alloc: Global, message: &Message) -> Result<Vec<u8>, OutOfMemory>
    ensures text { IfOk result (λ line. line.items ≡ dead_letter message.now) }
    ensures reads_back { IfOk result (λ line. ReadsBack message.now line.items) }
{
    let mut out = Vec::new(alloc);
    push_letter(&mut out, message)?;
    Ok(out)
}
