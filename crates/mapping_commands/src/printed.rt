// Replies as they are printed.
ghost use Rattle.std.specs.Prelude.{◌≡◌, ◌++◌, IfOk, OnOk, flat_map};
ghost use Rattle.mapping_commands.specs.Answering.{header_line, reply_text};

use itoa::Buffer;
use mapping_model::reply::{Reply, ReplyHeader};
use std::alloc::{AllocError, Global};

pub(crate) fn reply_text(alloc: Global, reply: &Reply) -> Result<Vec<u8>, AllocError>
    ensures { IfOk result (λ text. text.items ≡ reply_text reply.now) }
{
    let mut text = Vec::from_slice(alloc, b"status ")?;
    text.extend_from_slice(Buffer::new().format(reply.status).as_bytes())?;
    text.extend_from_slice(b"\n")?;
    push_headers(&mut text, reply.headers.as_slice())?;
    text.extend_from_slice(b"\n")?;
    text.extend_from_slice(reply.body.as_slice())?;
    Ok(text)
}

fn push_headers(text: &mut Vec<u8>, headers: &[ReplyHeader]) -> Result<(), AllocError>
    ensures { OnOk result (text.new.items ≡ text.old.items ++ flat_map header_line headers.now) }
{
    for header in headers {
        push_header(text, header)?;
    }
    Ok(())
}

fn push_header(text: &mut Vec<u8>, header: &ReplyHeader) -> Result<(), AllocError>
    ensures { OnOk result (text.new.items ≡ text.old.items ++ header_line header.now) }
{
    text.extend_from_slice(header.name.as_str().as_bytes())?;
    text.extend_from_slice(b": ")?;
    text.extend_from_slice(header.value.as_slice())?;
    text.extend_from_slice(b"\n")?;
    Ok(())
}
