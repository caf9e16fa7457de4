// Passing over a JSON value that nothing looks at.
ghost use Rattle.std.specs.Prelude.{◌≡◌, ◌<◌, length, None, Err, OnOk};
ghost use Rattle.json.specs.Json.{value, items, members};
ghost use Rattle.data_tree.specs.Tree.{Members};
ghost use Rattle.json_bridge.specs.Inner.Direct.{HasTree, HaveTrees, HasMembers};

use crate::direct::{next_name, whole_of};
use crate::error::JsonError;
use json::{Reader, Token};

/// Passes the reader's next value, in which each number has to be whole. Takes no memory. The recursion is as deep as
/// the value nests.
#[cycle(judge)]
#[inline(always)]
pub(crate) fn judge(reader: &mut Reader<'_>, depth: usize) -> Result<(), JsonError>
    ensures ok { OnOk result (HasTree (value depth reader.old) reader.new) }
    ensures shorter { OnOk result (length reader.new < length reader.old) }
    ensures not_json { result ≡ Err JsonError.NotJson → value depth reader.old ≡ None }
{
    let token = reader.next().ok_or(JsonError::NotJson)?;
    match token {
        Token::String(_text) => Ok(()),
        Token::Number(text) => match whole_of(text) {
            Some(_number) => Ok(()),
            None => Err(JsonError::NumberNotWhole),
        },
        Token::Bool(_truth) => Ok(()),
        Token::Null => Ok(()),
        Token::EndObject | Token::EndArray | Token::Key(_) | Token::Bad => Err(JsonError::NotJson),
        Token::BeginArray => {
            if depth == 0 {
                return Err(JsonError::NotJson);
            }
            judge_items(reader, depth - 1)
        }
        Token::BeginObject => {
            if depth == 0 {
                return Err(JsonError::NotJson);
            }
            judge_members(reader, depth - 1)
        }
    }
}

#[cycle(judge)]
#[inline(never)]
pub(crate) fn judge_items(reader: &mut Reader<'_>, depth: usize) -> Result<(), JsonError>
    ensures ok { OnOk result
        (HaveTrees (items (value depth) (length reader.old) reader.old) reader.new) }
    ensures shorter { OnOk result (length reader.new < length reader.old) }
    ensures not_json { result ≡ Err JsonError.NotJson
        → items (value depth) (length reader.old) reader.old ≡ None }
{
    'items: while !reader.take_end_array() {
        judge(reader, depth)?;
    }
    Ok(())
}

#[cycle(judge)]
#[inline(never)]
fn judge_members(reader: &mut Reader<'_>, depth: usize) -> Result<(), JsonError>
    ensures ok { OnOk result ((ms : Members)
        × HasMembers (members (value depth) (length reader.old) reader.old) ms reader.new) }
    ensures shorter { OnOk result (length reader.new < length reader.old) }
    ensures not_json { result ≡ Err JsonError.NotJson
        → members (value depth) (length reader.old) reader.old ≡ None }
{
    'members: while let Some(_name) = next_name(reader)? {
        judge(reader, depth)?;
    }
    Ok(())
}
