// What a value prints as: a text as it is, a list or an object as its compact JSON text.
ghost use Rattle.std.specs.Prelude.{◌≡◌, ◌++◌, OnOk, OnErr, IfOk, string_bytes};
ghost use Rattle.json.specs.Print.{quoted};
ghost use Rattle.data_tree.specs.Json.{json, comma_if};
ghost use Rattle.data_tree.specs.Tree.{view, list, fields, items_view, members_view};

use crate::compact_text::CompactText;
use crate::data::Data;
use crate::draft::Draft;
use crate::parts::first_text;
use crate::plain::is_plain;
use json::Writer;
use std::alloc::{AllocError, Global};
use std::mem;

impl Data {
    ghost use Rattle.data_tree.specs.Print.{print};

    /// Appends what the value prints as.
    ///
    /// Nothing prints as the empty text, a `Text` and a `Named` as their text, and a list or an object as
    /// its compact JSON text, which is written straight into `out`, but for a string in which something is to be
    /// escaped: that is put between quotes in a text of its own first. The recursion is as deep as lists, objects and
    /// named texts nest in the value. Where an allocation fails, `out` keeps the text that it had.
    pub fn print_into(&self, alloc: Global, out: &mut String) -> Result<(), AllocError>
        ensures ok { OnOk result
            (string_bytes out.new ≡ string_bytes out.old ++ print (view self.now)) }
        ensures err { OnErr result (string_bytes out.new ≡ string_bytes out.old) }
    {
        match self {
            Data::Nothing => Ok(()),
            Data::Truth(true) => out.push_str("true"),
            Data::Truth(false) => out.push_str("false"),
            Data::Number(number) => {
                let mut buffer = itoa::Buffer::new();
                out.push_str(buffer.format(*number))
            }
            Data::Text(text) => out.push_str(text.as_str()),
            Data::Named(parts) => out.push_str(parts.0.as_str()),
            Data::Values(items) => out.push_str(first_text(items.as_slice())),
            Data::List(_) | Data::Fields(_) => self.json_into(alloc, out),
        }
    }

    /// Appends the value's compact JSON text, of whatever case it is: `null` for Nothing, a text between
    /// quotes, a named text as an object of its fields, items and text.
    ///
    /// It costs what `print_into` of a list costs. Where an allocation fails, `out` keeps the text that it had.
    pub fn json_into(&self, alloc: Global, out: &mut String) -> Result<(), AllocError>
        ensures ok { OnOk result
            (string_bytes out.new ≡ string_bytes out.old ++ json (view self.now)) }
        ensures err { OnErr result (string_bytes out.new ≡ string_bytes out.old) }
    {
        // The draft takes `out` over, and gives it back whether or not all of the value could be added.
        let mut draft = Draft::new(mem::replace(out, String::new(alloc)));
        let written = write_value(self, alloc, &mut draft);
        *out = if written.is_ok() {
            draft.into_text()
        } else {
            draft.into_start()
        };
        written
    }
}

#[cycle(write)]
fn write_value(value: &Data, alloc: Global, out: &mut Draft) -> Result<(), AllocError>
    ensures ok { OnOk result (out.new.1 ≡ out.old.1 ++ json (view value.now)) }
    ensures before { out.new.0 ≡ out.old.0 }
{
    match value {
        Data::Nothing => out.push("null"),
        Data::Truth(true) => out.push("true"),
        Data::Truth(false) => out.push("false"),
        Data::Number(number) => {
            let mut buffer = itoa::Buffer::new();
            out.push(buffer.format(*number))
        }
        Data::Text(text) => write_text(text.as_str(), alloc, out),
        Data::List(items) => write_items(items, alloc, out),
        Data::Fields(members) => write_members(members, alloc, out),
        Data::Named(parts) => {
            let (text, items, fields) = &**parts;
            out.push("{\"fields\":")?;
            write_members(fields, alloc, out)?;
            out.push(",\"items\":")?;
            write_items(items, alloc, out)?;
            out.push(",\"text\":")?;
            write_text(text.as_str(), alloc, out)?;
            out.push("}")
        }
        Data::Values(items) => {
            out.push("{\"fields\":{},\"items\":")?;
            write_items(items, alloc, out)?;
            out.push(",\"text\":")?;
            write_text(first_text(items.as_slice()), alloc, out)?;
            out.push("}")
        }
    }
}

#[cycle(write)]
fn write_items(items: &Vec<Data>, alloc: Global, out: &mut Draft) -> Result<(), AllocError>
    ensures ok { OnOk result (out.new.1 ≡ out.old.1 ++ json (list (items_view items.now.items))) }
    ensures before { out.new.0 ≡ out.old.0 }
{
    out.push("[")?;
    let mut later = false;
    for item in items {
        write_comma_if(later, out)?;
        write_value(item, alloc, out)?;
        later = true;
    }
    out.push("]")
}

#[cycle(write)]
fn write_members(
    members: &Vec<(CompactText, Data)>,
    alloc: Global,
    out: &mut Draft,
) -> Result<(), AllocError>
    ensures ok { OnOk result (out.new.1 ≡ out.old.1 ++ json (fields (members_view members.now.items))) }
    ensures before { out.new.0 ≡ out.old.0 }
{
    out.push("{")?;
    let mut later = false;
    for (name, member) in members {
        write_comma_if(later, out)?;
        write_text(name.as_str(), alloc, out)?;
        out.push(":")?;
        write_value(member, alloc, out)?;
        later = true;
    }
    out.push("}")
}

fn write_comma_if(later: bool, out: &mut Draft) -> Result<(), AllocError>
    ensures ok { OnOk result (out.new.1 ≡ out.old.1 ++ comma_if later) }
    ensures before { out.new.0 ≡ out.old.0 }
{
    if later { out.push(",") } else { Ok(()) }
}

// A text between quotes. One in which nothing is to be escaped takes no memory but in `out`.
fn write_text(text: &str, alloc: Global, out: &mut Draft) -> Result<(), AllocError>
    ensures ok { OnOk result (out.new.1 ≡ out.old.1 ++ quoted text.now) }
    ensures before { out.new.0 ≡ out.old.0 }
{
    if !is_plain(text) {
        return out.push(quoted(text, alloc)?.as_str());
    }
    out.push("\"")?;
    out.push(text)?;
    out.push("\"")
}

// The text between quotes, by the writer of `json`. It asks for room for a comma, too.
fn quoted(text: &str, alloc: Global) -> Result<String, AllocError>
    ensures { IfOk result (λ made. string_bytes made ≡ quoted text.now) }
{
    let mut writer = Writer::new(Vec::with_capacity(alloc, text.len().saturating_add(3))?);
    writer.string(text)?;
    // SAFETY: it is proved that the writer's bytes are UTF-8.
    Ok(unsafe { String::from_utf8_unchecked(writer.into_inner()) })
}
