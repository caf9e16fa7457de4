// Texts in byte order, each once, by a map.
ghost use Rattle.std.specs.Prelude.{◌≡◌, ◌++◌, map, IfOk, OnOk, string_bytes};
ghost use Rattle.std.specs.BTreeMap.{keys};
ghost use Rattle.admin_json.specs.Names.{in_order};
ghost use Rattle.request_data.specs.Grouped.{with_name};

use plain_text::text::Text;
use std::alloc::{AllocError, Global};
use std::collections::BTreeMap;

/// The texts in byte order, each once.
pub(crate) fn in_order(alloc: Global, texts: &[Text]) -> Result<Vec<Text>, AllocError>
    ensures { IfOk result (λ found. found.items ≡ in_order texts.now) }
{
    let mut names = BTreeMap::new(alloc);
    for text in texts {
        add(alloc, &mut names, text)?;
    }
    let mut found = Vec::with_capacity(alloc, names.len())?;
    push_all(&mut found, names)?;
    Ok(found)
}

/// Adds a copy of the text, unless it is there.
pub(crate) fn add(
    alloc: Global,
    names: &mut BTreeMap<String, ()>,
    text: &Text,
) -> Result<(), AllocError>
    ensures { OnOk result (map string_bytes (keys names.new)
        ≡ with_name text.now (map string_bytes (keys names.old))) }
{
    let name = String::from_str(alloc, text.as_str())?;
    names.insert(name, ())?;
    Ok(())
}

/// Appends the names in their order.
pub(crate) fn push_all(found: &mut Vec<Text>, names: BTreeMap<String, ()>) -> Result<(), AllocError>
    ensures { OnOk result (found.new.items ≡ found.old.items ++ map string_bytes (keys names)) }
{
    for (name, _nothing) in names {
        found.push(Text::from(name))?;
    }
    Ok(())
}
