// The texts of a response that may be templates.
use serde_json::Value;
use std::alloc::{AllocError, Global};

/// Those of the headers, by their names, then that of the body.
pub(crate) fn texts_of(alloc: Global, response: &Value) -> Result<Vec<&str>, AllocError> {
    let mut texts = Vec::new(alloc);
    if let Some(headers) = response.get("headers") {
        add_header_texts(headers, &mut texts)?;
    }
    if let Some(body) = response.get("body") {
        add_text(body, &mut texts)?;
    }
    Ok(texts)
}

fn add_header_texts<'a>(headers: &'a Value, texts: &mut Vec<&'a str>) -> Result<(), AllocError> {
    let Some(members) = headers.as_object() else {
        return Ok(());
    };
    for (_name, member) in members.iter() {
        match member.as_array() {
            Some(items) => add_item_texts(items, texts)?,
            None => add_text(member, texts)?,
        }
    }
    Ok(())
}

fn add_item_texts<'a>(items: &'a Vec<Value>, texts: &mut Vec<&'a str>) -> Result<(), AllocError> {
    for item in items {
        add_text(item, texts)?;
    }
    Ok(())
}

fn add_text<'a>(value: &'a Value, texts: &mut Vec<&'a str>) -> Result<(), AllocError> {
    match value.as_str() {
        Some(text) => {
            texts.push(text)?;
            Ok(())
        }
        None => Ok(()),
    }
}
