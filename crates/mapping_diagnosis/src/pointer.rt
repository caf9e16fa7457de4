// JSON pointers (RFC 6901) as they are told: without a character that would break the line.
use std::alloc::{AllocError, Global};

/// The pointer to the same place from the object that has the value at that name.
pub(crate) fn pointer_under(
    alloc: Global,
    name: &str,
    pointer: &str,
) -> Result<String, AllocError> {
    let mut longer = String::from_str(alloc, "/")?;
    push_token(&mut longer, name)?;
    longer.push_str(pointer)?;
    Ok(longer)
}

/// A name as a pointer has it.
fn push_token(pointer: &mut String, name: &str) -> Result<(), AllocError> {
    for character in name.chars() {
        match character {
            '~' => pointer.push_str("~0")?,
            '/' => pointer.push_str("~1")?,
            character => if character.is_control() {
                push_escaped(pointer, character)?;
            } else {
                pointer.push(character)?;
            },
        }
    }
    Ok(())
}

// As `\n` or `\u{1b}`: by itself it would break the line.
fn push_escaped(pointer: &mut String, control: char) -> Result<(), AllocError> {
    for character in control.escape_debug() {
        pointer.push(character)?;
    }
    Ok(())
}
