//! Texts of the code that are appended to what a run writes.
ghost use Rattle.std.specs.Prelude.{◌≡◌, ◌<◌, [], ◌∷◌, ◌++◌, OnOk, string_bytes};

use std::alloc::AllocError;

/// Appends a text. One ASCII character, as many texts of templates are, is pushed here, without a call.
#[inline(always)]
pub fn append_literal(text: &str, out: &mut String) -> Result<(), AllocError>
    ensures { OnOk result (string_bytes out.new ≡ string_bytes out.old ++ text.now) }
{
    match text.as_bytes() {
        [byte] if *byte < 128 => push_ascii(*byte, out),
        _ => out.push_str(text),
    }
}

/// Appends an ASCII character. LLVM inlines what it takes for a frequent way of a function, as pushing is of this one,
/// and wouldn't be of one that looks first what there is to append.
pub fn push_ascii(byte: u8, out: &mut String) -> Result<(), AllocError>
    requires { byte < 128 }
    ensures { OnOk result (string_bytes out.new ≡ string_bytes out.old ++ byte ∷ []) }
{
    out.push(byte as char)
}
