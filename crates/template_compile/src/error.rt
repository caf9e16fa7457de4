//! Why a template isn't compiled.
ghost use Rattle.std.specs.Prelude.{◌≡◌};
ghost use Rattle.template_compile.specs.declared.error.CompileError.TheVariants.{OutOfMemory};

use std::alloc::AllocError;

/// Why there is no code for a template.
#[derive(Clone, Copy, Debug)]
pub enum CompileError {
    /// The code would have more than `MAX_INSTRUCTIONS` instructions.
    TooLong,
    OutOfMemory,
}

impl From<AllocError> for CompileError {
    ghost from_gives = { λ _ error. error ≡ OutOfMemory };

    fn from(_error: AllocError) -> CompileError {
        CompileError::OutOfMemory
    }
}
