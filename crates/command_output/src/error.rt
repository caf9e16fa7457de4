//! Errors that a command reports.

use crate::output::put_all;
use data_tree::request_data::DataError;
use error_code::error_code::ErrorCode;
use itoa::Buffer;
use mock_request::error::SnapshotError;
use std::alloc::AllocError;
use std::io;
use std::io::Write;
use template_machine::error::ProgramError;

/// The code of an error, and for an error in a template the byte offset at which it is.
#[derive(Clone, Copy, Debug)]
pub struct CommandError {
    pub code: ErrorCode,
    pub at: Option<usize>,
}

impl CommandError {
    ghost use Rattle.command_output.specs.Lines.{error_line};
    ghost use Rattle.command_output.specs.Output.{AppendsFront, Writes};

    /// Writes its line, as far as the writer takes it. Takes no memory, so that out of memory can be reported, too.
    pub fn report<W: Write>(self, err: &mut W)
        ensures { AppendsFront (W.contents err.old) (W.contents err.new) (error_line self) }
    {
        // The caller's exit status is 1 in any case.
        let _ = self.write_to(err);
    }

    pub fn write_to<W: Write>(self, out: &mut W) -> io::Result<()>
        ensures { Writes result (W.contents out.old) (W.contents out.new) (error_line self) }
    {
        let mut number = Buffer::new();
        let number = number.format(self.code.number());
        let title = self.code.title();
        match self.at {
            Some(at) => {
                let mut offset = Buffer::new();
                let offset = offset.format(at);
                put_all(
                    out,
                    ["error ", number, " at ", offset, ": ", title, "\n"].as_slice(),
                )
            }
            None => put_all(out, ["error ", number, ": ", title, "\n"].as_slice()),
        }
    }
}

impl From<ErrorCode> for CommandError {
    ghost use Rattle.std.specs.Prelude.{◌≡◌, None};

    ghost from_gives = { λ code error. error ≡ record { code = code; at = None } };

    fn from(code: ErrorCode) -> CommandError {
        CommandError { code, at: None }
    }
}

impl From<ProgramError> for CommandError {
    ghost use Rattle.std.specs.Prelude.{◌≡◌};
    ghost use Rattle.template_machine.specs.Errors.{error_code_of, offset_of};

    ghost from_gives = { λ lower error. error ≡ record { code = error_code_of lower; at = offset_of lower } };

    fn from(lower: ProgramError) -> CommandError {
        CommandError {
            code: lower.error_code(),
            at: lower.at(),
        }
    }
}

impl From<SnapshotError> for CommandError {
    ghost use Rattle.std.specs.Prelude.{◌≡◌, None};
    ghost use Rattle.mock_request.specs.SnapshotError.{error_code_of};

    ghost from_gives = { λ lower error. error ≡ record { code = error_code_of lower; at = None } };

    fn from(lower: SnapshotError) -> CommandError {
        CommandError::from(lower.error_code())
    }
}

impl From<DataError> for CommandError {
    ghost use Rattle.std.specs.Prelude.{◌≡◌, None};
    ghost use Rattle.data_tree.specs.RequestData.{error_code_of};

    ghost from_gives = { λ lower error. error ≡ record { code = error_code_of lower; at = None } };

    fn from(lower: DataError) -> CommandError {
        CommandError::from(lower.error_code())
    }
}

impl From<AllocError> for CommandError {
    ghost use Rattle.std.specs.Prelude.{◌≡◌};
    ghost use Rattle.command_output.specs.Lines.{out_of_memory};

    ghost from_gives = { λ _ error. error ≡ out_of_memory };

    fn from(_error: AllocError) -> CommandError {
        CommandError::from(ErrorCode::OutOfMemory)
    }
}
