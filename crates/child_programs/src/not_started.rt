//! Reasons for which child programs cannot be started.
use bt_base::Word;
use std::alloc::{AllocError, Global};
use std::io::ErrorKind;
use std::{fmt, io};

/// The error number of Linux for a file that is no program (`ENOEXEC`).
const NO_PROGRAM: i32 = 8;

/// The error number of Linux for a program whose interpreter is no program (`ELIBBAD`).
const BAD_INTERPRETER: i32 = 80;

/// Why a child program cannot be started.
#[derive(Clone, Copy)]
pub(crate) enum NotStarted {
    /// The command line has no word.
    NoWord,
    /// A word is not UTF-8.
    NotText,
    /// A word has a zero byte.
    ZeroByte,
    /// The system refuses the command line, for this cause.
    Refused(io::Error),
    /// It was tried for 10 minutes, and failed for this cause at last.
    GivenUp(io::Error),
    /// The service did not let it be started, since what is known of the run could not be saved.
    Unsaved,
}

/// Whether the error of a start lies in the command line: a program that is not there or may not be executed, a file that is no
/// program, or words that are too long. Others pass.
pub(crate) fn lies_in_command(error: io::Error) -> bool {
    match error.kind() {
        ErrorKind::NotFound
        | ErrorKind::PermissionDenied
        | ErrorKind::NotADirectory
        | ErrorKind::IsADirectory
        | ErrorKind::FilesystemLoop
        | ErrorKind::InvalidFilename
        | ErrorKind::InvalidInput
        | ErrorKind::ArgumentListTooLong => true,
        _ => matches!(error.raw_os_error(), Some(NO_PROGRAM | BAD_INTERPRETER)),
    }
}

/// What is said of an error of the system that lies in the command line; None for another one.
fn refusal_text(error: io::Error) -> Option<&'static str> {
    match error.kind() {
        ErrorKind::NotFound => Some("no such file or directory"),
        ErrorKind::PermissionDenied => Some("permission denied"),
        ErrorKind::NotADirectory => Some("a part of its path is not a directory"),
        ErrorKind::FilesystemLoop => Some("its path has too many symbolic links"),
        ErrorKind::InvalidFilename => Some("its name is too long"),
        ErrorKind::ArgumentListTooLong => Some("the command line or the environment is too long"),
        _ => match error.raw_os_error() {
            Some(NO_PROGRAM) => Some(
                "the file is not a program, and has no line that names its interpreter",
            ),
            Some(BAD_INTERPRETER) => Some("its interpreter is not a program"),
            _ => None,
        },
    }
}

impl fmt::Display for NotStarted {
    fn fmt<W: fmt::Write>(&self, f: &mut fmt::Formatter<W>) -> fmt::Result {
        match self {
            NotStarted::NoWord => f.write_str("the command line has no words"),
            NotStarted::NotText => f.write_str("a word of the command line is not UTF-8"),
            NotStarted::ZeroByte => f.write_str("a word of the command line has a zero byte"),
            NotStarted::Refused(error) => match refusal_text(*error) {
                Some(text) => f.write_str(text),
                None => write!(f, "{error}"),
            },
            NotStarted::GivenUp(error) => write!(f, "it was tried for 10 minutes: {error}"),
            NotStarted::Unsaved => f.write_str("the run could not be saved in the store"),
        }
    }
}

/// The byte, or `?` for one that would end the line or move the cursor.
fn shown_byte(byte: u8) -> u8 {
    if byte.is_ascii_control() { b'?' } else { byte }
}

/// The line that says why the child program with these words was not started. The only error is out of memory.
pub(crate) fn reason_line(
    alloc: Global,
    words: &[Word],
    why: NotStarted,
) -> Result<Vec<u8>, AllocError> {
    let mut line = Vec::new(alloc);
    line.extend_from_slice(b"batch: cannot start")?;
    if let Some(program) = words.first() {
        line.push(b' ').map_err(AllocError::from)?;
        for byte in program.as_bytes() {
            line.push(shown_byte(*byte)).map_err(AllocError::from)?;
        }
    }
    let reason = format!(in alloc; ": {why}\n")?;
    line.extend_from_slice(reason.as_str().as_bytes())?;
    Ok(line)
}
