//! The command `child CODE`, for tests and for trying the service out: what a run of the service starts may be this program.
use bt_base::{Word, text_of};
use std::process::ExitCode;

/// The exit code that the words ask for, if they are `child` and a number, which is digits alone: the number modulo 256.
fn code_of(words: &[Word]) -> Option<u8> {
    match words {
        [name, code] if text_of(name.as_bytes())? == "child" => {
            let digits = text_of(code.as_bytes())?;
            if !digits.bytes().all(|digit| digit.is_ascii_digit()) {
                return None;
            }
            let code: u64 = digits.parse().ok()?;
            u8::try_from(code % 256).ok()
        }
        _ => None,
    }
}

/// If the words are `child CODE`, writes them on one line to standard output, and returns the code modulo 256 as the exit code. A fault of
/// that stream changes nothing.
pub fn child(rt: &HostRuntime, words: &[Word]) -> Option<ExitCode> {
    let code = code_of(words)?;
    let text = text_of(words.last()?.as_bytes())?;
    let _ = rt.println(format_args!("child {text}"));
    Some(ExitCode::from(code))
}
