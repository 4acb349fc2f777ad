//! Numbered lines.
ghost use Rattle.std.specs.Prelude.{◌≡◌, ◌++◌, OnOk, string_bytes};
ghost use Rattle.wire_texts.specs.Lines.{numbered};

use std::alloc::AllocError;

/// Adds a line with the number `n` of the line that it answers, a space and this text. It fails only when out of memory.
#[tactic(auto, unfolding(crate::specs::Lines::numbered))]
pub fn push_line(out: &mut String, n: u64, text: &str) -> Result<(), AllocError>
    ensures { OnOk result (string_bytes out.new ≡ string_bytes out.old ++ numbered n text.now) }
{
    writeln!(out, "{n} {text}")
}
