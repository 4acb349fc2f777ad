//! Ticks, and resizes that time out.
#![tactic(auto, unfolding(bt_base::specs::Ids::same, bt_base::proofs::Turns::lex_lt))]

ghost use Rattle.std.specs.Prelude.{◌≡◌, true};
ghost use Rattle.model_scripts.specs.Scripts.{lines_of, rows_after};
ghost use Rattle.model_scripts.specs.Checks.{is_good};
ghost use Rattle.model_scripts.specs.TickScripts as row;

/// A tick moves the moment and nothing else, and a moment below the last one leaves it.
pub fn a_tick_moves_the_moment()
    ensures lines { lines_of row.ticks ≡ row.ticks_lines }
    ensures rows { rows_after row.ticks ≡ row.ticks_rows }
    ensures good { is_good row.ticks ≡ true }
{}

/// A pool that has not reached its target when its timeout is over is steady, and keeps why.
pub fn a_resize_times_out()
    ensures lines { lines_of row.long_resize ≡ row.long_resize_lines }
    ensures rows { rows_after row.long_resize ≡ row.long_resize_rows }
    ensures error { row.long_resize_errors ≡ row.timed_out_once }
    ensures good { is_good row.long_resize ≡ true }
{}
