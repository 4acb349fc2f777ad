//! Slots of nodes and the fill types of pools.
#![tactic(auto, unfolding(bt_base::specs::Ids::same, bt_base::proofs::Turns::lex_lt))]

ghost use Rattle.std.specs.Prelude.{◌≡◌, true};
ghost use Rattle.model_scripts.specs.Scripts.{held_after, lines_of, rows_after};
ghost use Rattle.model_scripts.specs.Checks.{is_good};
ghost use Rattle.model_scripts.specs.SlotScripts as row;

/// Tasks are spread: the node with the fewest held slots gets the next one, and of nodes with as many the lowest number.
pub fn tasks_are_spread()
    ensures lines { lines_of row.spread ≡ row.spread_lines }
    ensures rows { rows_after row.spread ≡ row.spread_rows }
    ensures held { held_after row.spread ≡ row.spread_held }
    ensures good { is_good row.spread ≡ true }
{}

/// Tasks are packed: the node with the most held slots gets the next one where it fits.
pub fn tasks_are_packed()
    ensures lines { lines_of row.pack ≡ row.pack_lines }
    ensures rows { rows_after row.pack ≡ row.pack_rows }
    ensures held { held_after row.pack ≡ row.pack_held }
    ensures good { is_good row.pack ≡ true }
{}

/// Packing prefers the fuller node to the lower number, and spreading the emptier one.
pub fn fill_types_go_before_numbers()
    ensures fuller { lines_of row.fuller ≡ row.fuller_lines }
    ensures held_packed { held_after row.fuller ≡ row.fuller_held }
    ensures emptier { lines_of row.emptier ≡ row.emptier_lines }
    ensures held_spread { held_after row.emptier ≡ row.emptier_held }
{}

/// Of two nodes that are equally full packing takes the one with the lower number.
pub fn the_lower_number_of_full_nodes()
    ensures lines { lines_of row.equally_full ≡ row.equally_full_lines }
    ensures held { held_after row.equally_full ≡ row.equally_full_held }
    ensures good { is_good row.equally_full ≡ true }
{}

/// A task of two slots is passed over while one slot is free, and placed as soon as both are.
pub fn a_wide_task_is_passed_over()
    ensures lines { lines_of row.passed_over ≡ row.passed_over_lines }
    ensures rows { rows_after row.passed_over ≡ row.passed_over_rows }
    ensures held { held_after row.passed_over ≡ row.passed_over_held }
    ensures good { is_good row.passed_over ≡ true }
{}

/// A task of two slots fits no node of one slot, and the task of a later job is placed.
pub fn a_task_fits_no_smaller_node()
    ensures lines { lines_of row.too_wide ≡ row.too_wide_lines }
    ensures held { held_after row.too_wide ≡ row.too_wide_held }
    ensures good { is_good row.too_wide ≡ true }
{}

/// A run of the present attempt of a placed task holds its slots whatever its state, and any other run holds none.
pub fn placed_tasks_hold_their_slots()
    ensures held { row.held_by_run_state ≡ row.all_held }
    ensures not_held { row.not_held ≡ row.none_held }
{}
