//! Pools and their nodes.
#![tactic(auto, unfolding(bt_base::specs::Ids::same, bt_base::proofs::Turns::lex_lt))]

ghost use Rattle.std.specs.Prelude.{◌≡◌, true};
ghost use Rattle.model_scripts.specs.Scripts.{lines_of, rows_after};
ghost use Rattle.model_scripts.specs.Checks.{is_good};
ghost use Rattle.model_scripts.specs.PoolScripts as row;

/// Two ids that differ in case alone are one. A pool without a target is steady at once.
pub fn ids_of_pools_have_no_case()
    ensures lines { lines_of row.same_pool ≡ row.same_pool_lines }
    ensures rows { rows_after row.same_pool ≡ row.same_pool_rows }
    ensures good { is_good row.same_pool ≡ true }
{}

/// A pool gets one node after the other, and then is steady.
pub fn a_pool_gets_its_nodes()
    ensures lines { lines_of row.three_nodes ≡ row.three_nodes_lines }
    ensures rows { rows_after row.three_nodes ≡ row.three_nodes_rows }
    ensures good { is_good row.three_nodes ≡ true }
{}

/// Forty nodes on eight seats: eight are added, and the pool still resizes.
pub fn nodes_are_as_many_as_seats()
    ensures lines { lines_of row.too_few_seats ≡ row.too_few_seats_lines }
    ensures rows { rows_after row.too_few_seats ≡ row.too_few_seats_rows }
    ensures good { is_good row.too_few_seats ≡ true }
{}

/// The second pool gets the seats that the first one left.
pub fn pools_share_seats()
    ensures lines { lines_of row.shared_seats ≡ row.shared_seats_lines }
    ensures rows { rows_after row.shared_seats ≡ row.shared_seats_rows }
    ensures good { is_good row.shared_seats ≡ true }
{}

/// The tables take 64 pools, and the next one is refused.
pub fn at_most_64_pools()
    ensures added { row.reply_among 63 ≡ row.is_added }
    ensures full { row.reply_among 64 ≡ row.is_full }
{}
