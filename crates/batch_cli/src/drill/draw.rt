//! The sequence of a drill, and its draws.
ghost use Rattle.std.specs.Prelude.{◌≡◌};
ghost use Rattle.batch_cli.specs.Drill.{next_state, draw_of};

/// The factor of the sequence.
const MULTIPLIER: u64 = 1_103_515_245;

/// What is added at each step of the sequence.
const INCREMENT: u64 = 12_345;

/// The numbers of the sequence are below this one, 2 to the power 31.
const MODULUS: u64 = 2_147_483_648;

/// The number of the sequence after this one.
pub fn next_state(state: u32) -> u32
    ensures { result ≡ next_state state }
{
    ((u64::from(state) * MULTIPLIER + INCREMENT) % MODULUS) as u32
}

/// The draw that a number of the sequence gives.
pub fn draw_of(state: u32) -> u32
    ensures { result ≡ draw_of state }
{
    state / 65_536
}
