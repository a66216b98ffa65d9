// From the numbers of the lent tables back to steps and commands. The code is safe on any numbers, also on those that reading
// never leaves, so each function speaks of any number.
// Kept: `as` between `usize` and `u64`, or to fewer bits. Rust has no `From` there, and the check proves that nothing is lost.
#![tactic(auto)]

ghost use Rattle.std.specs.Prelude.{◌≡◌, min};
ghost use Rattle.decoding.specs.Decoded.{step_from};

use model::Step;

// The step that a number of the table stands for.
#[tactic(auto, unfolding(crate::specs::Decoded::step_from))]
pub fn step_of(code: u64) -> Step
    ensures { result ≡ step_from code }
{
    let [op, a, b, t, ..] = code.to_le_bytes();
    Step { op, a, b, t }
}

// A count from a command's number. Reading lets no command have more than the most, and the walk over its steps relies on that.
pub fn at_most(n: u64, most: usize) -> usize
    ensures { result ≡ min n most }
{
    (n as usize).min(most)
}
