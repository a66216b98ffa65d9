// A command frame: its steps decoded, checked, and stored in the tables.
ghost use Rattle.std.specs.Prelude.{◌≡◌, ◌&&◌, List, map, ℕ, ◌+◌, ◌*◌, ◌≤◌, ◌<◌, eqb, length, position, OnErr};
ghost use Rattle.std.specs.List.{list_all};
ghost use Rattle.model.specs.Basics.{every};
ghost use Rattle.model.specs.Frame.{byte_at, step_formed, returns_last, names_made};
ghost use Rattle.model.specs.Tables.{step_code};
ghost use Rattle.frames.specs.Turn.{turn_told, SameReferences};
ghost use Rattle.frames.specs.Parts.{DecodedAs, head_formed, CommandStored, Takes, CommandsKept, LinesKept};

use crate::step::{step_at, step_code, step_formed, step_names};
use crate::{FileTables, Turn, lowest};
use model::{Fault, Step};

// A decoded command: how many parameters and steps it has, and the steps; the places behind them are zero.
// Kept: an array with its count, since the project has no heap; its steps are lent as a slice wherever they are read.
#[derive(Clone, Copy, PartialEq, Eq, Debug)]
pub struct Command {
    pub params: u8,
    pub count: u8,
    pub steps: [Step; 16],
}

// The step decoder: it is handed the step bytes alone.
#[tactic(auto, using(crate::proofs::Steps::decode_turn, crate::proofs::Steps::decode_done))]
pub fn decode(part: &[u8], params: u8, count: u8) -> Command
    requires { (length part.now ≡ 4 * count) × (count ≤ 16) }
    ensures { DecodedAs part.now params count result }
{
    let none = Step {
        op: 0,
        a: 0,
        b: 0,
        t: 0,
    };
    let mut steps = [none; 16];
    for i in 0..usize::from(count) {
        steps[i] = step_at(part, 4 * i);
    }
    Command {
        params,
        count,
        steps,
    }
}

// The first return, which has op 0.
// Kept: the byte, as in the model's `returns_last`; asked of `s.op()` it would first be shown that no other op is `Return`.
fn first_return(steps: &[Step]) -> Option<usize>
    ensures { result ≡ position (λ s. eqb s.op 0) steps.now }
{
    steps.iter().position(|s| s.op == 0)
}

// Return is the last step and only the last.
#[tactic(auto, using(crate::proofs::Steps::returns_first, crate::proofs::Steps::returns_never))]
fn returns_last(steps: &[Step]) -> bool
    ensures { result ≡ returns_last steps.now }
{
    match first_return(steps) {
        Some(i) => i + 1 == steps.len(),
        None => false,
    }
}

fn all_formed(steps: &[Step]) -> bool
    ensures { result ≡ list_all step_formed steps.now }
{
    steps.iter().all(|s| step_formed(*s))
}

// Each step is formed, and return is the last step and only the last.
fn steps_formed(steps: &[Step]) -> bool
    ensures { result ≡ (every step_formed steps.now && returns_last steps.now) }
{
    all_formed(steps) && returns_last(steps)
}

// Each step names parameters or values of steps before it.
#[tactic(auto, using(crate::proofs::Steps::names_turn, crate::proofs::Steps::names_fails, crate::proofs::Steps::names_done))]
fn names_made(params: u8, steps: &[Step]) -> bool
    requires { length steps.now ≤ 16 }
    ensures { result ≡ names_made params steps.now }
{
    for (i, s) in steps.iter().enumerate() {
        if !step_names(usize::from(params) + i, *s) {
            return false;
        }
    }
    true
}

// Whether a command's first bytes and length are formed.
#[tactic(auto, unfolding(crate::specs::Parts::head_formed))]
fn head_formed(f: &[u8]) -> bool
    ensures { result ≡ head_formed f.now }
{
    f.len() >= 3 && f[1] <= 4 && f[2] >= 1 && f[2] <= 16 && f.len() == 3 + 4 * usize::from(f[2])
}

// A command's own sixteen places.
#[tactic(auto, using(crate::proofs::Steps::store_turn, crate::proofs::Steps::store_done))]
fn store_steps(steps: &[Step; 16], part: &mut [u64])
    requires { length part.old ≡ 16 }
    ensures { part.new ≡ map step_code steps.now }
{
    for (i, s) in steps.iter().enumerate() {
        part[i] = step_code(*s);
    }
}

// Command n, in its entry and its sixteen places.
fn store_command(c: Command, n: usize, tables: &mut FileTables<'_>)
    requires { n < 32 }
    ensures stored { CommandStored c n tables.old tables.new }
    ensures same_references { SameReferences tables.old tables.new }
{
    tables.commands[n] = u64::from(c.params) + 256 * u64::from(c.count);
    store_steps(&c.steps, &mut tables.steps[16 * n..16 * n + 16]);
}

#[tactic(auto, using(crate::proofs::Commands::head_whole, crate::proofs::Commands::head_some, crate::proofs::Commands::head_few))]
pub fn command_turn(f: &[u8], n: usize, tables: &mut FileTables<'_>) -> Result<Turn, Fault>
    requires { byte_at f.now 0 ≡ 2 }
    ensures answer { (m : ℕ) (h a : List ℕ) → Takes 1 n m f.now (turn_told result) h a tables.old.commands.now tables.old.steps.now
        h a tables.new.commands.now tables.new.steps.now }
    ensures lines_kept { LinesKept tables.old tables.new }
    ensures refused { OnErr result (CommandsKept tables.old tables.new) }
    ensures same_references { SameReferences tables.old tables.new }
{
    if !head_formed(f) {
        return Err(Fault::Malformed);
    }
    let c = decode(&f[3..], f[1], f[2]);
    let steps = &c.steps[..usize::from(c.count)];
    lowest(steps_formed(steps), n < 32, names_made(c.params, steps))?;
    store_command(c, n, tables);
    Ok(Turn::Command)
}
