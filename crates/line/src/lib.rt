// One line of the session: its arguments, left to right, then a call's steps or an operation of the attacker's own.
// The token alone tells the code where it stands, so each function promises its part of every state and line that it carries.
// Kept: three slices beside the token. They are read alone, and parts of one struct of references can't be lent at the same time.
// Kept: `as` between `usize` and `u64`, or to fewer bits. Rust has no `From` there, and the check proves that nothing is lost.
#![tactic(auto)]

ghost use Rattle.std.specs.Prelude.{◌≡◌, List, ◌<◌, get_or};
ghost use Rattle.model.specs.Step.{Command};
ghost use Rattle.model.specs.Value.{Value, value_at};
ghost use Rattle.model.specs.Token.{State, run_steps};
ghost use Rattle.model.specs.Session.{Arg, Line, Finished, appearing, run_line};
ghost use Rattle.model.specs.Session.{argument as named};
ghost use Rattle.model.specs.declared.Step.{Step};
ghost use Rattle.token.specs.Outcome.{SameTables};
ghost use Rattle.token.specs.Carried.{PerformsIn, Stands, room_in};
ghost use Rattle.line.specs.Lined.{LineGiven, LineReady};
ghost use Rattle.line.specs.Stages.{head_from, earlier_from, ArgumentGiven, ArgumentReady, ArgumentsGiven, ArgumentsReady, Taken};
ghost use Rattle.line.specs.Stages.{StepsGiven, StepsReady, OperandsReady, second_of, computed};

use model::{Full, Operation, Step};
use token::{Halt, Token};
use values::Filled;

// What a line does once its arguments are there: it calls a command, by its number, or computes by itself.
#[derive(Clone, Copy, PartialEq, Eq, Debug)]
enum Act {
    Call(u8),
    Compute(Operation),
}

// What a line's head tells: what it does, and with how many arguments.
#[derive(Clone, Copy, PartialEq, Eq, Debug)]
struct Head {
    act: Act,
    count: usize,
}

#[tactic(auto, unfolding(crate::specs::Stages::head_from))]
fn head_of(head: u64) -> Head
    ensures { result ≡ head_from head }
{
    let number = (head / 256 % 256) as u8;
    let act = match head % 256 {
        0 => Act::Call(number),
        1 => Act::Compute(Operation::Encrypt),
        3 => Act::Compute(Operation::Derive(number)),
        _ => Act::Compute(Operation::Decrypt),
    };
    let count = (head / 65536) as usize;
    Head { act, count }
}

// The row of an earlier line's value, from the line's number in the table; a stopped line has none.
#[tactic(auto, unfolding(crate::specs::Stages::earlier_from))]
fn earlier_row(code: u64) -> Option<usize>
    ensures { result ≡ earlier_from code }
{
    if code / 4294967296 % 2 == 1 {
        return None;
    }
    Some((code % 65536) as usize)
}

// One argument: its highest bit says that the other fifteen are a constant, and they are an earlier line's number otherwise.
fn argument(token: &mut Token<'_>, outcomes: &[u64], code: usize) -> Result<usize, Halt>
    requires { ArgumentReady token.old outcomes.now code }
    ensures performs { (σ : State) (fs : List Finished) (a : Arg) → ArgumentGiven σ fs a token.old outcomes.now code
        → PerformsIn σ (appearing (room_in token.old) (named fs a) σ) result token.new }
    ensures same_tables { SameTables token.old token.new }
{
    if code >= 0x8000 {
        let mut rows = Filled {
            table: &mut *token.rows,
            len: token.used.rows,
        };
        let row = values::appear_const(&mut rows, code % 0x8000);
        token.used.rows = rows.len;
        return row.ok_or(Halt::Full(Full::Rows));
    }
    earlier_row(outcomes[code]).ok_or(Halt::Stopped)
}

// The rows of the arguments, sixteen bits each in `args`, the first one lowest; the places after them are for the values that steps make.
// Kept: an array for all the values that a call can have, since the project has no heap.
fn take_arguments(
    token: &mut Token<'_>,
    outcomes: &[u64],
    args: u64,
    count: usize,
) -> Result<[usize; 20], Halt>
    requires { ArgumentsReady token.old outcomes.now args count }
    ensures taken { (σ : State) (fs : List Finished) (asked : List Arg) → ArgumentsGiven σ fs asked token.old outcomes.now args 0 count
        → Taken (room_in token.old) σ fs asked result token.new }
    ensures same_tables { SameTables token.old token.new }
{
    let mut values = [0; 20];
    let mut left = args;
    for i in 0..count {
        let code = (left % 65536) as usize;
        values[i] = argument(token, outcomes, code)?;
        left /= 65536;
    }
    Ok(values)
}

// The row of value i. A field that names no value may be any byte, and its row is then not looked at.
fn row_of(values: &[usize], i: u8) -> usize
    ensures { result ≡ get_or values.now i 0 }
{
    values.get(usize::from(i)).copied().unwrap_or(0)
}

// The steps of a command, from its own part of the table. Each one's value comes after those before it, the arguments first.
fn run_steps(
    token: &mut Token<'_>,
    steps: &[u64],
    params: usize,
    arguments: [usize; 20],
) -> Result<usize, Halt>
    requires { StepsReady token.old steps.now params arguments }
    ensures performs { (σ : State) (ss : List Step) (vs : List Value) → StepsGiven σ ss vs token.old steps.now 0 params arguments
        → PerformsIn σ (run_steps (room_in token.old) ss vs σ) result token.new }
    ensures same_tables { SameTables token.old token.new }
{
    let mut values = arguments;
    for (i, code) in steps.iter().enumerate() {
        let s = decoding::step_of(*code);
        let x = row_of(&values, s.a);
        let y = row_of(&values, s.b);
        values[params + i] = token.perform_step(s, x, y)?;
    }
    Err(Halt::Stopped)
}

// The argument that is an operation's second operand; a derivation has one argument, which is that.
fn second_operand(operation: Operation) -> usize
    ensures is { result ≡ second_of operation }
    ensures small { result < 2 }
{
    match operation {
        Operation::Encrypt | Operation::Decrypt => 1,
        Operation::Derive(_) => 0,
    }
}

// An operation of the attacker's own, on the line's arguments; the line ends with its value.
fn compute(token: &mut Token<'_>, operation: Operation, values: &[usize]) -> Result<usize, Halt>
    requires { OperandsReady token.old operation values.now }
    ensures performs { (σ : State) → Stands σ token.old
        → PerformsIn σ
        (computed (room_in token.old) operation (value_at σ.world.rows (get_or values.now 0 0))
        (value_at σ.world.rows (get_or values.now (second_of operation) 0)) σ)
        result token.new }
    ensures same_tables { SameTables token.old token.new }
{
    let second = second_operand(operation);
    let row = token.compute(operation, values[0], values[second])?;
    Err(Halt::Ended(row))
}

// The line whose head and arguments are given, after the lines whose outcomes are in the table.
pub fn run_line(
    token: &mut Token<'_>,
    outcomes: &[u64],
    commands: &[u64],
    steps: &[u64],
    head: u64,
    args: u64,
) -> Result<usize, Halt>
    requires { LineReady token.old outcomes.now commands.now steps.now head args }
    ensures performs { (σ : State) (cs : List Command) (fs : List Finished) (l : Line)
        → LineGiven σ cs fs l token.old outcomes.now commands.now steps.now head args
        → PerformsIn σ (run_line (room_in token.old) cs fs l σ) result token.new }
    ensures same_tables { SameTables token.old token.new }
{
    let head = head_of(head);
    let values = take_arguments(token, outcomes, args, head.count)?;
    match head.act {
        Act::Call(command) => {
            let command = usize::from(command);
            let count = (commands[command] / 256).min(16) as usize;
            let first = 16 * command;
            let part = &steps[first..first + count];
            run_steps(token, part, head.count, values)
        }
        Act::Compute(operation) => compute(token, operation, &values),
    }
}
