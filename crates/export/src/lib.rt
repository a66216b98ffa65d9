// The library's entries for C and for other languages that can call C: each slice is a pointer and a length.
// Kept: the names and parameters that C calls the four entries by, and so what they begin with.
// Kept: `as` between `usize` and `u64`, or to fewer bits. Rust has no `From` there, and the check proves that nothing is lost.
#![tactic(auto)]

ghost use Rattle.std.specs.Prelude.{◌≡◌};
ghost use Rattle.model.specs.Tables.{ReportIs};
ghost use Rattle.model.specs.Told.{read_told, verdict_told, run_told};
ghost use Rattle.export.specs.Exported.{tables_of, read_numbers, verdict_numbers, run_numbers, ReadTold, VerdictTold, RunTold};

use model::{Broken, Contents, Ending, Ran, Refusal, Rejection, Tables};

// A refusal has 0 for the last four numbers, and a file for the first two.
#[tactic(auto, unfolding(crate::specs::Exported::read_numbers))]
fn read_numbers(read: Result<Contents, Refusal>) -> [u64; 6]
    ensures { result ≡ read_numbers (read_told read) }
{
    match read {
        Err(Refusal { fault, frame }) => [fault.number() as u64, frame as u64, 0, 0, 0, 0],
        Ok(contents) => {
            let transported = u64::from(contents.policy.transported.code());
            let allowing = contents.policy.allowing;
            let commands = contents.commands as u64;
            let lines = contents.lines as u64;
            [0, 0, transported, allowing, commands, lines]
        }
    }
}

// All zero is acceptance, and a refused input has step 0.
#[tactic(auto, unfolding(crate::specs::Exported::verdict_numbers))]
fn verdict_numbers(verdict: Result<(), Rejection>) -> [u64; 3]
    ensures { result ≡ verdict_numbers (verdict_told verdict) }
{
    match verdict {
        Ok(()) => [0, 0, 0],
        Err(Rejection::Refused(Refusal { fault, frame })) => {
            [fault.number() as u64, frame as u64, 0]
        }
        Err(Rejection::Broken(Broken { rule, frame, step })) => {
            [rule.number() as u64, frame as u64, step as u64]
        }
    }
}

// A refusal has 0 for the last three numbers, and a run for the first two. Where no line is breached, the last number is 65535.
#[tactic(auto, unfolding(crate::specs::Exported::run_numbers))]
fn run_numbers(run: Result<Ran, Refusal>) -> [u64; 5]
    ensures { result ≡ run_numbers (run_told run) }
{
    match run {
        Err(Refusal { fault, frame }) => [fault.number() as u64, frame as u64, 0, 0, 0],
        Ok(ran) => {
            let (ending, place) = match ran.ending {
                Some(Ending { full, line }) => (full.number(), line),
                None => (0, 0),
            };
            // Kept: C is told 65535 where no line is breached, as the header says.
            let first = ran.first_breach.unwrap_or(0xffff);
            [0, 0, ending as u64, place as u64, first as u64]
        }
    }
}

// What reading an input comes to, in six numbers: number, frame, transported type, allowed templates, commands, lines.
#[unsafe(no_mangle)]
pub extern "C" fn migladze_read(
    input: &[u8],
    rows: &mut [u64],
    keys: &mut [u64],
    heads: &mut [u64],
    arguments: &mut [u64],
    outcomes: &mut [u64],
    commands: &mut [u64],
    steps: &mut [u64],
    answer: &mut [u64],
) -> usize
    ensures { ReadTold input.now
        (tables_of rows.old keys.old heads.old arguments.old outcomes.old commands.old steps.old) answer.old
        result (tables_of rows.new keys.new heads.new arguments.new outcomes.new commands.new steps.new) answer.new }
{
    if answer.len() != 6 {
        return 0;
    }
    let tables = Tables {
        rows,
        keys,
        heads,
        arguments,
        outcomes,
        commands,
        steps,
    };
    answer.copy_from_slice(&read_numbers(migladze::read(input, tables)));
    6
}

// The verdict of an input in three numbers: number, frame, step.
#[unsafe(no_mangle)]
pub extern "C" fn migladze_verdict(
    input: &[u8],
    rows: &mut [u64],
    keys: &mut [u64],
    heads: &mut [u64],
    arguments: &mut [u64],
    outcomes: &mut [u64],
    commands: &mut [u64],
    steps: &mut [u64],
    answer: &mut [u64],
) -> usize
    ensures { VerdictTold input.now
        (tables_of rows.old keys.old heads.old arguments.old outcomes.old commands.old steps.old) answer.old
        result (tables_of rows.new keys.new heads.new arguments.new outcomes.new commands.new steps.new) answer.new }
{
    if answer.len() != 3 {
        return 0;
    }
    let tables = Tables {
        rows,
        keys,
        heads,
        arguments,
        outcomes,
        commands,
        steps,
    };
    answer.copy_from_slice(&verdict_numbers(migladze::verdict(input, tables)));
    3
}

// What the run of an input's session comes to, in five numbers: number, frame, ending, its place, first breached line.
#[unsafe(no_mangle)]
pub extern "C" fn migladze_run(
    input: &[u8],
    rows: &mut [u64],
    keys: &mut [u64],
    heads: &mut [u64],
    arguments: &mut [u64],
    outcomes: &mut [u64],
    commands: &mut [u64],
    steps: &mut [u64],
    answer: &mut [u64],
) -> usize
    ensures { RunTold input.now
        (tables_of rows.old keys.old heads.old arguments.old outcomes.old commands.old steps.old) answer.old
        result (tables_of rows.new keys.new heads.new arguments.new outcomes.new commands.new steps.new) answer.new }
{
    if answer.len() != 5 {
        return 0;
    }
    let tables = Tables {
        rows,
        keys,
        heads,
        arguments,
        outcomes,
        commands,
        steps,
    };
    answer.copy_from_slice(&run_numbers(migladze::run(input, tables)));
    5
}

// The program's whole output for an input, at the front of a buffer of 19,476 bytes; the answer is how many bytes it takes.
#[unsafe(no_mangle)]
pub extern "C" fn migladze_report(
    input: &[u8],
    rows: &mut [u64],
    keys: &mut [u64],
    heads: &mut [u64],
    arguments: &mut [u64],
    outcomes: &mut [u64],
    commands: &mut [u64],
    steps: &mut [u64],
    buffer: &mut [u8],
) -> usize
    ensures { ReportIs input.now
        (tables_of rows.old keys.old heads.old arguments.old outcomes.old commands.old steps.old) buffer.old
        result (tables_of rows.new keys.new heads.new arguments.new outcomes.new commands.new steps.new) buffer.new }
{
    let tables = Tables {
        rows,
        keys,
        heads,
        arguments,
        outcomes,
        commands,
        steps,
    };
    migladze::report(input, tables, buffer)
}
