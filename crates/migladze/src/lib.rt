// The library: each public entry takes an input and every lent table, checks the tables' lengths, and reads the frames itself.
// None has a requirement; what each promises is a record of the crate model (specs/Tables.antt).
#![tactic(auto)]

ghost use Rattle.std.specs.Prelude.{◌≡◌, ◌<◌, ◌↔◌, IfOk, IfSome};
ghost use Rattle.model.specs.Tables.{read_into, read_answer, ReadIs, VerdictIs, RunIs, ReportIs};
ghost use Rattle.model.specs.Told.{lent, left, read_told, verdict_told, run_told};
ghost use Rattle.model.specs.declared.Refusal.{Refusal};
ghost use Rattle.model.specs.declared.Rejection.TheVariants as rejection;

use model::{Contents, Ran, Refusal, Rejection, Tables};
use session::RunTables;

// The bytes that the longest report takes: a verdict, 1,024 lines and an end.
pub const REPORT_SIZE: usize = 19476;

// The tables again as one, lent to a call: they come back when it returns.
macro_rules! lend {
    ($($table:ident),*) => {
        Tables { $($table: &mut *$table),* }
    };
}

// The same for a session, which writes the first and only reads the others.
macro_rules! lend_to_session {
    ($($written:ident),*; $($read:ident),*) => {
        RunTables { $($written: &mut *$written),*, $($read: &*$read),* }
    };
}

// Reads an input into the tables, or refuses it and leaves them zero.
pub fn read(input: &[u8], tables: Tables<'_>) -> Result<Contents, Refusal>
    ensures { ReadIs input.now (lent tables.entry) (read_told result) (left tables.exit) }
{
    let Tables {
        rows,
        keys,
        heads,
        arguments,
        outcomes,
        commands,
        steps,
    } = tables;
    let tables = lend!(rows, keys, heads, arguments, outcomes, commands, steps);
    // Kept: a call in the place of the answer lends the tables beyond the body, where what it leaves in them is not known.
    let read = file::read_tables(input, tables);
    read
}

// The verdict of an input by the typing rules; the tables are left as reading leaves them.
pub fn verdict(input: &[u8], tables: Tables<'_>) -> Result<(), Rejection>
    ensures answer { VerdictIs input.now (lent tables.entry) (verdict_told result) (left tables.exit) }
    ensures refused { (r : Refusal) → (result ≡ Err (rejection.Refused r))
        ↔ (read_told (Err r) ≡ read_answer (read_into (lent tables.entry) input.now)) }
{
    let Tables {
        rows,
        keys,
        heads,
        arguments,
        outcomes,
        commands,
        steps,
    } = tables;
    let tables = lend!(rows, keys, heads, arguments, outcomes, commands, steps);
    let contents = file::read_tables(input, tables)?;
    typing::judge(contents.policy, contents.commands, commands, steps)?;
    Ok(())
}

// The run of an input's session on the symbolic token; the tables of rows, stored keys and outcomes are left as after the last
// finished line.
pub fn run(input: &[u8], tables: Tables<'_>) -> Result<Ran, Refusal>
    ensures answer { RunIs input.now (lent tables.entry) (run_told result) (left tables.exit) }
    ensures breach { IfOk result (λ r. IfSome r.first_breach (λ i. i < 1024)) }
{
    let Tables {
        rows,
        keys,
        heads,
        arguments,
        outcomes,
        commands,
        steps,
    } = tables;
    let tables = lend!(rows, keys, heads, arguments, outcomes, commands, steps);
    let lines = file::read_tables(input, tables)?.lines;
    let tables = lend_to_session!(rows, keys, outcomes; heads, arguments, commands, steps);
    Ok(session::run_session(tables, lines).ran)
}

// The program's whole output for an input, at the front of a buffer of REPORT_SIZE bytes; the answer is how many bytes it takes.
// A buffer of another size takes nothing.
pub fn report(input: &[u8], tables: Tables<'_>, buffer: &mut [u8]) -> usize
    ensures { ReportIs input.now (lent tables.entry) buffer.old result (left tables.exit) buffer.new }
{
    if buffer.len() != REPORT_SIZE {
        return 0;
    }
    buffer.fill(0);
    let Tables {
        rows,
        keys,
        heads,
        arguments,
        outcomes,
        commands,
        steps,
    } = tables;
    let tables = lend!(rows, keys, heads, arguments, outcomes, commands, steps);
    let contents = match file::read_tables(input, tables) {
        Ok(contents) => contents,
        Err(refusal) => return printing::print_refusal(buffer, refusal),
    };
    let judged = typing::judge(contents.policy, contents.commands, commands, steps);
    let tables = lend_to_session!(rows, keys, outcomes; heads, arguments, commands, steps);
    let session = session::run_session(tables, contents.lines);
    printing::print_report(buffer, judged, &outcomes[..session.finished], session.ran)
}
