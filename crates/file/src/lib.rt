// Reading: all frames of an input into the lent tables, or the first refusal.
#![tactic(auto)]

ghost use Rattle.std.specs.Prelude.{◌≡◌, ◌≤◌, length};
ghost use Rattle.model.specs.File.{parse};
ghost use Rattle.model.specs.Tables.{right_lengths, ReadIs};
ghost use Rattle.model.specs.Told.{read_told, lent, left};
ghost use Rattle.frames.specs.Turn.{SameReferences};
ghost use Rattle.file.specs.Framed.{located, contents_of, Cleared, ZerosIn, FramedIs, LeftIs};

use frames::{Counts, FileTables, Place, Turn};
use model::{Contents, Fault, Policy, Refusal, Tables};

// How many bytes are read at most.
const LONGEST_INPUT: usize = 32768;

// A frame's fault, as the refusal of the whole input.
fn located(turn: Result<Turn, Fault>, frame: usize) -> Result<Turn, Refusal>
    ensures { result ≡ located frame turn }
{
    turn.map_err(|fault| Refusal { fault, frame })
}

// What an input comes to whose frames were all taken: it has a policy, or no frame at all.
fn contents(policy: Option<Policy>, counts: Counts) -> Result<Contents, Refusal>
    ensures { result ≡ contents_of policy counts }
{
    let policy = policy.ok_or(Refusal {
        fault: Fault::Misplaced,
        frame: 0,
    })?;
    Ok(Contents {
        policy,
        commands: counts.commands,
        lines: counts.lines,
    })
}

// The frames of an input, into tables that are all zero.
fn read_frames(input: &[u8], tables: &mut FileTables<'_>) -> Result<Contents, Refusal>
    requires { ZerosIn tables.old × (length input.now ≤ 32768) }
    ensures framed { FramedIs (parse input.now) (read_told result) tables.new }
    ensures same_references { SameReferences tables.old tables.new }
{
    // The longest frame has 67 bytes; a longer one that is cut here is refused as it would be whole.
    // Kept: an array, since the project has no heap; what a line fills of it is lent as a slice.
    let mut buffer = [0u8; 68];
    let mut at = 0;
    let mut frame = 0;
    let mut policy: Option<Policy> = None;
    let mut counts = Counts {
        place: Place::Start,
        commands: 0,
        lines: 0,
    };
    // Kept: where a line ends is known once it is scanned, so no range gives the places, and scanning needs the whole input.
    while at < input.len() {
        let line = text::scan_line(input, at, &mut buffer).ok_or(Refusal {
            fault: Fault::BadLine,
            frame,
        })?;
        let turn = frames::take_frame(&buffer[..line.len], counts, tables);
        let turn = located(turn, frame)?;
        match turn {
            Turn::Policy(p) => {
                policy = Some(p);
                counts.place = Place::Commands;
            }
            Turn::Command => counts.commands += 1,
            Turn::Line => {
                counts.lines += 1;
                counts.place = Place::Lines;
            }
        }
        at = line.next;
        frame += 1;
    }
    contents(policy, counts)
}

fn clear_read(tables: &mut FileTables<'_>)
    ensures zeros { ZerosIn tables.new }
    ensures same_references { SameReferences tables.old tables.new }
{
    tables.heads.fill(0);
    tables.arguments.fill(0);
    tables.commands.fill(0);
    tables.steps.fill(0);
}

// An input into cleared tables: its length first, then the frames. A refusal leaves the tables zero.
fn read_cleared(
    input: &[u8],
    heads: &mut [u64],
    arguments: &mut [u64],
    commands: &mut [u64],
    steps: &mut [u64],
) -> Result<Contents, Refusal>
    requires { Cleared heads.old arguments.old commands.old steps.old }
    ensures { LeftIs (parse input.now) (read_told result) heads.new arguments.new commands.new steps.new }
{
    if input.len() > LONGEST_INPUT {
        return Err(Refusal {
            fault: Fault::TooLong,
            frame: 0,
        });
    }
    let mut tables = FileTables {
        heads,
        arguments,
        commands,
        steps,
    };
    let answer = read_frames(input, &mut tables);
    if answer.is_err() {
        clear_read(&mut tables);
    }
    answer
}

// Whether each lent table has one entry for each thing that can be.
// Kept: seven slices. With `&Tables`, lent before `read_tables` takes the tables apart, no proof knows what they hold at exit.
fn right_lengths(
    rows: &[u64],
    keys: &[u64],
    heads: &[u64],
    arguments: &[u64],
    outcomes: &[u64],
    commands: &[u64],
    steps: &[u64],
) -> bool
    ensures { result ≡ right_lengths (record {
      rows = rows.now;
      keys = keys.now;
      heads = heads.now;
      arguments = arguments.now;
      outcomes = outcomes.now;
      commands = commands.now;
      steps = steps.now;
    }) }
{
    rows.len() == 4096
        && keys.len() == 256
        && heads.len() == 1024
        && arguments.len() == 1024
        && outcomes.len() == 1024
        && commands.len() == 32
        && steps.len() == 512
}

// Any input, with any lent tables: their lengths before all else.
pub fn read_tables(input: &[u8], tables: Tables<'_>) -> Result<Contents, Refusal>
    ensures { ReadIs input.now (lent tables.entry) (read_told result) (left tables.exit) }
{
    let Tables {
        rows,
        keys,
        heads,
        arguments,
        outcomes,
        commands,
        steps,
    } = tables;
    let right = right_lengths(rows, keys, heads, arguments, outcomes, commands, steps);
    rows.fill(0);
    keys.fill(0);
    heads.fill(0);
    arguments.fill(0);
    outcomes.fill(0);
    commands.fill(0);
    steps.fill(0);
    if !right {
        return Err(Refusal {
            fault: Fault::WrongTables,
            frame: 0,
        });
    }
    read_cleared(input, heads, arguments, commands, steps)
}
