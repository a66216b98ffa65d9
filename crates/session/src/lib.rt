// The session: all lines of a file, one after the other, on the symbolic token, with endings and breach marks.
// Kept: `as` between `usize` and `u64`, or to fewer bits. Rust has no `From` there, and the check proves that nothing is lost.
#![tactic(auto)]

ghost use Rattle.std.specs.Prelude.{◌≡◌, List, ◌<◌, length};
ghost use Rattle.model.specs.Value.{Value};
ghost use Rattle.model.specs.Token.{State, Out};
ghost use Rattle.model.specs.Frame.{File};
ghost use Rattle.model.specs.Report.{run_of};
ghost use Rattle.values.specs.Holds.{Holds};
ghost use Rattle.token.specs.Outcome.{SameTables};
ghost use Rattle.token.specs.Carried.{counts_of, Tidy, PerformsIn};
ghost use Rattle.session.specs.Sessioned.{SessionGiven, SessionReady, RanIs, FileKept, GuardsBelow, known, breached_by, RowBelow};
ghost use Rattle.session.specs.Sessioned.{outcome_number, SettleReady, SettledIs, FinishReady, FinishedIs};
ghost use Rattle.session.specs.Lent.{lent, left};

use line::run_line;
use model::{Ending, Full, Ran};
use token::{Counts, Halt, Token};

// Whether the value in a row is a constant or in hand.
fn is_known(rows: &[u64], hand: &[bool], row: usize) -> bool
    requires { (row < length rows.now) × (row < length hand.now) }
    ensures { (vs : List Value) → Holds rows.now vs → row < length vs → result ≡ known vs hand.now row }
{
    hand[row] || values::is_constant(rows, row)
}

// Whether some guarded value is. The guards are rows.
fn is_breached(rows: &[u64], guards: &[u64], hand: &[bool]) -> bool
    requires { GuardsBelow guards.now (length rows.now) (length hand.now) }
    ensures { (vs : List Value) → Holds rows.now vs → GuardsBelow guards.now (length vs) (length hand.now)
        → result ≡ breached_by vs hand.now guards.now }
{
    guards
        .iter()
        .any(|guard| is_known(rows, hand, *guard as usize))
}

// A finished line as one number: its value's row, or 65535 where it stopped.
// Kept: 65535 stands for no row in the table's numbers, which the header for C and `outcome_code` of the model lay down.
fn outcome_number(row: Option<usize>, keys: usize, breached: bool) -> u64
    requires { RowBelow 4096 row × (keys < 65536) }
    ensures { result ≡ outcome_number row keys breached }
{
    let stopped = u64::from(row.is_none());
    let mark = u64::from(breached);
    let place = row.unwrap_or(65535) as u64;
    place + 65536 * keys as u64 + 4294967296 * stopped + 8589934592 * mark + 17179869184
}

// What a line leaves: the row of its value, or none of a line that stopped; or there is no room. Without a value it is undone.
fn settle(
    token: &mut Token<'_>,
    earlier: Counts,
    outcome: Result<usize, Halt>,
) -> Result<Option<usize>, Full>
    requires { SettleReady earlier outcome token.old }
    ensures settled { (σ : State) (out : Out) → PerformsIn σ out outcome token.old → Tidy σ → earlier ≡ counts_of σ
        → SettledIs σ out result token.new }
    ensures same_tables { SameTables token.old token.new }
{
    // A call that comes to its end without a return has stopped.
    match outcome.err().unwrap_or(Halt::Stopped) {
        Halt::Ended(row) => Ok(Some(row)),
        Halt::Stopped => {
            token.undo_line(earlier);
            Ok(None)
        }
        Halt::Full(full) => {
            token.undo_line(earlier);
            Err(full)
        }
    }
}

// A line is finished: its value is in hand from now on, and its number stands in the table. The answer is its breach mark.
fn finish_line(
    token: &Token<'_>,
    hand: &mut [bool],
    outcomes: &mut [u64],
    i: usize,
    row: Option<usize>,
) -> bool
    requires { FinishReady token.now hand.old outcomes.old i row }
    ensures { FinishedIs token.now hand.old outcomes.old i row result hand.new outcomes.new }
{
    if let Some(row) = row {
        hand[row] = true;
    }
    let guards = &token.guards[..token.used.guards];
    let mark = is_breached(token.rows, guards, hand);
    let stored = token.used.keys;
    outcomes[i] = outcome_number(row, stored, mark);
    mark
}

// What a run comes to, and how many lines finished.
#[derive(Clone, Copy, PartialEq, Eq, Debug)]
pub struct Session {
    pub ran: Ran,
    pub finished: usize,
}

impl Session {
    fn new(ending: Option<Ending>, first_breach: Option<usize>, finished: usize) -> Session
        ensures { result ≡ record { ran = record { ending = ending; first_breach = first_breach }; finished = finished } }
    {
        let ran = Ran {
            ending,
            first_breach,
        };
        Session { ran, finished }
    }
}

// The tables that a session is lent: the file in heads, arguments, commands and steps, which it reads; the others it writes.
#[derive(Drop)]
pub struct RunTables<'a> {
    pub rows: &'a mut [u64],
    pub keys: &'a mut [u64],
    pub heads: &'a [u64],
    pub arguments: &'a [u64],
    pub outcomes: &'a mut [u64],
    pub commands: &'a [u64],
    pub steps: &'a [u64],
}

// The lines of a file from the empty token, into tables that hold the file and are zero otherwise.
pub fn run_session(tables: RunTables<'_>, m: usize) -> Session
    requires { SessionReady (lent tables) m }
    ensures ran { (φ : File) → SessionGiven φ (lent tables.entry) m → RanIs (run_of φ) result (left tables.exit) }
    ensures file_kept { FileKept (lent tables.entry) (left tables.exit) }
{
    let RunTables {
        rows,
        keys,
        heads,
        arguments,
        outcomes,
        commands,
        steps,
    } = tables;
    // Kept: arrays of as many places as there can be keys and rows, since the project has no heap.
    let mut guards = [0; 256];
    let mut hand = [false; 4096];
    let used = Counts {
        rows: 0,
        keys: 0,
        atoms: 0,
        guards: 0,
    };
    let mut token = Token {
        rows,
        keys,
        guards: &mut guards,
        used,
    };
    let mut first_breach = None;
    for i in 0..m {
        let earlier = token.used;
        let (head, args) = (heads[i], arguments[i]);
        let outcome = run_line(&mut token, outcomes, commands, steps, head, args);
        match settle(&mut token, earlier, outcome) {
            Err(full) => return Session::new(Some(Ending { full, line: i }), first_breach, i),
            Ok(row) => {
                let mark = finish_line(&token, &mut hand, outcomes, i, row);
                first_breach = first_breach.or(mark.then_some(i));
            }
        }
    }
    Session::new(None, first_breach, m)
}
