// The token over the lent tables: what one step does, in row numbers.
// Inner functions promise counts and numbers where they can. What generate, store and the public functions promise is said of
// every state that the tables may carry.
// Kept: `ReadyIn` as a clause. That atoms are no more than rows fails after an ending, so it is no fact of every token; and the tables
// lie flat beside their counts, since of a `Filled` inside the token nobody would know afterwards what it left in a caller's slice.
// Kept: `as` between `usize` and `u64`, or to fewer bits. Rust has no `From` there, and the check proves that nothing is lost.
#![tactic(auto)]

ghost use Rattle.std.specs.Prelude.{◌≡◌, List, ℕ, ◌≤◌, ◌<◌, length};
ghost use Rattle.model.specs.Step.{op_of};
ghost use Rattle.model.specs.Value.{Value, value_at, compute, operands};
ghost use Rattle.model.specs.Token.{State, appear, generate, store, perform};
ghost use Rattle.values.specs.Holds.{Holds, AppearedIn};
ghost use Rattle.values.specs.Filled.{SameTable};
ghost use Rattle.token.specs.declared.Counts.{Counts};
ghost use Rattle.token.specs.Outcome.{Gave, outcome_told, SameTables, KeysKept};
ghost use Rattle.token.specs.Carried.{counts_of, Tidy, OperandsBelow, Named, Extends};
ghost use Rattle.token.specs.Carried.{room_in, Carries, Stands, ReadyIn, PerformsIn};
ghost use Rattle.token.specs.Numbers.{AtomsFit, MakesAtom, MakesHandle, key_number, Keeps, get_of};

use model::{Full, Op, Operation, Step};
use values::Filled;

// The token's tables, with how much of each is used. The guards are the rows of the guarded values.
#[derive(Drop)]
pub struct Token<'a> {
    pub rows: &'a mut [u64],
    pub keys: &'a mut [u64],
    pub guards: &'a mut [u64],
    pub used: Counts,
}

// How many rows, stored keys, fresh atoms and guarded values there are: noted before a line, so that the line can be undone.
#[derive(Clone, Copy, PartialEq, Eq, Debug)]
pub struct Counts {
    pub rows: usize,
    pub keys: usize,
    pub atoms: usize,
    pub guards: usize,
}

// Why a call does not go on after a step: it ends with the value in a row, it stops, or there is no more room.
#[derive(Clone, Copy, PartialEq, Eq, Debug)]
pub enum Halt {
    Ended(usize),
    Stopped,
    Full(Full),
}

// Sixteen bits hold a row, and eight a template; the highest one marks that the place is in use.
fn key_code(h: usize, k: usize, t: u8) -> u64
    requires { (h < 65536) × (k < 65536) }
    ensures { result ≡ key_number h k t }
{
    1099511627776 + 16777216 * h as u64 + 256 * k as u64 + u64::from(t)
}

// What is computed from the values in rows x and y appears; None where there is no room for it.
fn computed(rows: &mut Filled<'_>, operation: Operation, x: usize, y: usize) -> Option<usize>
    requires { (rows.old.len ≤ 65536) × OperandsBelow operation x y rows.old.len }
    ensures same_table { SameTable rows.old rows.new }
    ensures appears { (vs : List Value) → Holds rows.old.table.now vs → rows.old.len ≡ length vs
        → AppearedIn (compute operation (operands operation (value_at vs x) (value_at vs y))) vs result rows.old rows.new }
{
    match operation {
        Operation::Encrypt => values::encrypt_rows(rows, x, y),
        Operation::Decrypt => values::decrypt_rows(rows, x, y),
        Operation::Derive(label) => values::derive_row(rows, usize::from(label), y),
    }
}

impl Token<'_> {
    // One more atom. It has no row yet, so it gets the next one; it is counted also where there is no room for its row.
    fn new_atom(&mut self) -> Result<usize, Halt>
        requires { AtomsFit self.old }
        ensures same_tables { SameTables self.old self.new }
        ensures keys_kept { KeysKept self.old self.new }
        ensures made { MakesAtom self.old.used (outcome_told result self.new.used)
            self.old.rows.now self.new.rows.now }
    {
        let k = self.used.atoms;
        self.used.atoms = k + 1;
        let mut rows = Filled {
            table: &mut *self.rows,
            len: self.used.rows,
        };
        let row = values::appear_new(&mut rows, k);
        self.used.rows = rows.len;
        row.ok_or(Halt::Full(Full::Rows))
    }

    // An atom for a handle, where there is a place for the key that it is to get: ending 33 comes before ending 32.
    fn new_handle(&mut self) -> Result<usize, Halt>
        requires { AtomsFit self.old }
        ensures same_tables { SameTables self.old self.new }
        ensures keys_kept { KeysKept self.old self.new }
        ensures made { MakesHandle (length self.old.keys.now) self.old.used (outcome_told result self.new.used)
            self.old.rows.now self.new.rows.now }
    {
        if self.used.keys < self.keys.len() {
            return self.new_atom();
        }
        Err(Halt::Full(Full::Keys))
    }

    // The value in row k is kept under the handle in row h, at the next place, and is guarded where that is asked for. The handle is given.
    fn keep(&mut self, h: usize, k: usize, t: u8, guarded: bool) -> usize
        requires { (self.old.used.keys < length self.old.keys.now) × (self.old.used.guards < length self.old.guards.now)
            × (h < 65536) × (k < 65536) }
        ensures same_tables { SameTables self.old self.new }
        ensures rows_kept { self.new.rows.now ≡ self.old.rows.now }
        ensures kept { Keeps self.old.used h k t guarded (Gave self.new.used result)
            self.old.keys.now self.old.guards.now self.new.keys.now self.new.guards.now }
    {
        self.keys[self.used.keys] = key_code(h, k, t);
        self.used.keys += 1;
        if guarded {
            self.guards[self.used.guards] = k as u64;
            self.used.guards += 1;
        }
        h
    }

    // A new handle, then a new key, which is guarded under S or A.
    fn generate(&mut self, t: u8) -> Result<usize, Halt>
        requires { ReadyIn self.old }
        ensures same_tables { SameTables self.old self.new }
        ensures performed { (σ : State) → Stands σ self.old → PerformsIn σ (generate (room_in self.old) t σ) result self.new }
    {
        let h = self.new_handle()?;
        let k = self.new_atom()?;
        Ok(self.keep(h, k, t, (t % 2 == 1) | (t / 2 % 2 == 1)))
    }

    // A new handle for the value in row x, which is guarded under A alone.
    fn store(&mut self, x: usize, t: u8) -> Result<usize, Halt>
        requires { ReadyIn self.old × (x < self.old.used.rows) }
        ensures same_tables { SameTables self.old self.new }
        ensures performed { (σ : State) → Stands σ self.old
            → PerformsIn σ (store (room_in self.old) (value_at σ.world.rows x) t σ) result self.new }
    {
        let h = self.new_handle()?;
        Ok(self.keep(h, x, t, t / 2 % 2 == 1))
    }

    // The stored key of the handle in row x, where its template has what the step asks for. It has a row already.
    #[tactic(auto, using(keys::proofs::Searching::stored_in_first))]
    fn get(&self, s: Step, x: usize) -> Result<usize, Halt>
        requires { (self.now.used.keys ≤ length self.now.keys.now) × (length self.now.keys.now ≤ 256) }
        ensures { outcome_told result self.now.used ≡ get_of self.now.keys.now self.now.used s x }
    {
        match keys::stored(&self.keys[..self.used.keys], x) {
            Some(found) if types::meets_template(s, found.template) => Ok(found.key),
            _ => Err(Halt::Stopped),
        }
    }

    // One step. x and y are the rows of the values that its fields a and b name, below the number of rows where the op uses them.
    pub fn perform_step(&mut self, s: Step, x: usize, y: usize) -> Result<usize, Halt>
        requires { ReadyIn self.old × Named s x y self.old.used.rows }
        ensures same_tables { SameTables self.old self.new }
        ensures performed { (σ : State) → Stands σ self.old
            → PerformsIn σ (perform (room_in self.old) (op_of s) s (value_at σ.world.rows x) (value_at σ.world.rows y) σ)
            result self.new }
    {
        match s.op() {
            Op::Return => Err(Halt::Ended(x)),
            Op::Get => self.get(s, x),
            Op::Generate => self.generate(s.t),
            Op::Store => self.store(x, s.t),
            Op::Compute(operation) => self.compute(operation, x, y),
            Op::Unknown => Err(Halt::Stopped),
        }
    }

    // An operation over the values in rows x and y, where it uses them.
    pub fn compute(&mut self, operation: Operation, x: usize, y: usize) -> Result<usize, Halt>
        requires { ReadyIn self.old × OperandsBelow operation x y self.old.used.rows }
        ensures same_tables { SameTables self.old self.new }
        ensures performed { (σ : State) → Stands σ self.old
            → PerformsIn σ
            (appear (room_in self.old) (compute operation (operands operation (value_at σ.world.rows x) (value_at σ.world.rows y))) σ)
            result self.new }
    {
        let mut rows = Filled {
            table: &mut *self.rows,
            len: self.used.rows,
        };
        let row = computed(&mut rows, operation, x, y);
        self.used.rows = rows.len;
        row.ok_or(Halt::Full(Full::Rows))
    }

    // Back to the counts of an earlier state of the same line: what the line has added since is made unused again.
    pub fn undo_line(&mut self, earlier: Counts)
        requires { (earlier.rows ≤ self.old.used.rows) × (self.old.used.rows ≤ length self.old.rows.now)
            × (earlier.keys ≤ self.old.used.keys) × (self.old.used.keys ≤ length self.old.keys.now) }
        ensures same_tables { SameTables self.old self.new }
        ensures counted { self.new.used ≡ earlier }
        ensures guards_kept { self.new.guards.now ≡ self.old.guards.now }
        ensures undone { (σ σ' : State) (guards : List ℕ) → Tidy σ → Carries σ' self.old.rows.now self.old.keys.now guards → Extends σ σ'
            → earlier ≡ counts_of σ → self.old.used ≡ counts_of σ' → Carries σ self.new.rows.now self.new.keys.now guards }
    {
        let mut rows = Filled {
            table: &mut *self.rows,
            len: self.used.rows,
        };
        rows.truncate(earlier.rows);
        let mut keys = Filled {
            table: &mut *self.keys,
            len: self.used.keys,
        };
        keys.truncate(earlier.keys);
        // Nobody looks at the guards past their count, so they need not be cleared.
        self.used = earlier;
    }
}
