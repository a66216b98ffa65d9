// Values as rows of a lent table: each row a number that codes a kind of value with the rows of its parts.
// The inner functions' contracts speak of the numbers alone; those of the public functions, of the values that they hold.
// Kept: `Holds` of every list of values, in each contract. No list goes through the code, and a ghost field that had one would stand in
// the tables of keys too, which hold none.
// Kept: `as` between `usize` and `u64`, or to fewer bits. Rust has no `From` there, and the check proves that nothing is lost.
#![tactic(auto)]

ghost use Rattle.std.specs.Prelude.{◌≡◌, false, List, ◌≤◌, ◌<◌, eqb, length, take, position};
ghost use Rattle.model.specs.Value.{Value, const, fresh, enc, div, is_const, decrypt, present, value_at};
ghost use Rattle.model.specs.Tables.{packed};
ghost use Rattle.values.specs.Filled.{SameTable, Pushed, NotPushed};
ghost use Rattle.values.specs.Holds.{Holds, AppearedIn};
ghost use Rattle.values.specs.Coding.{RowFits, code_row, decode_row, constant_read, undone_read};
ghost use Rattle.values.specs.Interning.{InternsIn};

use crate::Filled;

// One case for each kind of value; the parts of an encryption and of an undone encryption are earlier rows, and so is what a value is
// derived from, after the label.
#[derive(Clone, Copy, PartialEq, Eq, Debug)]
pub enum Row {
    Const(usize),
    Fresh(usize),
    Enc(usize, usize),
    Dec(usize, usize),
    Div(usize, usize),
}

impl Row {
    // The number that codes it: its kind, and two parts of sixteen bits, which hold the own number of a constant or an atom, a
    // label, or one of at most 65,536 rows.
    fn code(self) -> u64
        requires { RowFits self }
        ensures { result ≡ code_row self }
    {
        let (kind, a, b) = match self {
            Row::Const(n) => (1, 0, n),
            Row::Fresh(n) => (2, 0, n),
            Row::Enc(a, b) => (3, a, b),
            Row::Dec(a, b) => (4, a, b),
            Row::Div(a, b) => (5, a, b),
        };
        kind * 4294967296 + a as u64 * 65536 + b as u64
    }

    // The row of a number; a kind that no row has is that of an unused place, as are the zeros after the rows.
    #[tactic(auto, unfolding(crate::specs::Coding::decode_row))]
    fn decode(x: u64) -> Option<Row>
        ensures { result ≡ decode_row x }
    {
        let a = (x / 65536 % 65536) as usize;
        let b = (x % 65536) as usize;
        match x / 4294967296 {
            1 => Some(Row::Const(b)),
            2 => Some(Row::Fresh(b)),
            3 => Some(Row::Enc(a, b)),
            4 => Some(Row::Dec(a, b)),
            5 => Some(Row::Div(a, b)),
            _ => None,
        }
    }
}

// The row of the number x, where it has one.
fn find_code(rows: &Filled<'_>, x: u64) -> Option<usize>
    ensures { result ≡ position (eqb x) (take rows.now.len rows.now.table.now) }
{
    rows.used().iter().position(|code| x == *code)
}

// A row that is there already, by its number, is not added again.
fn intern(rows: &mut Filled<'_>, row: Row) -> Option<usize>
    requires { RowFits row }
    ensures same_table { SameTable rows.old rows.new }
    ensures interns { InternsIn rows.old (code_row row) result rows.new }
{
    let x = row.code();
    if let Some(i) = find_code(rows, x) {
        return Some(i);
    }
    rows.push(x)
}

// A constant appears. The answer is its row, as for all that appear, or nothing where there is no room for one.
pub fn appear_const(rows: &mut Filled<'_>, k: usize) -> Option<usize>
    requires { k < 65536 }
    ensures same_table { SameTable rows.old rows.new }
    ensures appears { (vs : List Value) → Holds rows.old.table.now vs → rows.old.len ≡ length vs
        → AppearedIn (const k) vs result rows.old rows.new }
{
    intern(rows, Row::Const(k))
}

// A fresh atom appears, of which the caller knows that it has no row yet.
pub fn appear_new(rows: &mut Filled<'_>, k: usize) -> Option<usize>
    requires { k < 65536 }
    ensures same_table { SameTable rows.old rows.new }
    ensures appears { (vs : List Value) → Holds rows.old.table.now vs → rows.old.len ≡ length vs → present (fresh k) vs ≡ false
        → AppearedIn (fresh k) vs result rows.old rows.new }
    ensures with_room { rows.old.len < length rows.old.table.now → Pushed rows.old (packed 2 0 k) result rows.new }
    ensures full { length rows.old.table.now ≤ rows.old.len → NotPushed rows.old result rows.new }
{
    rows.push(Row::Fresh(k).code())
}

// The encryption of row a under row b appears.
pub fn encrypt_rows(rows: &mut Filled<'_>, a: usize, b: usize) -> Option<usize>
    requires { (rows.old.len ≤ 65536) × (a < rows.old.len) × (b < rows.old.len) }
    ensures same_table { SameTable rows.old rows.new }
    ensures appears { (vs : List Value) → Holds rows.old.table.now vs → rows.old.len ≡ length vs
        → AppearedIn (enc (value_at vs a) (value_at vs b)) vs result rows.old rows.new }
{
    intern(rows, Row::Enc(a, b))
}

// An encryption is undone by the row of its own key only: the row that was encrypted.
fn undo(x: u64, b: usize) -> Option<usize>
    ensures { result ≡ undone_read (decode_row x) b }
{
    match Row::decode(x) {
        Some(Row::Enc(v, k)) if k == b => Some(v),
        _ => None,
    }
}

// What decrypting row a under row b gives appears: what was encrypted, or else a value of its own.
pub fn decrypt_rows(rows: &mut Filled<'_>, a: usize, b: usize) -> Option<usize>
    requires { (rows.old.len ≤ 65536) × (a < rows.old.len) × (b < rows.old.len) }
    ensures same_table { SameTable rows.old rows.new }
    ensures appears { (vs : List Value) → Holds rows.old.table.now vs → rows.old.len ≡ length vs
        → AppearedIn (decrypt (value_at vs a) (value_at vs b)) vs result rows.old rows.new }
{
    if let Some(v) = undo(rows.table[a], b) {
        return Some(v);
    }
    intern(rows, Row::Dec(a, b))
}

// What is derived from row b under the label appears.
pub fn derive_row(rows: &mut Filled<'_>, label: usize, b: usize) -> Option<usize>
    requires { (rows.old.len ≤ 65536) × (label < 65536) × (b < rows.old.len) }
    ensures same_table { SameTable rows.old rows.new }
    ensures appears { (vs : List Value) → Holds rows.old.table.now vs → rows.old.len ≡ length vs
        → AppearedIn (div label (value_at vs b)) vs result rows.old rows.new }
{
    intern(rows, Row::Div(label, b))
}

// Whether a number codes a constant.
fn codes_constant(x: u64) -> bool
    ensures { result ≡ constant_read (decode_row x) }
{
    matches!(Row::decode(x), Some(Row::Const(_)))
}

// Whether a row is a constant.
#[tactic(auto, using(crate::proofs::Steps::constant_by_number))]
pub fn is_constant(rows: &[u64], i: usize) -> bool
    requires { i < length rows.now }
    ensures { (vs : List Value) → Holds rows.now vs → i < length vs → result ≡ is_const (value_at vs i) }
{
    codes_constant(rows[i])
}
