// A lent table of which the first places are used, and what becomes of values that appear as its rows.
#![tactic(auto)]

ghost use Rattle.std.specs.Prelude.{◌≡◌, ◌≤◌, ◌<◌, length, take};

mod appearing;

pub use crate::appearing::{
    Row, appear_const, appear_new, decrypt_rows, derive_row, encrypt_rows, is_constant,
};

// A lent table of which the first `len` places are used.
#[derive(Drop)]
pub struct Filled<'a> {
    pub table: &'a mut [u64],
    pub len: usize,
    pub ghost fits: { len ≤ length table.now },
}

impl Filled<'_> {
    ghost use Rattle.values.specs.Filled.{SameTable, Pushed, NotPushed};
    ghost use Rattle.values.specs.Forgetting.{Forgets};

    // The places in use.
    pub fn used(&self) -> &[u64]
        ensures { result.now ≡ take self.now.len self.now.table.now }
    {
        &self.table[..self.len]
    }

    // The number x gets the next place, where there is one.
    pub fn push(&mut self, x: u64) -> Option<usize>
        ensures same_table { SameTable self.old self.new }
        ensures with_room { self.old.len < length self.old.table.now → Pushed self.old x result self.new }
        ensures full { length self.old.table.now ≤ self.old.len → NotPushed self.old result self.new }
    {
        let next = self.len;
        if next < self.table.len() {
            self.table[next] = x;
            self.len = next + 1;
            return Some(next);
        }
        None
    }

    // The places from `len` on are made unused again.
    pub fn truncate(&mut self, len: usize)
        requires { len ≤ self.old.len }
        ensures same_table { SameTable self.old self.new }
        ensures forgets { Forgets len self.old.len self.old.table.now self.new.table.now }
        ensures used { self.new.len ≡ len }
    {
        self.table[len..self.len].fill(0);
        self.len = len;
    }
}
