// Stored keys: the search for a handle over the packed numbers, and the thin lookup over a lent slice of key records above it.
// A caller has a plain slice and a number only: `stored` makes the records and lends them.
// Kept: `as` between `usize` and `u64`, or to fewer bits. Rust has no `From` there, and the check proves that nothing is lost.
#![tactic(auto)]

ghost use Rattle.std.specs.Prelude.{◌≡◌, ◌≤◌, ◌<◌, eqb, length, get_or, position};
ghost use Rattle.keys.specs.Stored.{handle_of, no_record, record_of, records_of, stored_of};

// A stored key: the rows of its handle and of its value, and its template. Where there is no key, all are 0.
#[derive(Clone, Copy, PartialEq, Eq, Debug, Default)]
pub struct KeyRecord {
    pub handle: usize,
    pub key: usize,
    pub template: u8,
}

// The record that a stored key's number packs.
impl From<u64> for KeyRecord {
    ghost use Rattle.std.specs.Prelude.{◌≡◌};
    ghost use Rattle.keys.specs.Stored.{record_of};

    ghost from_gives = { λ code r. r ≡ record_of code };

    fn from(code: u64) -> KeyRecord {
        KeyRecord {
            handle: (code / 16777216 % 65536) as usize,
            key: (code / 256 % 65536) as usize,
            template: (code % 64) as u8,
        }
    }
}

// The place of the first stored key whose handle is in row x.
fn find_handle(keys: &[u64], x: usize) -> Option<usize>
    ensures { result ≡ position (λ code. eqb x (handle_of code)) keys.now }
{
    keys.iter()
        .position(|code| x == KeyRecord::from(*code).handle)
}

// The records of the stored keys; those after them are empty.
// Kept: an array, since the project has no heap, and of all keys, since the lookup goes over a lent slice of records.
fn records(keys: &[u64]) -> [KeyRecord; 256]
    requires { length keys.now ≤ 256 }
    ensures { result ≡ records_of keys.now (length keys.now) }
{
    let mut recs = [KeyRecord::default(); 256];
    for k in 0..keys.len() {
        recs[k] = KeyRecord::from(keys[k]);
    }
    recs
}

// The thin lookup: the record at the place that a search over the numbers has found.
fn lookup(recs: &[KeyRecord], i: usize) -> KeyRecord
    requires { i < length recs.now }
    ensures { result ≡ get_or recs.now i no_record }
{
    recs[i]
}

// The stored key at place i: the records are made here, and lent for the lookup.
#[tactic(auto, using(crate::proofs::Unpacking::record_at))]
fn found_at(keys: &[u64], i: usize) -> KeyRecord
    requires { (length keys.now ≤ 256) × (i < length keys.now) }
    ensures { result ≡ record_of (get_or keys.now i 0) }
{
    let recs = records(keys);
    lookup(&recs, i)
}

// The first stored key whose handle is in row x. Of a table that has places left its first ones are lent, those in use; what is said
// of them is said of the table with their count (`stored_in_first`).
pub fn stored(keys: &[u64], x: usize) -> Option<KeyRecord>
    requires { length keys.now ≤ 256 }
    ensures { result ≡ stored_of keys.now (length keys.now) x }
{
    let i = find_handle(keys, x)?;
    Some(found_at(keys, i))
}
