//! Finding an identification among the objects read so far, over working room that the caller lends.
//! What is found depends on the objects alone: neither on the index's length nor on the seed. Too short an index only
//! costs time.
#![tactic(auto)]

ghost use Rattle.std.specs.Prelude.{◌≡◌, true, false, ◌+◌, ◌*◌, ◌-◌, ◌/◌, ◌%◌, ◌≤◌, ◌<◌, IfSome, length, get_or};
ghost use Rattle.std.specs.Prelude.{replicate};
ghost use Rattle.meaning.specs.Reading.{stretch, is_used};
ghost use Rattle.meaning.specs.Table.{find_object};
ghost use Rattle.table_index.specs.Objects.{is_named, in_table};
ghost use Rattle.table_index.specs.Read.{identifications, objects_read, last_of, Listed, Known};
ghost use Rattle.table.specs.Rows.{Row};
ghost use Rattle.table_index.specs.Index.{mix_of, hash_of, Chained, usable_of, Indexed, chain_of, insert_of};
ghost use Rattle.table_index.specs.Holds.{found_of};

// The objects read so far: the text, their rows and cells, and the index, which has so many of them.
#[derive(Clone, Copy)]
pub struct Objects<'a> {
    pub text: &'a [u8],
    pub rows: &'a [u64],
    pub cells: &'a [i64],
    pub index: &'a [u64],
    pub count: usize,
    pub seed: u64,
}

// One byte more in the hash: no product wraps, as the factor is at most 2 ^ 30.
fn mix(k: u64, h: u64, b: u8) -> u64
    requires k_bound { k ≤ 1073741824 }
    requires h_bound { h < 4294967296 }
    ensures value { result ≡ mix_of k h b }
    ensures upper_bound { result < 4294967296 }
{
    let x = h * k + u64::from(b);
    x / 2147483648 + x % 2147483648
}

// The hash of an identification. With a seed that no one can guess, no file can be made to fill one chain. What is
// added to the seed keeps a small one, as 0, from making a small factor, under which ordinary identifications would
// share their hashes.
pub fn hash(identification: &[u8], seed: u64) -> u64
    ensures value { result ≡ hash_of seed identification.now }
    ensures upper_bound { result < 4294967296 }
{
    let k = (seed % 1073741824 + 663608941) % 1073741824 + 1;
    let mut h = 1;
    for b in identification {
        h = mix(k, h, *b);
    }
    h
}

// Where the head of a hash stands in the index, behind a link for each row.
fn head_at(hash: u64, rows: usize, index: usize) -> usize
    requires { rows < index }
    ensures value { result ≡ rows + hash % (index - rows) }
    ensures upper_bound { result < index }
{
    let heads = index - rows;
    rows + hash as usize % heads
}

// Whether there is a link for each row, and a head.
fn is_usable(rows: usize, index: usize) -> bool
    ensures { result ≡ usable_of rows index }
{
    rows < index && rows < 4294967295
}

impl Objects<'_> {
    // Whether an object has this identification.
    fn is_named(&self, object: usize, identification: &[u8]) -> bool
        requires object_in_bounds { object < length self.now.rows.now }
        requires row { Row self.now.text.now self.now.cells.now (get_or self.now.rows.now object 0) }
        ensures { result ≡ is_named (identifications self.now) identification.now object }
    {
        let row = self.rows[object] as usize;
        let name = table::rows::identification_at(self.cells, row);
        value_read::stretches::same_identification(
            &self.text[name.start..name.start + name.len],
            identification,
        )
    }

    // Whether the object that a word leads to has this identification: hashes first.
    fn is_led(&self, object: usize, identification: &[u8], word: u64, hash: u64) -> bool
        requires object_in_bounds { object < length self.now.rows.now }
        requires row { Row self.now.text.now self.now.cells.now (get_or self.now.rows.now object 0) }
        requires other_hash { (word / 4294967296 ≡ hash → ⊥)
            → is_named (identifications self.now) identification.now object ≡ false }
        ensures { result ≡ is_named (identifications self.now) identification.now object }
    {
        word / 4294967296 == hash && self.is_named(object, identification)
    }

    // The object that has this identification, by the chain of the identification's head.
    fn find_chained(&self, hash: u64, identification: &[u8]) -> Option<usize>
        requires rows_listed { Listed self.now }
        requires index_value { usable_of (length self.now.rows.now) (length self.now.index.now) ≡ true }
        requires chained { Chained self.now.seed (identifications self.now)
            (length self.now.rows.now) self.now.index.now self.now.count }
        requires hash_value { hash ≡ hash_of self.now.seed identification.now }
        ensures { result ≡ last_of self.now identification.now }
    {
        let head = head_at(hash, self.rows.len(), self.index.len());
        let mut word = self.index[head];
        // A chain: how many words it has is not known before it ends.
        while 0 < word {
            let o = (word % 4294967296) as usize - 1;
            if self.is_led(o, identification, word, hash) {
                return Some(o);
            }
            word = self.index[o];
        }
        None
    }

    // One object after the other, from the last.
    fn find_scanned(&self, identification: &[u8]) -> Option<usize>
        requires { Listed self.now }
        ensures { result ≡ last_of self.now identification.now }
    {
        for o in (0..self.count).rev() {
            if self.is_named(o, identification) {
                return Some(o);
            }
        }
        None
    }

    // The object that has this identification. The caller has the identification's hash.
    fn find_hashed(&self, hash: u64, identification: &[u8]) -> Option<usize>
        requires rows_listed { Listed self.now }
        requires indexed { Indexed self.now.seed self.now.text.now self.now.rows.now self.now.cells.now
            self.now.index.now self.now.count }
        requires hash_value { hash ≡ hash_of self.now.seed identification.now }
        ensures { result ≡ last_of self.now identification.now }
    {
        if is_usable(self.rows.len(), self.index.len()) {
            self.find_chained(hash, identification)
        } else {
            self.find_scanned(identification)
        }
    }

    // Whether one of the objects has this identification ("identifications are unique in the file").
    pub fn is_used(&self, hash: u64, identification: &[u8]) -> bool
        requires objects_known { Known self.now }
        requires hash_value { hash ≡ hash_of self.now.seed identification.now }
        ensures { result ≡ is_used identification.now (objects_read self.now) }
    {
        self.find_hashed(hash, identification).is_some()
    }

    // The object that is found, if it is of this table.
    fn find_in_table(&self, found: Option<usize>, table: usize) -> Option<usize>
        requires { IfSome found (λ o. o < length self.now.rows.now) }
        ensures { found_of result ≡ in_table self.now.rows.now self.now.cells.now table found }
    {
        let o = found?;
        let row = self.rows[o] as usize;
        if table::cells::size_at(self.cells, row) == table {
            Some(o)
        } else {
            None
        }
    }

    // The object of this table that has the identification of so many bytes from `start` on.
    pub fn find_reference(&self, table: usize, start: usize, size: usize) -> Option<usize>
        requires objects_known { Known self.now }
        requires size_in_bounds { start + size ≤ length self.now.text.now }
        ensures { found_of result
            ≡ find_object table 0 (stretch self.now.text.now start size) (objects_read self.now) }
    {
        let identification = &self.text[start..start + size];
        let found = self.find_hashed(hash(identification, self.seed), identification);
        self.find_in_table(found, table)
    }
}

// Puts an object, with the hash of its identification, in front of the chain that this head leads to.
fn chain(index: &mut [u64], head: usize, object: usize, hash: u64)
    requires head_in_bounds { head < length index.old }
    requires object_in_bounds { object < length index.old }
    requires object_bound { object < 4294967295 }
    requires hash_bound { hash < 4294967296 }
    ensures { index.new ≡ chain_of index.old head object hash }
{
    index[object] = index[head];
    index[head] = object as u64 + 1 + 4294967296 * hash;
}

// Puts an object behind those that the index has, with the hash of its identification; `rows` is the row list's length.
pub fn insert(index: &mut [u64], rows: usize, object: usize, hash: u64)
    requires object_lt_rows { object < rows }
    requires hash_bound { hash < 4294967296 }
    ensures { index.new ≡ insert_of index.old rows object hash }
{
    if is_usable(rows, index.len()) {
        let head = head_at(hash, rows, index.len());
        chain(index, head, object, hash);
    }
}

// All zeros: the index of no object.
pub fn clear(index: &mut [u64])
    ensures { index.new ≡ replicate (length index.old) 0 }
{
    index.fill(0);
}
