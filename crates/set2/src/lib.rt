//! Scan code set 2 of PS/2 keyboards: the key that each scan code stands for.
#![tactic(auto)]

ghost use Rattle.std.specs.Prelude.{◌≡◌, slice_index};
ghost use Rattle.set2.specs.Rows.{by_code};
ghost use Rattle.set2.specs.Set2.{key_of, number_of, OneToOne};

/// The two tables of scan codes.
#[derive(Clone, Copy, PartialEq, Eq, Debug)]
pub enum Table {
    /// The code stands alone.
    Plain,
    /// The code follows the byte E0.
    Extended,
}

// A code without a key. A number, and not `Option<u16>`: rows of `Some(67)` no longer read like the published tables.
const __: u16 = 0;

// The keys of the plain scan codes: eight codes to a row, the first of them beside it.
const PLAIN: [[u16; 8]; 17] = [
    [__, 67, __, 63, 61, 59, 60, 88], // 00
    [__, 68, 66, 64, 62, 15, 41, __], // 08
    [__, 56, 42, __, 29, 16, 2, __], // 10
    [__, __, 44, 31, 30, 17, 3, __], // 18
    [__, 46, 45, 32, 18, 5, 4, __], // 20
    [__, 57, 47, 33, 20, 19, 6, __], // 28
    [__, 49, 48, 35, 34, 21, 7, __], // 30
    [__, __, 50, 36, 22, 8, 9, __], // 38
    [__, 51, 37, 23, 24, 11, 10, __], // 40
    [__, 52, 53, 38, 39, 25, 12, __], // 48
    [__, __, 40, __, 26, 13, __, __], // 50
    [58, 54, 28, 27, __, 43, __, __], // 58
    [__, __, __, __, __, __, 14, __], // 60
    [__, 79, __, 75, 71, __, __, __], // 68
    [82, 83, 80, 76, 77, 72, 1, 69], // 70
    [87, 78, 81, 74, 55, 73, 70, __], // 78
    [__, __, __, 65, __, __, __, __], // 80
];

// The keys of the scan codes that follow the byte E0.
const EXTENDED: [[u16; 8]; 16] = [
    [__, __, __, __, __, __, __, __], // 00
    [__, __, __, __, __, __, __, __], // 08
    [__, 100, __, __, 97, __, __, __], // 10
    [__, __, __, __, __, __, __, __], // 18
    [__, __, __, __, __, __, __, __], // 20
    [__, __, __, __, __, __, __, __], // 28
    [__, __, __, __, __, __, __, __], // 30
    [__, __, __, __, __, __, __, __], // 38
    [__, __, __, __, __, __, __, __], // 40
    [__, __, 98, __, __, __, __, __], // 48
    [__, __, __, __, __, __, __, __], // 50
    [__, __, 96, __, __, __, __, __], // 58
    [__, __, __, __, __, __, __, __], // 60
    [__, 107, __, 105, 102, __, __, __], // 68
    [110, 111, 108, __, 106, 103, __, __], // 70
    [__, __, 109, __, 99, 104, __, __], // 78
];

// The number that rows of eight codes have for a code, 0 past the last row.
#[tactic(auto, using(crate::proofs::Rows::filled_same))]
fn entry(rows: &[[u16; 8]], code: u8) -> u16
    ensures { result ≡ slice_index (by_code rows.now) code }
{
    let keys = rows.as_flattened();
    keys.get(usize::from(code)).copied().unwrap_or(__)
}

// The number that a table has for a code.
fn number(table: Table, code: u8) -> u16
    ensures { result ≡ number_of table code }
{
    match table {
        Table::Plain => entry(&PLAIN, code),
        Table::Extended => entry(&EXTENDED, code),
    }
}

/// The key that a scan code stands for.
#[tactic(auto, using(crate::proofs::Tables::one_to_one), unfolding(crate::specs::Set2::key_of))]
pub fn key(table: Table, code: u8) -> Option<u16>
    ensures value { result ≡ key_of table code }
    ensures tables { OneToOne }
{
    let key = number(table, code);
    (key != __).then_some(key)
}

#[cfg(test)]
mod tests;
