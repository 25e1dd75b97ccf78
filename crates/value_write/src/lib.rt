//! From a value to its bytes: "the shortest digits that read as the value, - only below zero".
#![tactic(auto)]

ghost use Rattle.std.specs.Prelude.{◌≡◌, ◌+◌, ◌-◌, ◌/◌, ◌≤◌, ◌<◌, ◌^◌, length};
ghost use Rattle.std.proofs.lemmas.List.Edits.{sets};
ghost use Rattle.meaning.specs.Digits.{last_digits, digits_of, sign_of, pointed, number_bytes, date_bytes};
ghost use Rattle.value_write.specs.Written.{point_size, value_bytes};

// The count of the shortest digits, `least` at least.
fn count_digits(n: u64, least: usize) -> usize
    requires { (n < 10 ^ 19) × (0 < least) × (least ≤ 19) }
    ensures { (least ≤ result) × (result ≤ 19) × (digits_of least n ≡ last_digits result n) }
{
    let mut size: usize = 1;
    let mut limit: u64 = 10;
    // By hand: limits that grow, since a division for each digit is slower (docs/DECISIONS.md).
    while limit <= n {
        limit *= 10;
        size += 1;
    }
    size.max(least)
}

// Fills a part with the last digits of n; what is left of n is the answer.
fn put_last(n: u64, out: &mut [u8]) -> u64
    ensures left { result ≡ n / 10 ^ length out.old }
    ensures digits { out.new ≡ last_digits (length out.old) n }
{
    let mut rest = n;
    for i in (0..out.len()).rev() {
        out[i] = 0x30 + (rest % 10) as u8;
        rest /= 10;
    }
    rest
}

// The room of the point: none without decimals.
fn point_size(decimals: usize) -> usize
    ensures { result ≡ point_size decimals }
{
    usize::from(decimals != 0)
}

// Fills a part with the last digits of n and the point before the decimals.
fn put_pointed(n: u64, decimals: usize, out: &mut [u8])
    requires { (0 < decimals) × (decimals < length out.old) }
    ensures { out.new ≡ pointed decimals (last_digits (length out.old - 1) n) }
{
    let point = out.len() - 1 - decimals;
    let whole = put_last(n, &mut out[point + 1..]);
    put_last(whole, &mut out[0..point]);
    out[point] = b'.';
}

// Fills a part with the last digits of n, with a point where there are decimals.
fn put_parts(n: u64, decimals: usize, out: &mut [u8])
    requires { decimals < length out.old }
    ensures { out.new
        ≡ pointed decimals (last_digits (length out.old - point_size decimals) n) }
{
    if decimals == 0 {
        put_last(n, out);
    } else {
        put_pointed(n, decimals, out);
    }
}

// "- only below zero"
fn put_sign(v: i64, out: &mut [u8]) -> usize
    requires { 0 < length out.old }
    ensures size { result ≡ length (sign_of v) }
    ensures bytes { out.new ≡ sets out.old 0 (sign_of v) }
{
    if v < 0 {
        out[0] = b'-';
        1
    } else {
        0
    }
}

// The sign, then the shortest digits with their point, in front of out.
fn put_value(v: i64, least: usize, decimals: usize, out: &mut [u8]) -> usize
    requires { (decimals < least) × (least ≤ 19) × (21 ≤ length out.old) }
    ensures size { result ≡ length (value_bytes least decimals v) }
    ensures few { result ≤ 21 }
    ensures bytes { out.new ≡ sets out.old 0 (value_bytes least decimals v) }
{
    let sign = put_sign(v, out);
    let n = v.unsigned_abs();
    let size = count_digits(n, least);
    let end = sign + size + point_size(decimals);
    put_parts(n, decimals, &mut out[sign..end]);
    end
}

// A number with so many decimals, as 00.05 never is: one digit before the point is the least.
pub fn put_number(v: i64, decimals: u8, out: &mut [u8]) -> usize
    requires { (decimals ≤ 9) × (21 ≤ length out.old) }
    ensures size { result ≡ length (number_bytes decimals v) }
    ensures few { result ≤ 21 }
    ensures bytes { out.new ≡ sets out.old 0 (number_bytes decimals v) }
{
    put_value(v, decimals as usize + 1, decimals as usize, out)
}

// A date has eight digits.
pub fn put_date(v: i64, out: &mut [u8]) -> usize
    requires { 21 ≤ length out.old }
    ensures size { result ≡ length (date_bytes v) }
    ensures few { result ≤ 21 }
    ensures bytes { out.new ≡ sets out.old 0 (date_bytes v) }
{
    put_value(v, 8, 0, out)
}

// The number of a leaf.
pub fn put_enumeration(v: i64, out: &mut [u8]) -> usize
    requires { 21 ≤ length out.old }
    ensures size { result ≡ length (number_bytes 0 v) }
    ensures few { result ≤ 21 }
    ensures bytes { out.new ≡ sets out.old 0 (number_bytes 0 v) }
{
    put_number(v, 0, out)
}
