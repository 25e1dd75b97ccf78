// Dates and enumerations.
ghost use Rattle.std.specs.Prelude.{◌≡◌};
ghost use Rattle.meaning.specs.Value.{is_leap_year, days_of_month, is_day, date_of, enumeration_of};
ghost use Rattle.value_read.specs.Meant.{value_meant};

use crate::digits;
use base::reasons::Reason;

// A leap year of the Gregorian calendar; year 0000 is one.
fn is_leap_year(year: u64) -> bool
    ensures { result ≡ is_leap_year year }
{
    if year % 100 == 0 {
        year % 400 == 0
    } else {
        year % 4 == 0
    }
}

// How many days a month 01 to 12 has.
fn days_of_month(year: u64, month: u64) -> u64
    ensures { result ≡ days_of_month year month }
{
    match month {
        2 => if is_leap_year(year) { 29 } else { 28 },
        4 | 6 | 9 | 11 => 30,
        _ => 31,
    }
}

// "month 01 to 12", and a day that the calendar knows.
pub fn is_day(year: u64, month: u64, day: u64) -> bool
    ensures { result ≡ is_day year month day }
{
    match month {
        1..=12 => 1 <= day && day <= days_of_month(year, month),
        _ => false,
    }
}

// "Date: eight digits"
pub fn read_date(field: &[u8]) -> Result<(i64, i64), Reason>
    ensures { value_meant result ≡ date_of field.now }
{
    if field.len() != 8 {
        return Err(Reason::WrongShape);
    }
    let n = digits::read_digits(0, 0, field).ok_or(Reason::WrongShape)?;
    crate::judge(is_day(n / 10000, n / 100 % 100, n % 100), n as i64)
}

// "Enumeration: 1 to 18 digits, below the count of leaves"
pub fn read_enumeration(field: &[u8], leaves: u64) -> Result<(i64, i64), Reason>
    ensures { value_meant result ≡ enumeration_of leaves field.now }
{
    let n = digits::read_count(field).ok_or(Reason::WrongShape)?;
    crate::judge(n < leaves, n as i64)
}
