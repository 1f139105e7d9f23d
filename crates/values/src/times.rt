// Dates and times as text, at the start of a room of 48 bytes. Each function answers the text's length.
ghost use Rattle.std.specs.Prelude.{◌≡◌, ◌∷◌, ◌+◌, ◌/◌, ◌<◌, ◌≤◌, length, take};
ghost use Rattle.io.specs.Counts.{IsPrefixLen};
ghost use Rattle.io.specs.Digits.{last_digits};
ghost use Rattle.values.specs.Spelling.{Wrote, places};
ghost use Rattle.values.specs.Times.{year_text, date_text, clock_text, moment_of, time_text, moment_text};

use crate::{calendar, spelling};

// A year of more than four digits, or before the year 0, has a sign.
fn put_year(out: &mut [u8], year: i64) -> usize
    requires { 48 ≤ length out.old }
    ensures { (result ≤ 21) × Wrote out.old out.new 0 (length (year_text year)) (year_text year) result }
{
    let size = year.unsigned_abs();
    if year < 0 {
        let at = spelling::mark(out, 0, b'-');
        return spelling::padded(out, at, 4, size);
    }
    if 10000 <= size {
        let at = spelling::mark(out, 0, b'+');
        return spelling::padded(out, at, 4, size);
    }
    spelling::digits(out, 0, 4, size)
}

fn put_date(out: &mut [u8], days: i64) -> usize
    requires { 48 ≤ length out.old }
    ensures { (result ≤ 27) × Wrote out.old out.new 0 (length (date_text days)) (date_text days) result }
{
    let day = calendar::day_of(days);
    let at = put_year(out, day.year);
    let month = spelling::mark(out, at, b'-');
    let next = spelling::digits(out, month, 2, u64::from(day.month));
    let last = spelling::mark(out, next, b'-');
    spelling::digits(out, last, 2, u64::from(day.day))
}

// 08:30:00
fn put_clock(out: &mut [u8], at: usize, seconds: u64) -> usize
    requires { at + places 2 (seconds / 3600) + 6 ≤ length out.old }
    ensures { Wrote out.old out.new at (places 2 (seconds / 3600) + 6) (clock_text seconds) result }
{
    let hour = spelling::padded(out, at, 2, seconds / 3600);
    let minute = spelling::mark(out, hour, b':');
    let next = spelling::digits(out, minute, 2, seconds / 60 % 60);
    let second = spelling::mark(out, next, b':');
    spelling::digits(out, second, 2, seconds % 60)
}

fn put_fraction(out: &mut [u8], at: usize, count: usize, fraction: u64) -> usize
    requires { at + (1 + count) ≤ length out.old }
    ensures { Wrote out.old out.new at (1 + count) (46 ∷ last_digits 10 count fraction) result }
{
    let dot = spelling::mark(out, at, b'.');
    spelling::digits(out, dot, count, fraction)
}

fn put_moment(out: &mut [u8], days: i64, seconds: u64, fraction: u64, count: usize) -> usize
    requires { (48 ≤ length out.old) × (seconds < 86400) × (count ≤ 9) }
    ensures { (result ≤ 48) × Wrote out.old out.new 0 (length (moment_of days seconds fraction count)) (moment_of days seconds fraction count) result }
{
    let day = put_date(out, days);
    let hour = spelling::mark(out, day, b'T');
    let dot = put_clock(out, hour, seconds);
    let end = put_fraction(out, dot, count, fraction);
    spelling::mark(out, end, b'Z')
}

// 2026-11-17, for a number of days since 2000-01-01.
pub fn date(days: i64, out: &mut [u8; 48]) -> usize
    ensures prefix_len { IsPrefixLen result out.new }
    ensures out_after { take result out.new ≡ date_text days }
{
    put_date(out, days)
}

// A time of day in parts of a second: `unit` of them are one, and their number has `count` digits.
fn put_time(out: &mut [u8], unit: u64, count: usize, n: u64) -> usize
    requires { (48 ≤ length out.old) × (0 < unit) × (count ≤ 9) }
    ensures { (result ≤ 48) × Wrote out.old out.new 0 (length (time_text unit count n)) (time_text unit count n) result }
{
    let dot = put_clock(out, 0, n / unit);
    put_fraction(out, dot, count, n % unit)
}

// A moment in such parts since 1970-01-01.
fn put_instant(out: &mut [u8], unit: u64, count: usize, n: i64) -> usize
    requires { (48 ≤ length out.old) × (0 < unit) × (unit ≤ 1000000000) × (count ≤ 9) }
    ensures { (result ≤ 48) × Wrote out.old out.new 0 (length (moment_text unit count n)) (moment_text unit count n) result }
{
    let long = (86400 * unit) as i64;
    let days = n.div_euclid(long) - 10957;
    let part = n.rem_euclid(long) as u64;
    put_moment(out, days, part / unit, part % unit, count)
}

// 08:30:00.123, for a number of milliseconds since midnight.
pub fn time_of_day_milli(ms: u64, out: &mut [u8; 48]) -> usize
    ensures prefix_len { IsPrefixLen result out.new }
    ensures out_after { take result out.new ≡ time_text 1000 3 ms }
{
    put_time(out, 1000, 3, ms)
}

// 08:30:00.123456789
pub fn time_of_day_nano(ns: u64, out: &mut [u8; 48]) -> usize
    ensures prefix_len { IsPrefixLen result out.new }
    ensures out_after { take result out.new ≡ time_text 1000000000 9 ns }
{
    put_time(out, 1000000000, 9, ns)
}

// 2026-11-17T08:30:00.123Z, for a number of milliseconds since 1970-01-01.
pub fn millitime(ms: i64, out: &mut [u8; 48]) -> usize
    ensures prefix_len { IsPrefixLen result out.new }
    ensures out_after { take result out.new ≡ moment_text 1000 3 ms }
{
    put_instant(out, 1000, 3, ms)
}

// 2026-11-17T08:30:00.123456789Z
pub fn nanotime(ns: i64, out: &mut [u8; 48]) -> usize
    ensures prefix_len { IsPrefixLen result out.new }
    ensures out_after { take result out.new ≡ moment_text 1000000000 9 ns }
{
    put_instant(out, 1000000000, 9, ns)
}
