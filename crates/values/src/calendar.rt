// Days by their number, as the calendar names them: proleptic Gregorian, years numbered as astronomers do (the year
// before 1 is 0).
//
// A year is taken to begin in March here, so that the leap day is its last. 400 such years, 146097 days, are a round.
ghost use Rattle.std.specs.Prelude.{◌≡◌, ◌+◌, ◌<◌, ◌≤◌, ◌^◌};
ghost use Rattle.values.specs.Calendar.{year_start, year_in, day_in, day_of};

#[derive(Clone, Copy)]
pub struct Day {
    pub year: i64,
    pub month: u8,
    pub day: u8,
}

// How many days of the round come before its year y.
#[tactic(auto, unfolding(crate::specs::Calendar::year_start))]
fn year_start(y: u64) -> u64
    requires { y < 400 }
    ensures { result ≡ year_start y }
{
    365 * y + y / 4 - y / 100
}

// The year of the round that has its day n. The last hundred of a round and the last year of four are a day longer
// than the others, so that a fifth never begins.
fn year_in(n: u64) -> u64
    requires { n < 146097 }
    ensures { (result ≡ year_in n) × (result < 400) × (year_start result ≤ n) × (n < year_start result + 366) }
{
    let hundreds = (n / 36524).min(3);
    let rest = n - 36524 * hundreds;
    let ones = (rest % 1461 / 365).min(3);
    100 * hundreds + 4 * (rest / 1461) + ones
}

// Day n of the round that begins in March of the year `from - less`: no signed year, as `day_in` of specs/ has it.
fn day_in(n: u64, from: u64, less: u64) -> Day
    requires { (n < 146097) × (from < 2 ^ 62) × (less < 2 ^ 62) }
    ensures { result ≡ day_in n from less }
{
    let y = year_in(n);
    let d = n - year_start(y);
    let m = (5 * d + 2) / 153;
    let (year, month) = if m < 10 {
        (from + y, m + 3)
    } else {
        (from + y + 1, m - 9)
    };
    Day {
        year: year as i64 - less as i64,
        month: month as u8,
        day: (d - (153 * m + 2) / 5 + 1) as u8,
    }
}

// The day with this number, counted from 2000-01-01.
pub fn day_of(days: i64) -> Day
    ensures { result ≡ day_of days }
{
    if days < 0 {
        let n = days.unsigned_abs() + 59;
        return day_in(146096 - n % 146097, 1600, 400 * (n / 146097));
    }
    let n = days as u64 + 146037;
    day_in(n % 146097, 1600 + 400 * (n / 146097), 0)
}
