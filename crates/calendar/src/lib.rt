// Real days of the Gregorian calendar from 2000 to 2099, written as yyyymmdd.
#![tactic(auto)]

ghost use Rattle.std.specs.Prelude.{◌≡◌, ◌≤◌};
ghost use Rattle.calendar.specs.Dates.{year, leap, month_days, real_day, days_in, day_number};

// The year of a date.
pub fn year_of(date: u32) -> u32
    ensures { result ≡ year date }
{
    date / 10000
}

fn is_leap(y: u32) -> bool
    ensures { result ≡ leap y }
{
    ((y % 4 == 0) & (y % 100 != 0)) | (y % 400 == 0)
}

#[tactic(auto, using(wire::proofs::ChoiceLaws::chain), unfolding(crate::specs::Dates::month_days))]
fn month_days(y: u32, m: u32) -> u32
    ensures { result ≡ month_days y m }
{
    if m == 2 {
        return if is_leap(y) { 29 } else { 28 };
    }
    if (m == 4) | (m == 6) | (m == 9) | (m == 11) {
        return 30;
    }
    31
}

// Whether a number is a real day of the years 2000 to 2099.
#[tactic(auto, unfolding(crate::specs::Dates::real_day))]
pub fn is_day(date: u32) -> bool
    ensures { result ≡ real_day date }
{
    let y = year_of(date);
    let m = date / 100 % 100;
    let d = date % 100;
    ((2000 <= y) & (y <= 2099)) & ((1 <= m) & (m <= 12)) & ((1 <= d) & (d <= month_days(y, m)))
}

// The days of a year's first m months.
fn days_in(y: u32, m: u32) -> u32
    requires { m ≤ 12 }
    ensures { result ≡ days_in y m }
{
    // A loop: a chain's `sum` asks beforehand that all months together fit, where the loop shows it month by month.
    let mut n = 0;
    for k in 0..m {
        n += month_days(y, k + 1);
    }
    n
}

// The day's number in its year, 1 to 366; 0 where it is no real day: no Option, so that one comparison says of a sound
// book that its totals are all zero where it has no date.
pub fn day_number(date: u32) -> u32
    ensures { result ≡ day_number date }
{
    if !is_day(date) {
        return 0;
    }
    days_in(year_of(date), date / 100 % 100 - 1) + date % 100
}
