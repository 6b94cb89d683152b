// Dates as eight digits: year, month, day.
ghost use Rattle.terms.specs.Dates.{days_in, is_day};
ghost use Rattle.std.specs.Prelude.{◌≡◌};

// How many days the month has, by the Gregorian calendar.
fn days_in(year: u32, month: u32) -> u32
    ensures { result ≡ days_in year month }
{
    if month == 2 {
        if year % 4 == 0 && (year % 100 != 0 || year % 400 == 0) {
            29
        } else {
            28
        }
    } else if month == 4 || month == 6 || month == 9 || month == 11 {
        30
    } else {
        31
    }
}

// Whether the eight digits are a real day of 2000 to 2099.
pub fn is_day(date: u32) -> bool
    ensures { result ≡ is_day date }
{
    let year = date / 10_000;
    let month = date / 100 % 100;
    let day = date % 100;
    let days = days_in(year, month);
    2000 <= year && year <= 2099 && 1 <= month && month <= 12 && 1 <= day && day <= days
}
