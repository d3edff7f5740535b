// Writing moments as dates and times.
ghost use Rattle.std.specs.Prelude.{◌≡◌, ◌+◌, ◌-◌, ◌≤◌, ◌++◌, pos, OnOk};
ghost use Rattle.esm_model.specs.declared.moment.TheConstants.{MAX_MOMENT};
ghost use Rattle.esm_model.specs.Dates.{new_year, days_of_months, year_of, month_of, day_text, clock_text, second_of_day_text, date_text, second_text};

use crate::digits::push_padded;
use esm_model::OutOfMemory;
use jiff_core::civil::Date;

/// The day 1970-01-01, counted from the calendar's first date.
const DAY_OF_1970: u32 = 4_371_587;

/// Appends `1970-01-01T00:00:00.000Z`, for a moment in milliseconds since then. After an error a part of it may have been
/// appended.
#[tactic(auto, unfolding(esm_model::specs::Dates::date_text))]
pub fn push_date(out: &mut Vec<u8>, moment: u64) -> Result<(), OutOfMemory>
    requires { moment ≤ MAX_MOMENT }
    ensures { OnOk result (out.new.items ≡ out.old.items ++ date_text moment) }
{
    push_date_and_time(out, moment)?;
    out.push(b'.')?;
    push_padded(out, 3, moment % 1000)?;
    out.push(b'Z')?;
    Ok(())
}

/// Appends `1970-01-01T00:00:00Z`, for a moment in milliseconds since then, cut off to whole seconds. After an error a part
/// of it may have been appended.
#[tactic(auto, unfolding(esm_model::specs::Dates::second_text))]
pub fn push_second(out: &mut Vec<u8>, moment: u64) -> Result<(), OutOfMemory>
    requires { moment ≤ MAX_MOMENT }
    ensures { OnOk result (out.new.items ≡ out.old.items ++ second_text moment) }
{
    push_date_and_time(out, moment)?;
    out.push(b'Z')?;
    Ok(())
}

fn push_date_and_time(out: &mut Vec<u8>, moment: u64) -> Result<(), OutOfMemory>
    requires { moment ≤ MAX_MOMENT }
    ensures { OnOk result (out.new.items ≡ out.old.items ++ second_of_day_text moment) }
{
    push_day(out, moment / 86_400_000)?;
    out.push(b'T')?;
    push_clock(out, moment / 1000)
}

#[tactic(auto, unfolding(esm_model::specs::Dates::day_text))]
fn push_day(out: &mut Vec<u8>, day: u64) -> Result<(), OutOfMemory>
    requires { day ≤ 2932896 }
    ensures { OnOk result (out.new.items ≡ out.old.items ++ day_text day) }
{
    let date = date_of(day);
    push_padded(out, 4, date.year as u64)?;
    out.push(b'-')?;
    push_padded(out, 2, date.month as u64)?;
    out.push(b'-')?;
    push_padded(out, 2, date.day as u64)?;
    Ok(())
}

fn date_of(day: u64) -> Date
    requires { day ≤ 2932896 }
    ensures year { result.year ≡ pos (year_of day) }
    ensures month { result.month ≡ month_of (year_of day) (day - new_year (year_of day)) }
    ensures day { result.day
        ≡ day - new_year (year_of day) - days_of_months (year_of day) (result.month - 1) + 1 }
{
    Date::from_days_since_min(DAY_OF_1970 + day as u32)
}

fn push_clock(out: &mut Vec<u8>, seconds: u64) -> Result<(), OutOfMemory>
    ensures { OnOk result (out.new.items ≡ out.old.items ++ clock_text seconds) }
{
    push_padded(out, 2, seconds / 3600 % 24)?;
    out.push(b':')?;
    push_padded(out, 2, seconds / 60 % 60)?;
    out.push(b':')?;
    push_padded(out, 2, seconds % 60)
}
