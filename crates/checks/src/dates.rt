// Dates and day numbers.
use calendar::date::{Date, is_month_first};
use calendar::field::DateField;
use std::test::Fail;

// Year, month, day, and the days since 1970-01-01 that other calendars count.
const KNOWN: [(u16, u8, u8, u32); 16] = [
    (1970, 1, 1, 0),
    (1970, 12, 31, 364),
    (1972, 1, 1, 730),
    (1972, 2, 29, 789),
    (1999, 12, 31, 10_956),
    (2000, 2, 29, 11_016),
    (2000, 3, 1, 11_017),
    (2016, 12, 31, 17_166),
    (2017, 1, 1, 17_167),
    (2024, 2, 29, 19_782),
    (2024, 10, 4, 20_000),
    (2038, 1, 19, 24_855),
    (2100, 2, 28, 47_540),
    (2100, 3, 1, 47_541),
    (2199, 12, 1, 83_975),
    (2199, 12, 31, 84_005),
];

// Fields that are no date, and the first of them that is wrong.
const WRONG: [(u16, u8, u8, DateField); 10] = [
    (1969, 12, 31, DateField::Year),
    (2200, 1, 1, DateField::Year),
    (0, 0, 0, DateField::Year),
    (2024, 0, 1, DateField::Month),
    (2024, 13, 1, DateField::Month),
    (2024, 0, 0, DateField::Month),
    (2024, 4, 31, DateField::Day),
    (2023, 2, 29, DateField::Day),
    (2100, 2, 29, DateField::Day),
    (2024, 1, 0, DateField::Day),
];

#[test]
fn known_dates_have_their_numbers(rt: HostRuntime) -> Result<(), Fail> {
    for (year, month, day, number) in KNOWN {
        assert_eq!(rt; Date::new(year, month, day)?.day_number(), number);
    }
    Ok(())
}

#[test]
fn known_numbers_have_their_dates(rt: HostRuntime) -> Result<(), Fail> {
    for (year, month, day, number) in KNOWN {
        let date = Date::of_day(number).ok_or("no date")?;
        assert_eq!(rt; date.year(), year);
        assert_eq!(rt; date.month(), month);
        assert_eq!(rt; date.day(), day);
    }
    assert!(rt; Date::of_day(84_006).is_none());
    assert!(rt; Date::of_day(u32::MAX).is_none());
    Ok(())
}

#[test]
fn a_bad_date_names_its_first_wrong_field(rt: HostRuntime) {
    for (year, month, day, field) in WRONG {
        assert_eq!(rt; Date::new(year, month, day), Err(field));
    }
}

#[test]
fn months_begin_on_their_first_day(rt: HostRuntime) {
    for day in [0, 31, 59, 730, 11_017, 17_167, 20_089, 47_541, 83_975] {
        assert!(rt; is_month_first(day));
    }
    for day in [1, 30, 729, 11_016, 17_166, 17_168, 84_005, 84_006, u32::MAX] {
        assert!(rt; !is_month_first(day));
    }
}
