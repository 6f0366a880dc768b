// The calls on a station, whose small struct is lent beside the bytes of its records.
ghost use Rattle.reader.specs.Brought.{simply};
ghost use Rattle.qonveshir.specs.Station.{NewShown, NewShownIn, KeepShown, ReturnShown, ApplyShown, ApplyShownIn};

use crate::{Outcome, Written, applied_shown, edition_of, no_edition, none_written, outcome_of};
use station::Station;

// Makes a new station of an accepted record.
#[unsafe(no_mangle)]
pub extern "C" fn qonveshir_station_new(
    table: &[u8],
    record: &[u8],
    station: &mut Station,
    records: &mut [u8],
) -> Outcome
    ensures { NewShown (simply table.now) «record».now station.old records.old result station.new records.new }
{
    outcome_of(station::new(table, record, station, records))
}

// The same in an edition, with a class list.
#[unsafe(no_mangle)]
pub extern "C" fn qonveshir_station_new_in(
    edition: u32,
    table: &[u8],
    classes: &[u8],
    record: &[u8],
    station: &mut Station,
    records: &mut [u8],
) -> Outcome
    ensures { NewShownIn edition table.now classes.now «record».now station.old records.old result station.new records.new }
{
    let Some(edition) = edition_of(edition) else {
        return no_edition();
    };
    outcome_of(station::new_in(edition, table, classes, record, station, records))
}

// Keeps the current record under a name.
#[unsafe(no_mangle)]
pub extern "C" fn qonveshir_station_keep(
    name: u16,
    station: &mut Station,
    records: &mut [u8],
) -> Outcome
    ensures { KeepShown name station.old records.old result station.new records.new }
{
    outcome_of(station::keep(name, station, records))
}

// Makes the record that is kept under a name the current one.
#[unsafe(no_mangle)]
pub extern "C" fn qonveshir_station_return(
    name: u16,
    station: &mut Station,
    records: &mut [u8],
) -> Outcome
    ensures { ReturnShown name station.old records.old result station.new records.new }
{
    outcome_of(station::return_to(name, station, records))
}

// Makes the result of a bound apply the current record.
#[unsafe(no_mangle)]
pub extern "C" fn qonveshir_station_apply(
    table: &[u8],
    pattern: &[u8],
    template: &[u8],
    allowance: u32,
    station: &mut Station,
    records: &mut [u8],
) -> Written
    ensures { ApplyShown (simply table.now) pattern.now template.now allowance station.old records.old result station.new records.new }
{
    applied_shown(station::apply(table, pattern, template, allowance, station, records))
}

// The same in an edition, up to class.
#[unsafe(no_mangle)]
pub extern "C" fn qonveshir_station_apply_in(
    edition: u32,
    table: &[u8],
    classes: &[u8],
    pattern: &[u8],
    template: &[u8],
    allowance: u32,
    station: &mut Station,
    records: &mut [u8],
) -> Written
    ensures { ApplyShownIn edition table.now classes.now pattern.now template.now allowance station.old records.old result station.new records.new }
{
    let Some(edition) = edition_of(edition) else {
        return none_written();
    };
    applied_shown(station::apply_in(
        edition, table, classes, pattern, template, allowance, station, records,
    ))
}
