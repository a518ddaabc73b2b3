// What a call is lent, read: a template, a script and a booking list, and then a desk and a grid.
#![tactic(auto)]

ghost use Rattle.std.specs.Prelude.{◌≡◌, ◌*◌, length};
ghost use Rattle.words.specs.Sizes.{table_size};
ghost use Rattle.lent.specs.Readings.{BookedAs, LentAs, listed_as};

use bookings::read_bookings;
use sheet::{Extent, ReadSheet, read_sheet};
use words::{Fault, Refusal};

// A sheet that is read, and a booking list that is read for it, of so many bookings.
#[derive(Clone, Copy)]
pub struct ListedSheet<'a> {
    pub sheet: ReadSheet<'a>,
    pub bookings: &'a [u16],
    pub count: u16,
}

// A sheet and a booking list that are read, as one.
pub fn list_sheet<'a>(
    template: &'a [u16],
    script: &'a [u16],
    names: &'a [u8],
    extent: Extent,
    bookings: &'a [u16],
    count: u16,
) -> ListedSheet<'a>
    ensures { result ≡ listed_as template.entry script.entry names.entry extent bookings.entry count }
{
    let sheet = ReadSheet {
        template,
        script,
        names,
        extent,
    };
    ListedSheet {
        sheet,
        bookings,
        count,
    }
}

// The number of pairs of a sheet: the bytes of its grid.
pub fn grid_size(e: Extent) -> usize
    ensures { result ≡ e.cards * e.shapes }
{
    (e.cards as usize) * (e.shapes as usize)
}

// Reads a template, a script and a booking list, and fills the table of names, whatever it held: the counts of the
// sheet and of the bookings.
pub fn read_booked(
    template: &[u16],
    script: &[u16],
    bookings: &[u16],
    names: &mut [u8],
) -> Result<(Extent, u16), Refusal>
    requires { length names.old ≡ table_size }
    ensures { BookedAs template.now script.now names.new
        bookings.now result }
{
    let e = read_sheet(template, script, names)?;
    let count = read_bookings(e.cards, e.shapes, bookings)?;
    Ok((e, count))
}

// The same for a desk and a grid: template, script, list, desk and the grid's size are tested in this order.
pub fn read_lent(
    template: &[u16],
    script: &[u16],
    bookings: &[u16],
    desk: u16,
    grid: &[u8],
    names: &mut [u8],
) -> Result<(Extent, u16), Refusal>
    requires { length names.old ≡ table_size }
    ensures { LentAs template.now script.now names.new
        bookings.now desk grid.now result }
{
    let (e, count) = read_booked(template, script, bookings, names)?;
    if 1 < desk {
        return Err(Refusal(Fault::UnknownDesk, 0));
    }
    if grid.len() != grid_size(e) {
        return Err(Refusal(Fault::BufferLength, 0));
    }
    Ok((e, count))
}
