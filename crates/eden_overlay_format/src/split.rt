//! The rows of a directory's body before and behind a name.

ghost use Rattle.eden_overlay_format.specs.Changing.{BeginsWithRow, TellsRow, IsSplit};
ghost use Rattle.eden_overlay_format.specs.Listing.{AreRowsOf, entries_read};

use std::cmp::Ordering;

/// Where the code of an entry's origin stands in its row.
const ORIGIN_PLACE: usize = 1;

/// The code of an origin that is an object.
const OBJECT_CODE: u8 = 0;

/// Where the name's length stands in a row with an object's id.
const OBJECT_NAMED: usize = 30;

/// Where it stands in a row without one.
const PLAIN_NAMED: usize = 10;

/// The rows before and behind a name, without that name's own, and how many they are.
#[derive(Clone, Copy)]
pub(crate) struct Split<'a> {
    pub(crate) before: &'a [u8],
    pub(crate) behind: &'a [u8],
    pub(crate) count: u32,
}

/// The name in the first row, and what stands behind that row.
fn split_row(rows: &[u8]) -> (&[u8], &[u8])
    requires { BeginsWithRow rows.now }
    ensures { TellsRow rows.now result.0.now result.1.now }
{
    let place = if rows[ORIGIN_PLACE] == OBJECT_CODE {
        OBJECT_NAMED
    } else {
        PLAIN_NAMED
    };
    let (_, text) = rows.split_at(place + 1);
    text.split_at(usize::from(rows[place]))
}

/// The rows before and behind a name, of so many that rise by name.
pub(crate) fn split_at_name<'a>(rows: &'a [u8], count: u32, name: &[u8]) -> Split<'a>
    requires { AreRowsOf (entries_read count rows.now) count rows.now }
    ensures { IsSplit name.now (entries_read count rows.now) result.before.now result.behind.now result.count }
{
    let mut rest = rows;
    for _ in 0..count {
        let (row_name, behind) = split_row(rest);
        let before = &rows[..rows.len() - rest.len()];
        match row_name.cmp(name) {
            Ordering::Less => rest = behind,
            Ordering::Equal => {
                return Split {
                    before,
                    behind,
                    count: count - 1,
                };
            }
            Ordering::Greater => {
                return Split {
                    before,
                    behind: rest,
                    count,
                };
            }
        }
    }
    Split {
        before: rows,
        behind: rest,
        count,
    }
}
