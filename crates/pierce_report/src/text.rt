//! The text of the report.
ghost use Rattle.std.specs.Prelude.{◌≡◌, ◌++◌, decimal, OnOk};
ghost use Rattle.pierce_report.specs.Shown.{shown};
ghost use Rattle.pierce_report.specs.Report.{row_text, rows_text, part_text};
ghost use Rattle.pierce_report.specs.Rows.{row_of, rows_of, totals_text, verdict_text};

use crate::rows::Numbers;
use crate::shown::shown_byte_of;
use itoa::Buffer;
use nest_base::{OutOfMemory, Text};

/// Appends a word and a number.
fn put_number(word: &[u8], n: usize, out: &mut Text) -> Result<(), OutOfMemory>
    ensures { OnOk result (out.new ≡ out.old ++ word.now ++ decimal n) }
{
    out.append(word)?;
    out.append(Buffer::new().format(n).as_bytes())
}

/// Appends the line of the component with this number.
fn put_row(number: usize, row: &Numbers, out: &mut Text) -> Result<(), OutOfMemory>
    ensures { OnOk result (out.new ≡ out.old ++ row_text number (row_of row.now)) }
{
    put_number(b"component ", number, out)?;
    put_number(b" edges ", row.edges, out)?;
    put_number(b" odd ", row.odd as usize, out)?;
    put_number(b" bound ", row.bound as usize, out)?;
    put_number(b" limit ", row.limit as usize, out)?;
    put_number(b" pierces ", row.pierces, out)?;
    out.push(b'\n')
}

/// Appends the lines of all components, which are numbered from 1 on.
pub fn put_rows(rows: &[Numbers], out: &mut Text) -> Result<(), OutOfMemory>
    ensures { OnOk result (out.new ≡ out.old ++ rows_text 1 (rows_of rows.now)) }
{
    for (k, row) in rows.iter().enumerate() {
        put_row(k + 1, row, out)?;
    }
    Ok(())
}

/// Appends a text, each byte that doesn't print as it is as `?`.
fn put_shown(text: &[u8], out: &mut Text) -> Result<(), OutOfMemory>
    ensures { OnOk result (out.new ≡ out.old ++ shown text.now) }
{
    for byte in text {
        out.push(shown_byte_of(*byte))?;
    }
    Ok(())
}

/// Appends the line of a part with this name and this rank.
pub fn put_part(name: &[u8], rank: u32, out: &mut Text) -> Result<(), OutOfMemory>
    ensures { OnOk result (out.new ≡ out.old ++ part_text (record { text = name.now; rank = rank })) }
{
    out.append(b"part ")?;
    put_shown(name, out)?;
    put_number(b" rank ", rank as usize, out)?;
    out.push(b'\n')
}

/// Appends the line of so many pierces in all, and the sum of the bounds.
pub fn put_totals(pierces: usize, bound: usize, out: &mut Text) -> Result<(), OutOfMemory>
    ensures { OnOk result (out.new ≡ out.old ++ totals_text pierces bound) }
{
    put_number(b"total pierces ", pierces, out)?;
    put_number(b" bound ", bound, out)?;
    out.push(b'\n')
}

/// Appends the last line: whether the pierces are shown to be the fewest.
pub fn put_verdict(is_fewest: bool, out: &mut Text) -> Result<(), OutOfMemory>
    ensures { OnOk result (out.new ≡ out.old ++ verdict_text is_fewest) }
{
    if is_fewest {
        out.append(b"fewest\n")
    } else {
        out.append(b"not shown fewest\n")
    }
}
