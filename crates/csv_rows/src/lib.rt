// To the spreadsheet and back: a message as a CSV row, and a row as a message. Which tables have rows, what the row of a message is and
// what its import gives stands in desk's specs/Csv.antt.
#![tactic(auto)]

ghost use Rattle.std.specs.Prelude.{length};
ghost use Rattle.desk.specs.Csv.{csv_export};
ghost use Rattle.export_row.specs.Outputs.{Gives};
ghost use Rattle.csv_rows.specs.Promise.{GivesImport};

use desk::NotRows;

// Writes the row of a message by a table: how many bytes, which stand in front in the output, or why not.
pub fn export(table: &[u8], message: &[u8], out: &mut [u8]) -> Result<usize, NotRows>
    ensures { Gives (csv_export table.now message.now (length out.old)) out.old result out.new }
{
    let layout = table::check(table)?;
    match columns::find(table, layout) {
        None => Err(NotRows::Unfit),
        Some(fields) => export_row::export_row(table, layout, fields, message, out),
    }
}

// Writes the message of a row by a table, in its shortest form: how many bytes, which stand in front in the output, or why not.
pub fn import(table: &[u8], row: &[u8], out: &mut [u8]) -> Result<usize, NotRows>
    ensures { GivesImport table.now row.now out.old result out.new }
{
    let layout = table::check(table)?;
    match columns::find(table, layout) {
        None => Err(NotRows::Unfit),
        Some(fields) => import_row::import_row(table, layout, fields, row, out),
    }
}
