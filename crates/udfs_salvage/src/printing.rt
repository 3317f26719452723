//! Reports are printed.

ghost use Rattle.std.specs.Prelude.{◌≡◌, ◌<◌, ◌≤◌, [], IfErr, length, OnOk};
ghost use Rattle.std.specs.String.{string_bytes};
ghost use Rattle.udfs_reading.specs.Puts.{Finishes, Puts};
ghost use Rattle.udfs_salvage.specs.Found.{volume_now};
ghost use Rattle.udfs_salvage.specs.Printing.{PassesOn, Prints};
ghost use Rattle.udfs_salvage.specs.Reports.{report_now};
ghost use Rattle.udfs_salvage.specs.NodeTexts.{report_text_by};
ghost use Rattle.udfs_salvage.specs.Texts.{volume_line};
ghost use Rattle.udfs_salvage.specs.declared.errors.RunError.{RunError};

use crate::errors::RunError;
use crate::lines::{has_two, put_end, put_head, put_rereads, put_volume};
use crate::node_printing::{put_all_unnamed, put_nodes};
use crate::reports::Report;
use crate::volumes::Volume;
use udfs_reading::{Printer, Sink, WriteFault, write_all};

/// How many bytes of text are gathered before they are written.
const PIECE: usize = 65_536;

/// Writes the text that is held, and holds nothing then.
///
/// # Errors
///
/// `Write` exactly where the sink failed. Then a beginning of the text is out.
pub fn flush<W: Sink>(text: &mut String, sink: &mut W) -> Result<(), RunError>
    ensures written { Prints (W.stream sink.old) (W.stream sink.new) (string_bytes text.old) result }
    ensures empty { OnOk result (string_bytes text.new ≡ []) }
{
    match write_all(sink, text.as_bytes()) {
        Ok(()) => {
            text.clear();
            Ok(())
        }
        Err(WriteFault) => Err(RunError::Write),
    }
}

/// Writes the text that is held, and holds nothing then, exactly where it is long: 65,536 bytes or more.
///
/// # Errors
///
/// `Write` exactly where the sink failed. Then a beginning of the text is out.
pub fn pass_on<W: Sink>(text: &mut String, sink: &mut W) -> Result<(), RunError>
    ensures passed { PassesOn (W.stream sink.old) (W.stream sink.new) (string_bytes text.old) (string_bytes text.new) [] result }
    ensures kept { length (string_bytes text.old) < 65536 → (text.new ≡ text.old) × (sink.new ≡ sink.old) }
    ensures handed { 65536 ≤ length (string_bytes text.old) → OnOk result (string_bytes text.new ≡ []) }
{
    if text.len() < PIECE {
        return Ok(());
    }
    flush(text, sink)
}

/// All lines.
fn put_report<W: Sink>(out: &mut Printer, sink: &mut W, report: &Report<'_>)
    ensures { Puts (W.stream sink.old) (W.stream sink.new) out.old out.new
        (report_text_by report.now.profile report.now.table.now report.now.last (report_now report.now)) }
{
    let profile = report.profile;
    put_head(
        out,
        sink,
        report.table,
        report.last,
        profile,
        &report.volume,
    );
    put_nodes(out, sink, &report.nodes);
    put_all_unnamed(out, sink, has_two(&report.volume), &report.unnamed);
    put_rereads(out, sink, report.table, &report.reread);
    put_end(out, sink);
}

/// Writes what a printer holds.
///
/// # Errors
///
/// `Write` exactly where the sink failed, now or before. Then a beginning of all that was put is out.
pub(crate) fn finish<W: Sink>(out: &mut Printer, sink: &mut W) -> Result<(), RunError>
    ensures written { Finishes (W.stream sink.old) (W.stream sink.new) out.old result }
    ensures fault { IfErr result (λ e. e ≡ RunError.Write) }
{
    match out.finish(sink) {
        Ok(()) => Ok(()),
        Err(WriteFault) => Err(RunError::Write),
    }
}

/// Writes the text of a report, by whose rules its second line is `profile wide` or left out. It takes no memory.
///
/// # Errors
///
/// `Write` exactly where the sink failed, and never another. Then a beginning of the text is out.
pub fn write_report<W: Sink>(report: &Report<'_>, sink: &mut W) -> Result<(), RunError>
    ensures text { Prints (W.stream sink.old) (W.stream sink.new)
        (report_text_by report.now.profile report.now.table.now report.now.last (report_now report.now)) result }
    ensures fault { IfErr result (λ e. e ≡ RunError.Write) }
{
    let mut out = Printer::new();
    put_report(&mut out, sink, report);
    finish(&mut out, sink)
}

/// Writes the line of a volume in the text of a report, which says whether the volume opens. It allocates no memory.
///
/// # Errors
///
/// `Write` exactly where the sink failed, and never another. Then a beginning of the line is out.
pub fn write_volume_line<W: Sink>(volume: &Volume, sink: &mut W) -> Result<(), RunError>
    ensures text { Prints (W.stream sink.old) (W.stream sink.new)
        (volume_line (volume_now volume.now)) result }
    ensures fault { IfErr result (λ e. e ≡ RunError.Write) }
{
    let mut out = Printer::new();
    put_volume(&mut out, sink, volume);
    finish(&mut out, sink)
}

/// Writes only the volume's line of a report's text, which says whether the volume opens. It allocates no memory.
///
/// # Errors
///
/// `Write` exactly where the sink failed, and never another. Then a beginning of the line is out.
pub fn write_volume<W: Sink>(report: &Report<'_>, sink: &mut W) -> Result<(), RunError>
    ensures text { Prints (W.stream sink.old) (W.stream sink.new)
        (volume_line (volume_now report.now.volume)) result }
    ensures fault { IfErr result (λ e. e ≡ RunError.Write) }
{
    write_volume_line(&report.volume, sink)
}
