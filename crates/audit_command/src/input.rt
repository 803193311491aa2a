//! The lines of an input, handed to the reader of transcripts.

ghost use Rattle.std.specs.Prelude.{◌≡◌, IfErr, OnOk};
ghost use Rattle.audit_command.specs.Stages.{no_lines};
ghost use Rattle.command_input.specs.Input.{Ends, Stops, desk, fresh};
ghost use Rattle.audit_command.specs.Reading.{IsBad, IsReadByReader};

use crate::reader::TranscriptReader;
use crate::reason::TranscriptReason;
use command_input::{Input, InputFault};
use swap_io::Source;

/// Reads the lines of an input up to its end. The input's text is then what stands after the last
/// line feed.
pub(crate) fn read_lines<S: Source>(
    input: &mut Input,
    source: &mut S,
    reader: &mut TranscriptReader,
) -> Result<(), InputFault<TranscriptReason>>
    requires fresh { input.old ≡ fresh }
    requires first { reader.old ≡ no_lines }
    ensures read { OnOk result (Ends (IsReadByReader reader.new input.new.text) (desk (S.left source.old) (S.faults source.old) fresh)
        (desk (S.left source.new) (S.faults source.new) input.new)) }
    ensures stops { IfErr result (Stops IsBad (desk (S.left source.old) (S.faults source.old) fresh)
        (desk (S.left source.new) (S.faults source.new) input.new)) }
{
    'lines: while input.part(source)? {
        reader.push(input.text())?;
    }
    Ok(())
}
