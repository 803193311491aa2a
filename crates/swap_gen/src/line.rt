//! The line of an event.

ghost use Rattle.std.specs.Prelude.{◌≡◌, ◌++◌, OnOk, OnErr};
ghost use Rattle.swap_gen.specs.Line.{event_line};

use command_input::party_name;
use swap_base::{ByteText, NoMemory, Piece, put_whole};
use swap_job::Event;

/// Appends the line of an event that can be drawn; a call and a crash can't, and nothing is
/// appended. Want of memory leaves the text as it was.
#[tactic(auto, unfolding(crate::specs::Line::event_line))]
pub fn put_event(out: &mut Vec<u8>, names: &[ByteText], event: &Event) -> Result<(), NoMemory>
    ensures ok { OnOk result (out.new.items ≡ out.old.items ++ event_line names.now event.now) }
    ensures err { OnErr result (out.new.items ≡ out.old.items) }
{
    match event {
        Event::Tick(arc, k) => put_whole(
            out,
            &[
                Piece::Text("{\"by\":"),
                Piece::Number(*k as u64),
                Piece::Text(",\"tick\":"),
                Piece::Number(*arc as u64),
                Piece::Text("}\n"),
            ],
        ),
        Event::Look(p, arc) => put_whole(
            out,
            &[
                Piece::Text("{\"arc\":"),
                Piece::Number(*arc as u64),
                Piece::Text(",\"look\":\""),
                Piece::Bytes(party_name(names, *p)),
                Piece::Text("\"}\n"),
            ],
        ),
        Event::Act(p) => put_whole(
            out,
            &[
                Piece::Text("{\"act\":\""),
                Piece::Bytes(party_name(names, *p)),
                Piece::Text("\"}\n"),
            ],
        ),
        Event::Call(_, _) => Ok(()),
        Event::Crash(_, _, _) => Ok(()),
    }
}
