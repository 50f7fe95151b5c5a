//! The world of sessions as a machine: its first line opens it, and each line behind it is one step.
ghost use Rattle.std.specs.Prelude.{◌≡◌, Some, IfSome, IfNone, option_map};
ghost use Rattle.cat_model.specs.Lines.{IsReadable};
ghost use Rattle.cat_model.specs.Served.{Outcome, outcome_text};
ghost use Rattle.cat_model.specs.Text.{Text};
ghost use Rattle.cat_commands.specs.cat_protocol.lines.Line.{SpellsOrShows, said_of};
ghost use Rattle.cat_commands.specs.cat_protocol.sending.Out.{Sent};
ghost use Rattle.cat_service.specs.Reasons.{OpensCaused, StepsCaused};

use crate::world::World;
use cat_base::Refusal;
use cat_commands::cat_protocol::lines::Line;
use cat_commands::cat_protocol::replies::send_reply;
use cat_commands::cat_protocol::sending::{WriteFault, send_unreadable};
use cat_commands::cat_protocol::serving::{Machine, Unopened, text_of};
use cat_directory::{Directory, Shelf};
use std::alloc::Global;
use std::io::Write;

/// The text of a line, unless it is too long or no UTF-8.
fn text_heard(line: Option<&[u8]>) -> Option<&str>
    ensures found { IfSome result (λ text. option_map (λ l. l.now) line.entry ≡ Some text.now) }
    ensures readable { IfSome result (λ text. IsReadable text.now) }
    ensures none { IfNone result (IfSome (option_map (λ l. l.now) line.entry) (λ l. IsReadable l → ⊥)) }
{
    match line {
        Some(bytes) => text_of(bytes),
        None => None,
    }
}

impl<D: Directory + Shelf> Machine for World<D> {
    type Seed = D;

    ghost use Rattle.cat_service.specs.Reasons.{OpensCaused, StepsCaused};
    ghost use Rattle.cat_service.specs.Worlds.{shape_of_service};

    ghost opens = { OpensCaused D.bytes D.may_leave D.can_fail D.fault_count };

    ghost step = { StepsCaused D.bytes D.may_leave D.can_fail D.fault_count };

    ghost token = { λ w. (shape_of_service w).count };

    fn open(alloc: Global, seed: D, line: Option<&[u8]>) -> Result<World<D>, Unopened<D>> {
        World::open_heard(alloc, seed, line)
    }

    fn start_token(&self) -> u64 {
        self.count()
    }

    fn answer<W: Write>(&mut self, line: Option<&[u8]>, to: &mut W) -> Result<(), WriteFault> {
        match text_heard(line) {
            Some(text) => self.answer_text(text, to),
            None => send_unreadable(to),
        }
    }
}

impl<D: Directory + Shelf> World<D> {
    /// Opens a world by a first line, which may be too long to be read, or no text.
    fn open_heard(alloc: Global, seed: D, line: Option<&[u8]>) -> Result<World<D>, Unopened<D>>
        ensures { OpensCaused D.bytes D.may_leave D.can_fail D.fault_count seed (option_map (λ l. l.now) line.entry) result }
    {
        match text_heard(line) {
            Some(text) => World::open(alloc, seed, text),
            None => Err(Unopened {
                refusal: Refusal::Line,
                seed,
            }),
        }
    }

    /// Answers the text of a line, and writes the reply. The step is taken also where the writer fails.
    fn answer_text<W: Write>(&mut self, text: &str, to: &mut W) -> Result<(), WriteFault>
        requires { IsReadable text.now }
        ensures { (told : Outcome) × StepsCaused D.bytes D.may_leave D.can_fail D.fault_count self.old (Some text.now) told self.new
            × Sent (W.contents to.old) (W.contents to.new) result (outcome_text told) }
    {
        match Line::read(text) {
            Ok(line) => self.answer_line(&line, to),
            Err(_) => send_unreadable(to),
        }
    }

    /// Answers a line, whatever readable text it is of, and writes the reply.
    fn answer_line<W: Write>(&mut self, line: &Line, to: &mut W) -> Result<(), WriteFault>
        ensures { (text : Text) → IsReadable text → SpellsOrShows text line.now.session (said_of line.now.command)
            → (told : Outcome) × StepsCaused D.bytes D.may_leave D.can_fail D.fault_count self.old (Some text) told self.new
            × Sent (W.contents to.old) (W.contents to.new) result (outcome_text told) }
    {
        // What the line finds: as few files wait to be deleted as may.
        self.newest_lasts();
        let reply = self.step(line);
        send_reply(&reply, to)
    }
}
