//! Lists of lines, answered one after another.
ghost use Rattle.std.specs.Prelude.{◌≡◌, IfOk, OnErr, map};
ghost use Rattle.cat_service.specs.Histories.{RunsHistory};
ghost use Rattle.cat_service.specs.Promises.{KeepsPromises};
ghost use Rattle.cat_service.specs.Running.{RunsLines};
ghost use Rattle.cat_service.specs.Worlds.{device_of, policy_of, shape_of_service};

use crate::world::World;
use cat_commands::cat_protocol::lines::Line;
use cat_commands::cat_protocol::replies::Reply;
use cat_directory::{Directory, Shelf};
use std::alloc::AllocError;

impl<D: Directory + Shelf> World<D> {
    /// Answers the lines in turn. Whatever run led here, the replies fit it one after another, as those of
    /// [`step`](World::step) do, each has its cause in the world before its line, and the files stand that are promised at the
    /// end. What the lines make of commits is known by their replies, from which
    /// [`histories_last`](World::histories_last) tells what a crash leaves.
    ///
    /// The list of replies is taken before the first line is answered, so an error changes nothing.
    pub fn run(&mut self, lines: &[Line]) -> Result<Vec<Reply>, AllocError>
        ensures sessions { IfOk result (λ replies. map (λ r. r.session) replies.items ≡ map (λ l. l.session) lines.now) }
        ensures run { IfOk result (λ replies. RunsLines D.bytes self.old lines.now replies.items self.new) }
        ensures history { IfOk result (λ replies. RunsHistory D.bytes D.can_fail D.fault_count D.may_leave self.old lines.now replies.items self.new) }
        ensures promised { KeepsPromises D.bytes self.new }
        ensures schema { (shape_of_service self.new).schema ≡ (shape_of_service self.old).schema }
        ensures policy { policy_of self.new ≡ policy_of self.old }
        ensures can { D.can_fail (device_of self.new) → D.can_fail (device_of self.old) }
        ensures err { OnErr result (self.new ≡ self.old) }
    {
        let mut replies = Vec::with_capacity(self.alloc, lines.len())?;
        for line in lines {
            match replies.push(self.step(line)) {
                Ok(()) => {}
                Err(_) => unreachable!(),
            }
        }
        Ok(replies)
    }
}
