//! Lines that are served over a directory.
ghost use Rattle.std.specs.Prelude.{◌≡◌};
ghost use Rattle.cat_model.specs.Serving.{ServesIn};
ghost use Rattle.cat_model.specs.Reasons.{CausesIn};
ghost use Rattle.cat_items.specs.Reading.{json};
ghost use Rattle.cat_directory.specs.Names.{by_names};
ghost use Rattle.cat_commands.specs.cat_protocol.serving.Serving.{ended_as};
ghost use Rattle.cat_service.specs.Serving.{StageLasts, StageOutlives, device_at};

use crate::world::World;
use cat_commands::cat_protocol::serving::{ServeFault, Stage, serve_machine};
use cat_commands::cat_protocol::{
    live_rows_are_told_by_their_bytes, segments_are_told_by_their_bytes,
};
use cat_directory::{Directory, Shelf};
use cat_ledger_laws::lines::refused_are_found;
use std::alloc::Global;
use std::io::{Read, Write};

/// What serving leaves.
#[derive(Drop)]
pub struct Left<D> {
    /// The directory, with its files as they stand: what waited, and what no commit has, isn't in them.
    pub device: D,
    /// Why serving ended before the end of the input, if it did.
    pub ended: Result<(), ServeFault>,
}

/// The directory of the stage. A world that stands open ends.
fn device_left<D: Directory + Shelf>(stage: Stage<World<D>, D>) -> D
    ensures device { result ≡ device_at stage }
    ensures lasts { StageLasts D.bytes D.may_leave stage }
    ensures outlives { StageOutlives D.bytes D.may_leave stage }
{
    match stage {
        Stage::Waiting(device) => device,
        Stage::Refused(device) => device,
        Stage::Open(world) => {
            world.newest_lasts();
            world.histories_last();
            world.end()
        }
    }
}

/// Answers each line of the reader: the first opens the newest commit of the directory, or an empty catalogue where there is
/// none, and the others are its sessions'.
///
/// What it writes is the text of a run that fits the lines, and nothing else, and of a directory that can't fail it says to no
/// line that it did; where a directory doesn't tell of its files, the text of a stored item alone may be another of
/// that length, and has no line feed either. In the directory that is left stand, as far as it tells of its files, those of
/// every token that the run has recorded, held ones too, and of every commit that it keeps, with the table of each. Where such
/// directories always tell of their files, a crash leaves those of the newest commit byte for byte: the commit that was opened,
/// or that the last COMMIT was answered. What is found after the crash is that commit; or that of a COMMIT which was refused
/// after it, but not for its text, with its text, the number of writes before it, and the table at that. Once the files of
/// these are taken away, it is that commit. Where the schema line is refused, the files are as they were, also in whatever a
/// crash may leave, and also where the write of that refusal fails; it is told that the device failed only where the directory
/// can fail and counted one failure more, and none is counted behind another refusal. Where a read failed before any line had
/// ended, or a write before any was to be answered, the directory is untouched.
///
/// Each reply has its cause in how the service stands before its line, from the opening on, as [`World::step`] says of one
/// line. That a number or a limit is spent is told only where one is; that the device failed, only where the directory
/// counts one failure more at that line, and that memory was wanting, only where it counts none; no failure is forgotten.
/// That a file is damaged is told, where such directories always tell of their files, to no MERGE, and to a GET only where
/// the text has a line feed; else to a MERGE only where it has rows to copy. A COMMIT tells the generation that comes next,
/// and takes it; SWEEP, STAT, MERGE, FORCE and WARM tell what is so, and behind a SWEEP with an OK no file waits to be deleted.
/// A STAT tells as many waiting items and live rows as the table has items, how many sets of rows are cached, and no more files
/// that wait to be deleted than were given a number; only a line that may begin or give up a file changes that. A WARM tells
/// `idle` only where each noted query has its set in each segment, and else which step it took. A merge is begun only where none
/// is in the making, each `copied` tells more of its rows, and `done` is told once all are passed: then one segment at most
/// stands for those that it took, and no line else takes any. A COMMIT that is refused, but not for its text, takes the
/// generation that it tried, so that no later line is told it: where such directories always tell of their files, whatever
/// commit a crash leaves as the newest is the last that was answered or opened, or was tried so.
///
/// It flushes before each read, so that a client which waits for a reply has it. Its two buffers are taken before the first
/// line is read, and replies are written without taking memory. The reader is called at most 4,294,967,295 times.
pub fn serve<D: Directory + Shelf, R: Read, W: Write>(
    alloc: Global,
    device: D,
    reader: &mut R,
    writer: &mut W,
) -> Left<D>
    ensures served { ServesIn json (by_names D.bytes D.may_leave D.can_fail D.fault_count) device result.device
        (R.remaining reader.old) (R.remaining reader.new) (W.contents writer.old) (W.contents writer.new)
        (ended_as result.ended) }
    ensures caused { CausesIn json (by_names D.bytes D.may_leave D.can_fail D.fault_count) device result.device
        (R.remaining reader.old) (R.remaining reader.new) (W.contents writer.old) (W.contents writer.new)
        (ended_as result.ended) }
{
    let served = serve_machine::<World<D>, R, W>(alloc, device, reader, writer);
    segments_are_told_by_their_bytes();
    live_rows_are_told_by_their_bytes();
    refused_are_found::<D>();
    Left {
        device: device_left(served.stage),
        ended: served.ended,
    }
}
