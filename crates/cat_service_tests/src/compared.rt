//! The service compared with a catalogue in plain lists: what both are told, they answer alike, whatever maintenance the service
//! does between.

mod dice;

use crate::compared::dice::Dice;
use crate::plain::{Answer, Plain};
use crate::verdict::expect_none;
use cat_base::Refusal;
use cat_directory::MemoryDirectory;
use cat_service::World;
use cat_service::cat_protocol::lines::{Command, Line};
use cat_service::cat_protocol::replies::{Answer as Told, News};
use cat_service::cat_protocol::serving::Unopened;
use std::alloc::{AllocError, Global};
use std::test::Fail;

/// The schema line of both.
const SHOP: &str =
    "SCHEMA 2 1 {\"brand\":\"keyword\",\"color\":\"facet\",\"price\":\"number\",\"title\":\"text\"}";

/// How many lines are compared in each of three runs.
const COUNT: u64 = 1_700;

/// What the plain catalogue says to a line. The dice take a token that was recorded.
fn plain_reply(
    alloc: Global,
    plain: &mut Plain,
    dice: &mut Dice,
    line: &Line<'_>,
) -> Result<Vec<u8>, AllocError> {
    let reply = plain.step(line);
    if let Ok(Answer::Number(token)) = &reply.answer {
        if let Command::Refresh = line.command {
            dice.take(*token);
        }
    }
    reply.text(alloc)
}

/// Whether both say the same to a line that the dice throw.
fn is_answered_alike(
    alloc: Global,
    world: &mut World<MemoryDirectory>,
    plain: &mut Plain,
    dice: &mut Dice,
) -> Result<bool, AllocError> {
    let line = dice.line();
    let told = world.step(&line).text(alloc)?;
    let wanted = plain_reply(alloc, plain, dice, &line)?;
    Ok(told == wanted)
}

/// What is due after so many lines, if anything is.
fn chore_after(number: u64) -> Option<Command<'static>> {
    match number % 12 {
        0 => Some(Command::Sweep),
        5 if number % 5 == 0 => Some(Command::Force),
        7 => Some(Command::Commit("")),
        3 | 4 | 8 | 9 => Some(Command::Merge),
        1 | 2 | 6 | 10 | 11 => Some(Command::Warm),
        _ => None,
    }
}

/// Has the service alone do what is due after so many lines. Answers whether it does that.
fn is_maintained(world: &mut World<MemoryDirectory>, number: u64) -> bool {
    match chore_after(number) {
        Some(command) => world
            .step(&Line {
                session: 0,
                command,
            })
            .answer
            .is_ok(),
        None => true,
    }
}

/// Whether sets of rows stand in the cache, so that replies were compared that came from them.
fn has_sets(world: &mut World<MemoryDirectory>) -> bool {
    let line = Line {
        session: 0,
        command: Command::Stat,
    };
    match &world.step(&line).answer {
        Ok(Told::News(News::State(stat))) => stat.cached > 0,
        _ => false,
    }
}

/// Whether both answer all lines of the dice alike, each with what is due behind it.
fn are_alike(
    alloc: Global,
    world: &mut World<MemoryDirectory>,
    plain: &mut Plain,
    dice: &mut Dice,
) -> Result<bool, AllocError> {
    for number in 0..COUNT {
        if !is_answered_alike(alloc, world, plain, dice)? || !is_maintained(world, number) {
            return Ok(false);
        }
    }
    Ok(true)
}

/// Whether the world and a plain catalogue of its own do, some of it by cached sets.
fn is_alike(alloc: Global, world: &mut World<MemoryDirectory>, seed: u64) -> Result<bool, Refusal> {
    let mut plain = Plain::open(alloc, SHOP)?;
    Ok(are_alike(alloc, world, &mut plain, &mut Dice::new(seed))? && has_sets(world))
}

/// The same in a world of its own.
fn is_alike_from(alloc: Global, seed: u64) -> Result<bool, Refusal> {
    match World::open(alloc, MemoryDirectory::new(alloc), SHOP) {
        Ok(mut world) => {
            let is_alike = is_alike(alloc, &mut world, seed);
            let _directory = world.end();
            is_alike
        }
        Err(Unopened { refusal, seed: _ }) => Err(refusal),
    }
}

/// The runs, each with a seed of the dice.
const RUNS: &[(&str, u64)] = &[("run 1", 1), ("run 2", 2), ("run 3", 3)];

/// The name of the first run that isn't answered alike, if there is one.
fn failing(alloc: Global, runs: &[(&'static str, u64)]) -> Result<Option<&'static str>, Refusal> {
    for run in runs {
        if !is_alike_from(alloc, run.1)? {
            return Ok(Some(run.0));
        }
    }
    Ok(None)
}

#[test]
fn the_service_answers_as_plain_lists_do(rt: HostRuntime) -> Result<(), Fail> {
    expect_none(failing(rt.alloc(), RUNS))
}
