//! What is served: a machine that its first line opens from a seed, and how far it has come.
ghost use Rattle.std.specs.Prelude.{◌≡◌, ℕ, Option, Result, option_map};
ghost use Rattle.cat_model.specs.Text.{Text};
ghost use Rattle.cat_model.specs.Served.{Outcome, outcome_text};
ghost use Rattle.cat_protocol.specs.sending.Out.{Sent};
ghost use Rattle.cat_protocol.specs.declared.serving.machine.Unopened.{Unopened};
ghost use Rattle.cat_protocol.specs.serving.Machine.{stands_open};

use crate::sending::WriteFault;
use cat_base::Refusal;
use std::alloc::Global;
use std::io::Write;

/// Why a first line opened nothing, with the seed that comes back.
#[derive(Drop)]
pub struct Unopened<S> {
    pub refusal: Refusal,
    pub seed: S,
}

/// How far serving came: a machine `M`, or the seed `S` that it would have been opened from.
#[derive(Drop)]
pub enum Stage<M, S> {
    /// No first line came, or it wasn't looked at.
    Waiting(S),
    /// The first line was refused, and the seed is what opening gave back.
    Refused(S),
    /// The first line opened the machine, which was left so by the lines behind it.
    Open(M),
}

impl<M, S> Stage<M, S> {
    /// Whether the first line opened the machine.
    pub fn is_open(&self) -> bool
        ensures { result ≡ stands_open self.now }
    {
        matches!(self, Stage::Open(_))
    }
}

/// What a first line opens from a seed, and what answers the lines behind it, one after another. A line that is too long
/// is none.
pub trait Machine {
    /// What the machine is opened from, and what comes back where it isn't opened.
    type Seed;

    /// What opening from a seed by a first line may give.
    ghost opens: { Self.Seed → Option Text → Result Self (Unopened Self.Seed) → Type 0 };

    /// What a line may be told from one state, and the state that it leaves.
    ghost step: { Self → Option Text → Outcome → Self → Type 0 };

    /// The number that is said when the machine is opened.
    ghost token: { Self → ℕ };

    /// Opens a machine from the seed by a first line, or says why not and gives a seed back.
    fn open(
        alloc: Global,
        seed: Self::Seed,
        line: Option<&[u8]>,
    ) -> Result<Self, Unopened<Self::Seed>>
        ensures { opens seed (option_map (λ l. l.now) line.entry) result };

    /// The number that is said of a machine which was just opened.
    fn start_token(&self) -> u64
        ensures { result ≡ token self.now };

    /// Answers a line, and writes the reply. The step is taken also where the writer fails.
    fn answer<W: Write>(&mut self, line: Option<&[u8]>, to: &mut W) -> Result<(), WriteFault>
        ensures { (told : Outcome) × step self.old (option_map (λ l. l.now) line.entry) told self.new
            × Sent (W.contents to.old) (W.contents to.new) result (outcome_text told) };
}
