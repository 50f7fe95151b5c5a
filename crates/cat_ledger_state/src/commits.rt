//! The commit: what stands is to outlast the program.
//!
//! Lucene's `IndexWriter.commit`, with `IndexFileDeleter.checkpoint`. That what waits is flushed before is left to who commits.
ghost use Rattle.std.specs.Prelude.{◌≡◌, ◌⊎◌, ◌<◌, ◌≤◌, ◌+◌, false, true, [], ◌∷◌, ◌++◌, ◌^◌, map, filter, vec_len, vec_capacity, Some, None, IfOk, IfErr, OnOk, OnErr};
ghost use Rattle.cat_base.specs.declared.refusal.Refusal.TheVariants.{Memory, Device, Spent};
ghost use Rattle.cat_model.specs.Files.{Name};
ghost use Rattle.cat_model.specs.Forms.{IsCommitText};
ghost use Rattle.cat_model.specs.Limits.{last_number};
ghost use Rattle.cat_directory.specs.Devices.{CountsOne, NoMore};
ghost use Rattle.cat_directory.specs.Names.{name_of};
ghost use Rattle.cat_directory.specs.declared.name.FileName.{FileName};
ghost use Rattle.cat_model.specs.CommitFile.{IsCommitFile, commit_needs, spelled_commit};
ghost use Rattle.cat_model.specs.State.{stays_kept};
ghost use Rattle.cat_ledger_laws.specs.model.Users.{users_of, has_name, times, Changes};
ghost use Rattle.cat_lifetimes.specs.refs.Counts.{names_in};
ghost use Rattle.cat_ledger_laws.specs.shape.CommitLaws.{names_begun};
ghost use Rattle.cat_ledger_laws.specs.shape.Steps.{commit_file_now, listed_now};
ghost use Rattle.cat_commits.specs.writing.Drafts.{OwnComesBehind};
ghost use Rattle.cat_commits.specs.writing.NewFiles.{AreSettled, ComesLast, OnlyTorn};
ghost use Rattle.cat_ledger_state.specs.Commits.{HasCommitted, draft_now, names_given, names_synced};
ghost use Rattle.cat_ledger_state.specs.Cores.{HasGivenUp, StayKnown, is_begun};

use crate::kept::{files_leaving, keep};
use crate::state::Core;
use cat_base::{Generation, LAST_NUMBER, MAX_RECORDS, Refusal, Text};
use cat_commits::writing::{Draft, Heading, Listing, drafts_write_commits};
use cat_commits::{Commit, Snapshots};
use cat_directory::{Directory, FileName};
use cat_lifetimes::refs::FileRefs;
use std::alloc::AllocError;

/// A commit that is ready to be written, and the names of the files of the commits that go for it.
#[derive(Drop)]
struct ReadyCommit {
    draft: Draft,
    given: Vec<FileName>,
}

/// Makes room for a commit more, and counts it as a user of these files. An error changes nothing.
fn make_room(
    commits: &mut Vec<Commit>,
    refs: &mut FileRefs,
    names: &[FileName],
) -> Result<(), AllocError>
    requires { (q : Name) → users_of refs.old q + times q (names_in names.now) < 2 ^ 64 }
    ensures same { commits.new.items ≡ commits.old.items }
    ensures room { OnOk result (vec_len commits.new < vec_capacity commits.new) }
    ensures ok { OnOk result (Changes (names_in names.now) [] refs.old refs.new) }
    ensures err { OnErr result (refs.new ≡ refs.old) }
{
    commits.reserve(1)?;
    refs.take(names)
}

/// Keeps the commit where it was written, and gives up the names of those that go for it; else its own names. It takes no memory.
fn conclude(
    commits: &mut Vec<Commit>,
    listing: &mut Listing,
    refs: &mut FileRefs,
    snapshots: &Snapshots,
    ready: ReadyCommit,
    written: &Result<(), Refusal>,
)
    requires room { vec_len commits.old < vec_capacity commits.old }
    requires given { (q : Name) → times q (names_in ready.given.items) ≤ users_of refs.old q }
    requires taken { (q : Name) → times q (commit_needs ready.draft.commit) ≤ users_of refs.old q }
    ensures kept { OnOk written.now (commits.new.items
        ≡ filter (λ c. stays_kept snapshots.now (Some ready.draft.commit.generation) c.generation) commits.old.items ++ ready.draft.commit ∷ []) }
    ensures listed { OnOk written.now (listing.new ≡ ready.draft.listing) }
    ensures gone { OnOk written.now (Changes [] (names_in ready.given.items) refs.old refs.new) }
    ensures stay { OnErr written.now (commits.new.items ≡ commits.old.items) }
    ensures unlisted { OnErr written.now (listing.new ≡ listing.old) }
    ensures undone { OnErr written.now (Changes [] (commit_needs ready.draft.commit) refs.old refs.new) }
{
    let ReadyCommit { draft, given } = ready;
    match written {
        Ok(()) => {
            refs.give(&given);
            let (commit, listed) = draft.into_parts();
            keep(commits, snapshots, commit);
            *listing = listed;
        }
        Err(_) => refs.give(draft.names()),
    }
}

impl Core {
    /// The commit of now with this text, ready to be written.
    fn draft(&self, text: &str) -> Result<Draft, AllocError>
        requires text { IsCommitText text.now }
        requires left { self.now.next_generation ≤ last_number }
        ensures ok { IfOk result (λ d. d ≡ draft_now text.now self.now) }
        ensures form { IsCommitFile (commit_file_now text.now self.now) }
    {
        // Its contract says that they are those of a schema.
        let _fields = self.schema.fields();
        let heading = Heading {
            generation: self.next_generation,
            token: self.count,
            next_segment: self.next_segment,
            text: Text::from_str(self.alloc, text)?,
            schema: self.schema.copy()?,
        };
        Draft::of(&self.listing, self.current.leaves(), heading)
    }

    /// The same, with the names of the files of the commits that go for it.
    fn ready(&self, text: &str) -> Result<ReadyCommit, AllocError>
        requires text { IsCommitText text.now }
        requires left { self.now.next_generation ≤ last_number }
        ensures draft { IfOk result (λ r. r.draft ≡ draft_now text.now self.now) }
        ensures given { IfOk result (λ r. map name_of r.given.items ≡ names_given self.now) }
        ensures form { IsCommitFile (commit_file_now text.now self.now) }
    {
        let draft = self.draft(text)?;
        let newest = Some(self.next_generation);
        let given = files_leaving(self.alloc, &self.commits, newest, &self.snapshots, None)?;
        Ok(ReadyCommit { draft, given })
    }

    /// Keeps a commit of now with this text, where nothing waits, and answers its number. All that it needs lasts then. The
    /// commits go that were kept for being the newest alone, and their files are pending where nobody else needs them. (Lucene:
    /// `IndexWriter.commit` with its user data.)
    ///
    /// [`Refusal::Spent`] where no number is left for a commit; else [`Refusal::Device`] where the directory fails, or doesn't
    /// have a file of a segment that is to be synced, or [`Refusal::Memory`], where the directory counted no
    /// failure. Behind an error no commit comes and none goes; where a file was begun, the number isn't given out again; the files
    /// that were begun are pending, and those that were pending stay so.
    pub fn commit<D: Directory>(
        &mut self,
        device: &mut D,
        text: &str,
    ) -> Result<Generation, Refusal>
        requires flushed { self.old.buffered ≡ [] }
        requires text { IsCommitText text.now }
        ensures form { self.old.next_generation ≤ last_number → IsCommitFile (commit_file_now text.now self.old) }
        ensures number { IfOk result (λ g. g ≡ self.old.next_generation) }
        ensures ok { OnOk result (HasCommitted text.now (D.bytes device.old) self.old (D.bytes device.new) self.new) }
        ensures err { OnErr result (HasGivenUp (names_begun self.old) (D.bytes device.old) self.old (D.bytes device.new) self.new) }
        ensures known { OnErr result (StayKnown self.old.users self.new.users) }
        ensures taken { OnErr result ((self.new.next_generation ≡ self.old.next_generation + 1) ⊎ (device.new ≡ device.old)) }
        ensures crash { (q : FileName) → is_begun (names_begun self.old) q ≡ false
            → NoMore (D.may_leave device.old q) (D.may_leave device.new q) }
        ensures lasts { OnOk result (AreSettled (Name.commit self.old.next_generation ∷ names_synced self.old)
            (D.bytes device.new) (D.may_leave device.new)) }
        ensures order { ComesLast (FileName.Commit self.old.next_generation) (names_synced self.old) (D.bytes device.old) (D.bytes device.new)
            (D.may_leave device.old) (D.may_leave device.new) }
        ensures behind { OwnComesBehind self.old.next_generation (listed_now self.old) (D.bytes device.old) (D.bytes device.new)
            (D.may_leave device.old) (D.may_leave device.new) }
        ensures torn { OnlyTorn (FileName.Commit self.old.next_generation) (spelled_commit (commit_file_now text.now self.old))
            (D.bytes device.old) (D.may_leave device.old) (D.may_leave device.new) }
        ensures spent { IfErr result (λ e. e ≡ Spent → last_number < self.old.next_generation) }
        ensures due { IfErr result (λ e. (e ≡ Memory) ⊎ (e ≡ Device) → self.old.next_generation ≤ last_number) }
        ensures device { IfErr result (λ e. e ≡ Device → D.can_fail device.old
            ⊎ ((q : FileName) × (has_name (name_of q) (names_synced self.old) ≡ true) × (is_begun (names_begun self.old) q ≡ false)
            × (D.bytes device.old q ≡ Some None))) }
        ensures counted { IfErr result (λ e. e ≡ Device → CountsOne (D.fault_count device.old) (D.fault_count device.new)) }
        ensures memory { IfErr result (λ e. e ≡ Memory → D.fault_count device.new ≡ D.fault_count device.old) }
        ensures can { D.can_fail device.new → D.can_fail device.old }
        ensures rises { D.fault_count device.old ≤ D.fault_count device.new }
        ensures refusal { IfErr result (λ e. (e ≡ Memory) ⊎ (e ≡ Device) ⊎ (e ≡ Spent)) }
    {
        drafts_write_commits();
        let generation = self.next_generation;
        if generation > LAST_NUMBER {
            return Err(Refusal::Spent);
        }
        prove!(self.records.len() <= MAX_RECORDS);
        let ready = self.ready(text)?;
        make_room(&mut self.commits, &mut self.refs, ready.draft.names())?;
        self.next_generation = generation + 1;
        let written = ready.draft.write(device);
        conclude(
            &mut self.commits,
            &mut self.listing,
            &mut self.refs,
            &self.snapshots,
            ready,
            &written,
        );
        if let Err(refusal) = written {
            return Err(refusal);
        }
        Ok(generation)
    }
}
