//! Commits that are ready to be written.
ghost use Rattle.std.specs.Prelude.{◌≡◌, ◌<◌, All, OnOk, IfOk};
ghost use Rattle.cat_model.specs.LiveFile.{AreLiveRows};
ghost use Rattle.cat_model.specs.CommitFile.{Version, IsCommitFile, SpellsCommit};
ghost use Rattle.cat_commits.specs.writing.Drafts.{AreSpelled, AppendsSpelled, IsSpelled, commit_listing, new_entries};

use crate::writing::earlier::Listed;
use crate::writing::files::{NewFile, write_in_order};
use crate::writing::heading::Heading;
use crate::writing::listing::Listing;
use crate::{Commit, Version as FileVersion};
use cat_base::{Generation, Refusal};
use cat_directory::{Directory, FileName};
use cat_views::Leaf;
use cat_views::cat_segment::encode_liv;
use std::alloc::{AllocError, Global};
use std::marker::Model;

/// A commit that is ready to be written: all of its memory is taken, and no file is touched yet. (Lucene: what
/// `IndexWriter.prepareCommit` has at hand.)
///
/// Contracts see it as what it lists, what its own file says, and the names of the files that are synced before that is begun.
pub struct Draft {
    listing: Listing,
    commit: Commit,
    own: NewFile,
    live_files: Vec<NewFile>,
    names: Vec<FileName>,
    unsynced: Vec<FileName>,
}

impl Model for Draft {
    ghost use Rattle.std.specs.Prelude.{map};
    ghost use Rattle.cat_directory.specs.Names.{name_of};
    ghost use Rattle.cat_commits.specs.writing.Drafts as drafts;

    ghost Value = { drafts.Drafted };

    ghost view = { λ d. record { listing = d.listing; commit = d.commit; unsynced = map name_of d.unsynced.items } };

    ghost invariant = { λ d. drafts.IsDrafted (record { listing = d.listing; commit = d.commit; unsynced = map name_of d.unsynced.items })
        d.own d.live_files.items (map name_of d.names.items) };
}

impl Drop for Draft {
    fn drop(self) {
        let Draft {
            listing,
            commit,
            own,
            live_files,
            names,
            unsynced,
        } = self;
        drop(listing);
        drop(commit);
        drop(own);
        drop(live_files);
        drop(names);
        drop(unsynced);
    }
}

/// The commit under the heading that lists this.
fn commit_of(heading: Heading, listing: &Listing) -> Result<Commit, AllocError>
    ensures { IfOk result (λ c. c ≡ commit_listing heading listing.now) }
{
    Ok(Commit {
        version: FileVersion::Second,
        generation: heading.generation,
        token: heading.token,
        next_segment: heading.next_segment,
        text: heading.text,
        schema: heading.schema,
        segments: listing.segments()?,
    })
}

/// The commit's own file.
fn own_file(commit: &Commit) -> Result<NewFile, AllocError>
    requires form { IsCommitFile commit.now }
    requires second { commit.now.version ≡ Version.second }
    ensures { IfOk result (λ f. (f.name ≡ FileName.Commit commit.now.generation) × SpellsCommit f.bytes commit.now) }
{
    Ok(NewFile {
        name: FileName::Commit(commit.generation),
        bytes: commit.encode()?,
    })
}

/// The entry's new live file.
fn live_file(entry: &Listed, generation: Generation) -> Result<NewFile, AllocError>
    requires { AreLiveRows (record { number = entry.now.number; generation = generation; live = entry.now.live }) }
    ensures { IfOk result (IsSpelled generation entry.now) }
{
    let number = entry.segment().number();
    Ok(NewFile {
        name: FileName::Live(number, generation),
        bytes: encode_liv(number, generation, entry.live())?,
    })
}

/// Appends the entry's live file, if the commit of the generation writes it.
fn push_live_file(
    files: &mut Vec<NewFile>,
    entry: &Listed,
    generation: Generation,
) -> Result<(), AllocError>
    requires some { 0 < generation }
    requires live { entry.now.file ≡ generation → AreLiveRows (record { number = entry.now.number; generation = generation; live = entry.now.live }) }
    ensures { OnOk result (AppendsSpelled generation entry.now files.old.items files.new.items) }
{
    if !entry.is_new(generation) {
        return Ok(());
    }
    files.push(live_file(entry, generation)?)?;
    Ok(())
}

/// The live files that the commit of the generation writes.
fn live_files_of(
    alloc: Global,
    entries: &[Listed],
    generation: Generation,
) -> Result<Vec<NewFile>, AllocError>
    requires some { 0 < generation }
    requires live { All (λ x. x.file ≡ generation → AreLiveRows (record { number = x.number; generation = generation; live = x.live })) entries.now }
    ensures { IfOk result (λ files. AreSpelled generation (new_entries generation entries.now) files.items) }
{
    let mut files = Vec::new(alloc);
    for entry in entries {
        push_live_file(&mut files, entry, generation)?;
    }
    Ok(files)
}

impl Draft {
    ghost use Rattle.std.specs.Prelude.{◌≡◌, ◌≢◌, ◌⊎◌, ◌∷◌, false, true, map, Some, None, AllPairs, OnOk, IfOk, IfErr};
    ghost use Rattle.std.specs.List.{AllByRecursion};
    ghost use Rattle.cat_base.specs.declared.refusal.Refusal.TheVariants.{Memory, Device};
    ghost use Rattle.cat_model.specs.Files.{Name};
    ghost use Rattle.cat_model.specs.CommitFile.{IsCommitFile, SpellsCommit, commit_needs, spelled_commit};
    ghost use Rattle.cat_directory.specs.Devices.{CountsWriting};
    ghost use Rattle.cat_directory.specs.Names.{name_of};
    ghost use Rattle.cat_ledger_laws.specs.model.Users.{has_name};
    ghost use Rattle.cat_ledger_laws.specs.shape.Ties.{TouchesOnly, TellsBytes};
    ghost use Rattle.cat_commits.specs.writing.Entries.{listing_after};
    ghost use Rattle.cat_commits.specs.writing.NewFiles.{NoMoreBut, AreSettled, ComesLast, OnlyTorn};
    ghost use Rattle.cat_commits.specs.writing.Unsynced.{begun};
    ghost use Rattle.cat_commits.specs.writing.Drafts.{HasNewFile, OwnComesBehind, commit_listing, drafted};

    /// The commit under the heading that lists these leaves, after the one that lists this. Live sets are shared; the bytes of
    /// each new live file and of the commit's own file are made here, so that nothing but the device is asked for any more.
    ///
    /// It asks for segments with different numbers in what is listed, and for a commit that a file can say. Then a file can say
    /// each new live set too.
    pub fn of(earlier: &Listing, leaves: &[Leaf], heading: Heading) -> Result<Self, AllocError>
        requires apart { AllPairs (λ a b. a.number ≢ b.number) earlier.now }
        requires form { IsCommitFile (commit_listing heading (listing_after earlier.now heading.generation leaves.now)) }
        ensures ok { IfOk result (λ d. d ≡ drafted earlier.now leaves.now heading) }
    {
        let generation = heading.generation;
        let (listing, unsynced) = earlier.next_with_unsynced(leaves, generation)?;
        let live_files = live_files_of(*unsynced.allocator(), listing.entries(), generation)?;
        let commit = commit_of(heading, &listing)?;
        let own = own_file(&commit)?;
        let names = commit.names()?;
        Ok(Draft {
            listing,
            commit,
            own,
            live_files,
            names,
            unsynced,
        })
    }

    /// The names of the files that the commit needs (Lucene: `IndexCommit.getFileNames`).
    pub fn names(&self) -> &[FileName]
        ensures { map name_of result.now ≡ commit_needs self.now.commit }
    {
        &self.names
    }

    /// Writes the new live files, syncs all files that the commit before didn't list, and only then writes the commit's own
    /// file, which comes into being with its last sync. (Lucene: `IndexWriter.prepareCommit` and `finishCommit`.)
    ///
    /// [`Refusal::Device`] where the device fails, or doesn't have a file that is to be synced and that isn't written here; else
    /// [`Refusal::Memory`]. Then none but the new files may have changed: what earlier commits need is as it was.
    pub fn write<D: Directory>(&self, device: &mut D) -> Result<(), Refusal>
        ensures own { OnOk result (TellsBytes (D.bytes device.new) (FileName.Commit self.now.commit.generation)
            (λ bytes. SpellsCommit bytes self.now.commit)) }
        ensures live { OnOk result (AllByRecursion (HasNewFile (D.bytes device.new) self.now.commit.generation) self.now.listing) }
        ensures others { TouchesOnly (begun self.now.commit.generation self.now.listing) (D.bytes device.old) (D.bytes device.new) }
        ensures crash { NoMoreBut (begun self.now.commit.generation self.now.listing) (D.may_leave device.old) (D.may_leave device.new) }
        ensures lasts { OnOk result (AreSettled (Name.commit self.now.commit.generation ∷ self.now.unsynced)
            (D.bytes device.new) (D.may_leave device.new)) }
        ensures order { ComesLast (FileName.Commit self.now.commit.generation) self.now.unsynced (D.bytes device.old) (D.bytes device.new)
            (D.may_leave device.old) (D.may_leave device.new) }
        ensures torn { OnlyTorn (FileName.Commit self.now.commit.generation) (spelled_commit self.now.commit) (D.bytes device.old)
            (D.may_leave device.old) (D.may_leave device.new) }
        ensures behind { OwnComesBehind self.now.commit.generation self.now.listing (D.bytes device.old) (D.bytes device.new)
            (D.may_leave device.old) (D.may_leave device.new) }
        ensures refusal { IfErr result (λ e. (e ≡ Memory) ⊎ (e ≡ Device)) }
        ensures device { IfErr result (λ e. e ≡ Device → D.can_fail device.old
            ⊎ ((q : FileName) × (has_name (name_of q) self.now.unsynced ≡ true)
            × (has_name (name_of q) (begun self.now.commit.generation self.now.listing) ≡ false) × (D.bytes device.old q ≡ Some None))) }
        ensures can { D.can_fail device.new → D.can_fail device.old }
        ensures counted { CountsWriting (D.fault_count device.old) (D.fault_count device.new) result }
    {
        let alloc = *self.unsynced.allocator();
        write_in_order(device, alloc, &self.live_files, &self.unsynced, &self.own)
    }

    /// The commit, and what it lists, for who keeps them. The numbers of its segments differ.
    pub fn into_parts(self) -> (Commit, Listing)
        ensures parts { (result.0 ≡ self.commit) × (result.1 ≡ self.listing) }
        ensures apart { AllPairs (λ a b. a.number ≢ b.number) result.1 }
    {
        let Draft {
            listing,
            commit,
            own,
            live_files,
            names,
            unsynced,
        } = self;
        drop(own);
        drop(live_files);
        drop(names);
        drop(unsynced);
        (commit, listing)
    }
}
