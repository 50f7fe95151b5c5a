//! Views: segments with their live rows, as a searcher sees them.
ghost use Rattle.std.specs.Prelude.{◌≡◌, ◌<◌, ℕ, false, List, count_by, length, map, option_map, slice_set, Ok, None, IfOk, IfErr, OnOk, OnErr};
ghost use Rattle.std.specs.Arc.{arc_value};
ghost use Rattle.std.specs.List.{flat_map};
ghost use Rattle.cat_model.specs.cat_base.declared.refusal.Refusal.TheVariants.{Damaged, Device, Memory};
ghost use Rattle.cat_model.specs.Answer.{HasNoLineFeed, stored};
ghost use Rattle.cat_model.specs.View.{IsView, needs, records_in};
ghost use Rattle.cat_directory.specs.Devices.{CountsReading, NoMore};
ghost use Rattle.cat_directory.specs.Names.{name_of};
ghost use Rattle.cat_views.specs.Rows.{first_in};
ghost use Rattle.cat_views.specs.Sources.{HoldsSource, MayReachSource, TellsSource, stored_length};
ghost use Rattle.cat_views.specs.Views.{leaf_names};

use crate::lines::is_one_line;
use crate::lookup::live_row_with;
use cat_directory::{FileName, Shelf};
use cat_model::cat_base::{Refusal, Token, WriteNo};
use cat_segment::{Live, Schema, Segment};
use std::alloc::{AllocError, Global};
use std::marker::Model;
use std::sync::Arc;

/// A segment of a view, and which of its rows are live (Lucene: a `LeafReader`, by its `LeafReaderContext`, with its
/// `liveDocs`). Both are shared: a copy of a leaf counts one more user of each.
pub struct Leaf {
    segment: Arc<Segment>,
    live: Arc<Live>,
    // How many rows are live, so that what matches every item is counted without a look at the rows.
    count: usize,
}

impl Model for Leaf {
    ghost use Rattle.std.specs.Prelude.{◌≡◌, count_by, length};
    ghost use Rattle.std.specs.Arc.{arc_value};
    ghost use Rattle.cat_model.specs.View as model;

    ghost Value = { model.Leaf };

    ghost view = { λ l. record { segment = arc_value l.segment; live = arc_value l.live } };

    ghost invariant = { λ l. (length (arc_value l.live) ≡ length (arc_value l.segment).rows) × (l.count ≡ count_by (λ b. b) (arc_value l.live)) };
}

impl Drop for Leaf {
    fn drop(self) {
        let Leaf {
            segment,
            live,
            count: _,
        } = self;
        drop(segment);
        drop(live);
    }
}

impl Leaf {
    /// The segment with these of its rows live. There is one truth value for each row.
    pub fn new(segment: Arc<Segment>, live: Arc<Live>) -> Leaf
        requires { length (arc_value live) ≡ length (arc_value segment).rows }
        ensures { result ≡ record { segment = arc_value segment; live = arc_value live } }
    {
        let count = live.count();
        Leaf {
            segment,
            live,
            count,
        }
    }

    /// The same leaf once more; all in it is shared. The error also stands for a full count of users.
    pub fn copy(&self) -> Result<Leaf, AllocError>
        ensures ok { IfOk result (λ l. l ≡ self.now) }
    {
        let segment = Arc::try_clone(&self.segment)?;
        let live = Arc::try_clone(&self.live)?;
        Ok(Leaf {
            segment,
            live,
            count: self.count,
        })
    }

    /// The segment.
    pub fn segment(&self) -> &Segment
        ensures { result.now ≡ self.now.segment }
    {
        &self.segment
    }

    /// Which rows of the segment are live.
    pub fn live(&self) -> &Live
        ensures value { result.now ≡ self.now.live }
        ensures long { length self.now.live ≡ length self.now.segment.rows }
    {
        &self.live
    }

    /// How many rows are live, which is known without a look at them (Lucene: `IndexReader.numDocs`).
    pub fn live_count(&self) -> usize
        ensures { result ≡ count_by (λ b. b) self.now.live }
    {
        self.count
    }

    /// Makes the row dead in this leaf alone; one that is dead stays so. A live set that other leaves share is copied first
    /// (Lucene: `PendingDeletes.delete`). An error changes nothing.
    #[tactic(auto, using(crate::proofs::Killed::count_killed))]
    pub fn kill(&mut self, alloc: Global, row: usize) -> Result<(), AllocError>
        requires { row < length self.old.segment.rows }
        ensures ok { OnOk result (self.new ≡ record { segment = self.old.segment; live = slice_set self.old.live row false }) }
        ensures err { OnErr result (self.new ≡ self.old) }
    {
        let lost = self.live.is_live(row) as usize;
        if let Some(live) = Arc::get_mut(&mut self.live) {
            live.kill(row);
            self.count -= lost;
            return Ok(());
        }
        let mut copy = self.live.copy()?;
        copy.kill(row);
        self.live = Arc::new(alloc, copy)?;
        self.count -= lost;
        Ok(())
    }

    /// The segment once more, for a reader of its own: it is shared, and has one user more. The error also stands for a full
    /// count of users.
    pub fn share_segment(&self) -> Result<Arc<Segment>, AllocError>
        ensures ok { IfOk result (λ s. arc_value s ≡ self.now.segment) }
    {
        Arc::try_clone(&self.segment)
    }

    /// The live set once more, as it is now: it is shared, and has one user more, so that a later kill leaves it as it is.
    /// The error also stands for a full count of users.
    pub fn share_live(&self) -> Result<Arc<Live>, AllocError>
        ensures ok { IfOk result (λ l. arc_value l ≡ self.now.live) }
    {
        Arc::try_clone(&self.live)
    }

    /// The number of the write that put the segment's first row, live or dead.
    pub fn first_number(&self) -> WriteNo
        ensures some { 0 < length self.now.segment.rows }
        ensures number { result ≡ first_in self.now.segment.rows }
    {
        prove!(0 < self.segment.len());
        self.segment.write_number(0)
    }
}

/// What a searcher sees of the catalogue: segments with their live rows, under the number of writes that they take in
/// (Lucene: a `DirectoryReader`, as an `IndexSearcher` is made over it). It never changes, whatever is written later.
pub struct View {
    schema: Arc<Schema>,
    leaves: Arc<Vec<Leaf>>,
    token: Token,
}

impl Model for View {
    ghost use Rattle.std.specs.Arc.{arc_value};
    ghost use Rattle.cat_model.specs.View as model;

    ghost Value = { model.View };

    ghost view = { λ v. record { schema = arc_value v.schema; leaves = (arc_value v.leaves).items; token = v.token } };

    ghost invariant = { λ v. model.IsView (record { schema = arc_value v.schema; leaves = (arc_value v.leaves).items; token = v.token }) };
}

impl Drop for View {
    fn drop(self) {
        let View {
            schema,
            leaves,
            token: _,
        } = self;
        drop(schema);
        drop(leaves);
    }
}

impl View {
    /// The view of these segments, in order, at the token. Their numbers differ, and each has the fields of the schema; the numbers of
    /// the writes that put their rows rise over all segments, dead rows too, and the ids of live rows differ.
    pub fn of(
        alloc: Global,
        schema: Schema,
        leaves: Vec<Leaf>,
        token: Token,
    ) -> Result<View, AllocError>
        requires { IsView (record { schema = schema; leaves = leaves.items; token = token }) }
        ensures ok { IfOk result (λ v. v ≡ record { schema = schema; leaves = leaves.items; token = token }) }
    {
        let schema = Arc::new(alloc, schema)?;
        let leaves = Arc::new(alloc, leaves)?;
        Ok(View {
            schema,
            leaves,
            token,
        })
    }

    /// The fields of the catalogue.
    pub fn schema(&self) -> &Schema
        ensures { result.now ≡ self.now.schema }
    {
        &self.schema
    }

    /// The segments in order, each with its live rows (Lucene: `IndexReader.leaves`).
    pub fn leaves(&self) -> &[Leaf]
        ensures value { result.now ≡ self.now.leaves }
        ensures valid { IsView self.now }
    {
        self.leaves.as_slice()
    }

    /// The number of writes that the view takes in (Lucene: `DirectoryReader.getVersion`).
    pub fn token(&self) -> Token
        ensures { result ≡ self.now.token }
    {
        self.token
    }

    /// The same view once more; all in it is shared (Lucene: `IndexReader.incRef`). The error also stands for a full count
    /// of users.
    pub fn copy(&self) -> Result<View, AllocError>
        ensures ok { IfOk result (λ v. v ≡ self.now) }
    {
        let schema = Arc::try_clone(&self.schema)?;
        let leaves = Arc::try_clone(&self.leaves)?;
        Ok(View {
            schema,
            leaves,
            token: self.token,
        })
    }

    /// The names of the files that a searcher of the view needs, those of each segment in turn (Lucene: what
    /// `IndexCommit.getFileNames` lists, without the files of a commit).
    pub fn files(&self, alloc: Global) -> Result<Vec<FileName>, AllocError>
        ensures ok { IfOk result (λ names. map name_of names.items ≡ needs self.now) }
    {
        files_of(alloc, &self.leaves)
    }

    /// The text that the item of this id came as, read from the file of its segment's sources; none where no live row has
    /// the id, and then no file is read. (Lucene: `StoredFields.document` of the document that a primary key finds.)
    ///
    /// What is read has no line feed, so nobody takes it for lines of a reply: no item's text has one, since each came as one
    /// line. A crash may leave no more of the files than before.
    ///
    /// [`Refusal::Damaged`] if that file is absent, ends before the text does, or has a line feed in it; what other files hold
    /// is not looked at. [`Refusal::Device`] if the shelf fails; else [`Refusal::Memory`], which never hides that the file is
    /// absent or ends too soon.
    pub fn get<S: Shelf>(
        &self,
        alloc: Global,
        shelf: &mut S,
        id: &str,
    ) -> Result<Option<Vec<u8>>, Refusal>
        ensures ok { IfOk result (λ found. (files : ℕ → List ℕ) → TellsSource (S.bytes shelf.old) files self.now id.now
            → option_map (λ bytes. bytes.items) found ≡ stored (records_in files self.now) id.now) }
        ensures whole { IfOk result (λ found. option_map (λ bytes. length bytes.items) found ≡ stored_length self.now id.now) }
        ensures one_line { IfOk result (λ found. HasNoLineFeed (option_map (λ bytes. bytes.items) found)) }
        ensures none { stored_length self.now id.now ≡ None → (result ≡ Ok None) × (S.fault_count shelf.new ≡ S.fault_count shelf.old) }
        ensures damaged { IfErr result (λ e. e ≡ Damaged → (files : ℕ → List ℕ) → TellsSource (S.bytes shelf.old) files self.now id.now
            → HoldsSource files self.now id.now → ⊥) }
        ensures due { IfErr result (λ e. e ≡ Memory → MayReachSource (S.bytes shelf.old) self.now id.now) }
        ensures device { IfErr result (λ e. e ≡ Device → S.can_fail shelf.old) }
        ensures same { (q : FileName) → S.bytes shelf.new q ≡ S.bytes shelf.old q }
        ensures crash { (q : FileName) → NoMore (S.may_leave shelf.old q) (S.may_leave shelf.new q) }
        ensures can { S.can_fail shelf.new → S.can_fail shelf.old }
        ensures counted { CountsReading (S.fault_count shelf.old) (S.fault_count shelf.new) result }
    {
        let Some((leaf, row)) = live_row_with(&self.leaves, id) else {
            return Ok(None);
        };
        let segment = leaf.segment();
        let name = FileName::Source(segment.number());
        let offset = segment.source_offset(row);
        let text = shelf.read(alloc, name, offset, segment.source_length(row))?;
        if !is_one_line(&text) {
            return Err(Refusal::Damaged);
        }
        Ok(Some(text))
    }
}

/// The names of the files of the leaves' segments.
fn files_of(alloc: Global, leaves: &[Leaf]) -> Result<Vec<FileName>, AllocError>
    ensures ok { IfOk result (λ names. map name_of names.items ≡ flat_map leaf_names leaves.now) }
{
    let mut names = Vec::new(alloc);
    for leaf in leaves {
        let number = leaf.segment().number();
        names.push(FileName::Segment(number))?;
        names.push(FileName::Source(number))?;
    }
    Ok(names)
}
