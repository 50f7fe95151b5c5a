//! A session's right to a view.
ghost use Rattle.std.specs.Prelude.{◌≡◌, ℕ, List, length, map, option_map, Ok, None, IfOk, IfErr};
ghost use Rattle.cat_model.specs.cat_base.declared.refusal.Refusal.TheVariants.{Damaged, Device, Memory};
ghost use Rattle.cat_model.specs.Answer.{HasNoLineFeed, stored};
ghost use Rattle.cat_model.specs.View.{needs, records_in};
ghost use Rattle.cat_directory.specs.Devices.{CountsReading, NoMore};
ghost use Rattle.cat_directory.specs.Names.{name_of};
ghost use Rattle.cat_views.specs.Sources.{HoldsSource, MayReachSource, TellsSource, stored_length};

use crate::view::View;
use cat_directory::{FileName, Shelf};
use cat_model::cat_base::{Refusal, SessionNo, Token};
use std::alloc::{AllocError, Global};
use std::marker::Model;

/// A session's right to a view (Lucene: the `IndexSearcher` that `SearcherLifetimeManager.acquire` hands out, until its
/// `release`). As long as it lasts nothing that the view needs goes, whatever is written, merged or pruned, and its reads
/// answer the same.
///
/// It isn't dropped by leaving a scope, so that none is forgotten: it is given back to the ledger that handed it out, or
/// ended by [`give_up`](Hold::give_up).
pub struct Hold {
    session: SessionNo,
    view: View,
}

impl Model for Hold {
    ghost use Rattle.cat_views.specs.Holds as holds;

    ghost Value = { holds.HeldView };

    ghost view = { λ h. record { session = h.session; view = h.view } };
}

impl Hold {
    /// The session's right to the view. Whoever makes it sees to it that the view stays: the ledger counts it as held.
    pub fn of(session: SessionNo, view: View) -> Hold
        ensures { result ≡ record { session = session; view = view } }
    {
        Hold { session, view }
    }

    /// The session whose right it is.
    pub fn session(&self) -> SessionNo
        ensures { result ≡ self.now.session }
    {
        self.session
    }

    /// The token of the view, by which it was acquired.
    pub fn token(&self) -> Token
        ensures { result ≡ self.now.view.token }
    {
        self.view.token()
    }

    /// The view, as other searches and counts over it take it.
    pub fn view(&self) -> &View
        ensures { result.now ≡ self.now.view }
    {
        &self.view
    }

    /// The text that the item of this id came as, as [`View::get`] reads it from the shelf; none where no live row has the
    /// id, and then no file is read (Lucene: `StoredFields.document`).
    ///
    /// [`Refusal::Damaged`] if the file with the text is absent, ends before the text does, or has a line feed in it.
    /// [`Refusal::Device`] if the shelf fails; else [`Refusal::Memory`], which never hides that the file is absent or ends too
    /// soon.
    pub fn get<S: Shelf>(
        &self,
        alloc: Global,
        shelf: &mut S,
        id: &str,
    ) -> Result<Option<Vec<u8>>, Refusal>
        ensures ok { IfOk result (λ found. (files : ℕ → List ℕ) → TellsSource (S.bytes shelf.old) files self.now.view id.now
            → option_map (λ bytes. bytes.items) found ≡ stored (records_in files self.now.view) id.now) }
        ensures whole { IfOk result (λ found. option_map (λ bytes. length bytes.items) found ≡ stored_length self.now.view id.now) }
        ensures one_line { IfOk result (λ found. HasNoLineFeed (option_map (λ bytes. bytes.items) found)) }
        ensures none { stored_length self.now.view id.now ≡ None → (result ≡ Ok None) × (S.fault_count shelf.new ≡ S.fault_count shelf.old) }
        ensures damaged { IfErr result (λ e. e ≡ Damaged → (files : ℕ → List ℕ) → TellsSource (S.bytes shelf.old) files self.now.view id.now
            → HoldsSource files self.now.view id.now → ⊥) }
        ensures due { IfErr result (λ e. e ≡ Memory → MayReachSource (S.bytes shelf.old) self.now.view id.now) }
        ensures device { IfErr result (λ e. e ≡ Device → S.can_fail shelf.old) }
        ensures same { (q : FileName) → S.bytes shelf.new q ≡ S.bytes shelf.old q }
        ensures crash { (q : FileName) → NoMore (S.may_leave shelf.old q) (S.may_leave shelf.new q) }
        ensures can { S.can_fail shelf.new → S.can_fail shelf.old }
        ensures counted { CountsReading (S.fault_count shelf.old) (S.fault_count shelf.new) result }
    {
        self.view.get(alloc, shelf, id)
    }

    /// The names of the files that a searcher of the view needs, those of each segment in turn (Lucene: what
    /// `IndexCommit.getFileNames` lists, without the files of a commit).
    pub fn files(&self, alloc: Global) -> Result<Vec<FileName>, AllocError>
        ensures ok { IfOk result (λ names. map name_of names.items ≡ needs self.now.view) }
    {
        self.view.files(alloc)
    }

    /// Ends it without giving it back: the ledger still counts the view as held, so that it never goes. It takes no memory.
    pub fn give_up(self) {
        let Hold {
            session: _,
            view: _,
        } = self;
    }
}
