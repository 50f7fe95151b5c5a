//! Lines that look for items, over a session's right to a view.
ghost use Rattle.std.specs.Prelude.{◌≡◌, Some};
ghost use Rattle.cat_model.specs.Lines.{Said};
ghost use Rattle.cat_commands.specs.cat_search.Sorts.{sort_of};
ghost use Rattle.cat_commands.specs.cat_protocol.replies.Reply.{reply_of};
ghost use Rattle.cat_commands.specs.cat_ledger.Histories.{GoesBy};
ghost use Rattle.cat_service.specs.Lines.{Does};

use crate::world::World;
use cat_base::{Refusal, SessionNo};
use cat_commands::Ask;
use cat_commands::cat_protocol::lines::{Facets, Find};
use cat_commands::cat_protocol::replies::Answer;
use cat_commands::sets::segments_are_one;
use cat_directory::{Directory, Shelf};

impl<D: Directory + Shelf> World<D> {
    /// Answers a FIND.
    pub(crate) fn answer_find(
        &mut self,
        session: SessionNo,
        find: Find<'_>,
    ) -> Result<Answer, Refusal>
        ensures does { Does D.bytes D.can_fail D.fault_count session
            (Some (Said.find find.entry.token find.entry.count (sort_of find.entry.sort) find.entry.mark find.entry.query.now))
            self.old (reply_of result) self.new }
        ensures history { GoesBy D.bytes D.may_leave
            (Some (Said.find find.entry.token find.entry.count (sort_of find.entry.sort) find.entry.mark find.entry.query.now))
            (reply_of result) self.old.ledger self.new.ledger }
    {
        let held = self.ledger.held_view(session, find.token);
        let ask = Ask {
            sort: find.sort,
            after: find.mark,
            count: find.count,
        };
        cat_commands::searches::find(
            self.alloc,
            self.ledger.schema(),
            held,
            &mut self.filters,
            ask,
            find.query,
        )
    }

    /// Answers a FACETS.
    pub(crate) fn answer_facets(
        &mut self,
        session: SessionNo,
        facets: Facets<'_>,
    ) -> Result<Answer, Refusal>
        ensures does { Does D.bytes D.can_fail D.fault_count session
            (Some (Said.facets facets.entry.token facets.entry.dimension.now facets.entry.count facets.entry.query.now))
            self.old (reply_of result) self.new }
        ensures history { GoesBy D.bytes D.may_leave
            (Some (Said.facets facets.entry.token facets.entry.dimension.now facets.entry.count facets.entry.query.now))
            (reply_of result) self.old.ledger self.new.ledger }
    {
        let held = self.ledger.held_view(session, facets.token);
        // The segments of what is recorded agree on their numbers, which the kept states are found by.
        segments_are_one();
        cat_commands::searches::count_facets(
            self.alloc,
            self.ledger.schema(),
            held,
            &mut self.filters,
            &mut self.states,
            facets.dimension,
            facets.count,
            facets.query,
        )
    }
}
