//! The steps of a call on the passes.
ghost use Rattle.std.specs.Prelude.{◌≡◌, ℕ, suc, ◌≤◌, true, false, [], ◌∷◌, length};
ghost use Rattle.crossbeam_utils.specs.Seq.{cell_view};
ghost use Rattle.cat_threads.specs.history.Entries.{has_session};
ghost use Rattle.cat_threads.specs.history.Rules.{scribe, caller, old_of, noted, recorded, Compared, NoStrangers, longer, greater, note_of, seating, seat_for};

use crate::history::cell::{
    Cell, Checks, Level, Notes, Noting, Parts, Records, Seat, Seating, Seats, Tells, Under, Whole,
};
use crate::history::rule;
use std::marker::Brand;
use std::sync::Wait;

/// The scribe's pass and the caller's become one, and what the caller had seen is compared.
pub fn join<R: Wait>(rt: &R, cell: &Cell, desk: &mut Seat, mine: &mut Seat)
    requires desk { (desk.old.table_id ≡ cell.now.table.shared.table_id) × (cell_view desk.old ≡ scribe (cell_view desk.old).list (cell_view desk.old).token (cell_view desk.old).seated []) }
    requires mine { (mine.old.table_id ≡ cell.now.table.shared.table_id) × ((cell_view mine.old).scribe ≡ false) }
    ensures desk { (desk.new.table_id ≡ desk.old.table_id) × (cell_view desk.new ≡ scribe (cell_view desk.old).list (cell_view desk.old).token (cell_view desk.old).seated (cell_view mine.old).own) }
    ensures seen { Compared (cell_view desk.new) (old_of (cell_view mine.old)) }
    ensures sessions { NoStrangers (cell_view desk.new).seated (cell_view desk.new).list }
{
    let theirs = rule::split::<Whole>(cell, mine);
    rule::take_in::<Under>(cell, desk, theirs);
    rule::load::<Checks, R>(rt, cell, desk);
}

/// The joined pass comes apart. The result is the caller's.
pub fn part(cell: &Cell, desk: &mut Seat) -> Seat
    requires { (desk.old.table_id ≡ cell.now.table.shared.table_id) × (cell_view desk.old ≡ scribe (cell_view desk.old).list (cell_view desk.old).token (cell_view desk.old).seated (cell_view desk.old).own) }
    ensures desk { (desk.new.table_id ≡ desk.old.table_id) × (cell_view desk.new ≡ scribe (cell_view desk.old).list (cell_view desk.old).token (cell_view desk.old).seated []) }
    ensures mine { (result.table_id ≡ desk.old.table_id) × (cell_view result ≡ caller (cell_view desk.old).list (cell_view desk.old).token (cell_view desk.old).own) }
{
    rule::split::<Parts>(cell, desk)
}

/// The joined pass comes apart, and the caller's goes where it stood. So a call on the ledger lets no pass go.
pub(crate) fn part_into(cell: &Cell, desk: &mut Seat, mine: &mut Seat)
    requires { (desk.old.table_id ≡ cell.now.table.shared.table_id) × (cell_view desk.old ≡ scribe (cell_view desk.old).list (cell_view desk.old).token (cell_view desk.old).seated (cell_view desk.old).own) }
    ensures desk { (desk.new.table_id ≡ desk.old.table_id) × (cell_view desk.new ≡ scribe (cell_view desk.old).list (cell_view desk.old).token (cell_view desk.old).seated []) }
    ensures mine { (mine.new.table_id ≡ desk.old.table_id) × (cell_view mine.new ≡ caller (cell_view desk.old).list (cell_view desk.old).token (cell_view desk.old).own) }
{
    *mine = part(cell, desk);
}

/// The list gets the write that the call picks.
pub fn note<W: Noting, R: Wait>(rt: &R, cell: &Cell, desk: &mut Seat, count: u64, token: u64)
    requires desk { (desk.old.table_id ≡ cell.now.table.shared.table_id) × (cell_view desk.old ≡ scribe (cell_view desk.old).list (cell_view desk.old).token (cell_view desk.old).seated (cell_view desk.old).own) }
    requires words { (count ≡ suc (length (cell_view desk.old).list)) × (token ≡ (cell_view desk.old).token) }
    requires own { has_session (W.entry).session (cell_view desk.old).own ≡ true }
    ensures { (desk.new.table_id ≡ desk.old.table_id) × (cell_view desk.new ≡ noted W.entry (cell_view desk.old)) }
{
    rule::swap::<Notes<W>, R>(rt, cell, desk, [count, token]);
}

/// The token rises to a new record's.
pub fn record<R: Wait>(rt: &R, cell: &Cell, desk: &mut Seat, count: u64, token: u64)
    requires desk { (desk.old.table_id ≡ cell.now.table.shared.table_id) × (cell_view desk.old ≡ scribe (cell_view desk.old).list (cell_view desk.old).token (cell_view desk.old).seated (cell_view desk.old).own) }
    requires words { (count ≡ length (cell_view desk.old).list) × ((cell_view desk.old).token ≤ token) }
    ensures { (desk.new.table_id ≡ desk.old.table_id) × (cell_view desk.new ≡ recorded token (cell_view desk.old)) }
{
    rule::swap::<Records, R>(rt, cell, desk, [count, token]);
}

/// Two callers' passes see what the other had seen.
pub fn meet<R: Wait>(rt: &R, cell: &Cell, one: &mut Seat, two: &mut Seat)
    requires one { (one.old.table_id ≡ cell.now.table.shared.table_id) × (cell_view one.old ≡ caller (cell_view one.old).list (cell_view one.old).token (cell_view one.old).own) }
    requires two { (two.old.table_id ≡ cell.now.table.shared.table_id) × (cell_view two.old ≡ caller (cell_view two.old).list (cell_view two.old).token (cell_view two.old).own) }
    ensures one { (one.new.table_id ≡ one.old.table_id) × (cell_view one.new ≡ caller (longer (cell_view one.old).list (cell_view two.old).list) (greater (cell_view one.old).token (cell_view two.old).token) (cell_view one.old).own) }
    ensures two { (two.new.table_id ≡ two.old.table_id) × (cell_view two.new ≡ caller (longer (cell_view two.old).list (cell_view one.new).list) (greater (cell_view two.old).token (cell_view one.new).token) (cell_view two.old).own) }
    ensures first { Compared (cell_view one.new) (old_of (cell_view one.old)) × Compared (cell_view one.new) (old_of (note_of (cell_view two.old))) }
    ensures second { Compared (cell_view two.new) (old_of (cell_view two.old)) × Compared (cell_view two.new) (old_of (note_of (cell_view one.new))) }
{
    tell(rt, cell, one, two);
    tell(rt, cell, two, one);
}

// What the second has seen, the first sees too.
fn tell<R: Wait>(rt: &R, cell: &Cell, one: &mut Seat, two: &mut Seat)
    requires one { (one.old.table_id ≡ cell.now.table.shared.table_id) × (cell_view one.old ≡ caller (cell_view one.old).list (cell_view one.old).token (cell_view one.old).own) }
    requires two { two.old.table_id ≡ cell.now.table.shared.table_id }
    ensures one { (one.new.table_id ≡ one.old.table_id) × (cell_view one.new ≡ caller (longer (cell_view one.old).list (cell_view two.old).list) (greater (cell_view one.old).token (cell_view two.old).token) (cell_view one.old).own) }
    ensures two { (two.new.table_id ≡ two.old.table_id) × (cell_view two.new ≡ cell_view two.old) }
    ensures seen { Compared (cell_view one.new) (old_of (cell_view one.old)) × Compared (cell_view one.new) (old_of (note_of (cell_view two.old))) }
{
    let note = rule::split::<Tells>(cell, two);
    rule::take_in::<Level>(cell, one, note);
    rule::load::<Checks, R>(rt, cell, one);
}

fn seat_as<S: Seating>(cell: &Cell, desk: &mut Seat, session: u32) -> Seat
    requires session { session ≡ S.session }
    requires desk { (desk.old.table_id ≡ cell.now.table.shared.table_id) × (cell_view desk.old ≡ scribe (cell_view desk.old).list (cell_view desk.old).token (cell_view desk.old).seated (cell_view desk.old).own) }
    requires free { has_session session (cell_view desk.old).seated ≡ false }
    ensures desk { (desk.new.table_id ≡ desk.old.table_id) × (cell_view desk.new ≡ seating session (cell_view desk.old)) }
    ensures mine { (result.table_id ≡ desk.old.table_id) × (cell_view result ≡ seat_for session (cell_view desk.old)) }
{
    rule::split::<Seats<S>>(cell, desk)
}

/// A pass for a session that has none.
pub fn seat(cell: &Cell, desk: &mut Seat, session: u32) -> Seat
    requires desk { (desk.old.table_id ≡ cell.now.table.shared.table_id) × (cell_view desk.old ≡ scribe (cell_view desk.old).list (cell_view desk.old).token (cell_view desk.old).seated (cell_view desk.old).own) }
    requires free { has_session session (cell_view desk.old).seated ≡ false }
    ensures desk { (desk.new.table_id ≡ desk.old.table_id) × (cell_view desk.new ≡ seating session (cell_view desk.old)) }
    ensures mine { (result.table_id ≡ desk.old.table_id) × (cell_view result ≡ seat_for session (cell_view desk.old)) }
{
    seat_as::<Brand>(cell, desk, session)
}

/// A look with the scribe's pass.
pub fn look<R: Wait>(rt: &R, cell: &Cell, desk: &mut Seat)
    requires { (desk.old.table_id ≡ cell.now.table.shared.table_id) × (cell_view desk.old ≡ scribe (cell_view desk.old).list (cell_view desk.old).token (cell_view desk.old).seated []) }
    ensures desk { (desk.new.table_id ≡ desk.old.table_id) × (cell_view desk.new ≡ cell_view desk.old) }
    ensures sessions { NoStrangers (cell_view desk.new).seated (cell_view desk.new).list }
{
    rule::load::<Checks, R>(rt, cell, desk);
}
