//! Writes, and what a ledger makes of one.
ghost use Rattle.std.specs.Prelude.{◌≡◌, ◌⊎◌, ℕ, ◌+◌, IfOk, IfErr, OnErr, Err};
ghost use Rattle.cat_base.specs.declared.refusal.Refusal.TheVariants.{Device, Kind, Memory, Spent};
ghost use Rattle.cat_commands.specs.cat_ledger.Answering.{AnswersCommand};
ghost use Rattle.cat_commands.specs.cat_ledger.Ledgers.{shape_in};
ghost use Rattle.cat_ledger_laws.specs.lines.LineLaws.{tells};
ghost use Rattle.cat_ledger_laws.specs.lines.RefusalLaws.{command_of};
ghost use Rattle.cat_threads.specs.service.Writes.{PutsForeign, write_of};

use cat_base::{Refusal, Text, WriteNo};
use cat_commands::cat_ledger::{Ledger, Query};
use cat_directory::{Directory, Shelf};
use cat_items::Item;

/// A write. (Lucene: what `IndexWriter.updateDocument` and `deleteDocuments` are given.)
#[derive(Drop)]
pub enum Write {
    /// The item takes the place of the one of its id.
    Put(Item),
    /// The item of the id goes.
    Delete(Text),
    /// The items that the query matches go.
    DeleteWhere(Query),
}

/// Makes the write, and answers its number.
pub(crate) fn accept<D: Directory + Shelf>(
    ledger: &mut Ledger<D>,
    write: Write,
) -> Result<WriteNo, Refusal>
    ensures number { IfOk result (λ n. n ≡ (shape_in ledger.old).count + 1) }
    ensures answers { IfOk result (λ n. (session : ℕ) → AnswersCommand D.bytes session (command_of (write_of write)) ledger.old (tells n) ledger.new) }
    ensures refused { OnErr result ((session : ℕ) → AnswersCommand D.bytes session (command_of (write_of write)) ledger.old (Err Memory) ledger.new) }
    ensures kind { IfErr result (λ e. e ≡ Kind → PutsForeign (shape_in ledger.old).schema (write_of write)) }
    ensures refusal { IfErr result (λ e. (e ≡ Kind) ⊎ (e ≡ Memory) ⊎ (e ≡ Device) ⊎ (e ≡ Spent)) }
{
    match write {
        Write::Put(item) => ledger.put(item),
        Write::Delete(id) => ledger.delete(id.as_str()),
        Write::DeleteWhere(query) => ledger.delete_where(&query),
    }
}
