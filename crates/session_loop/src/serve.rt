//! What a store gives to a request, and the text of the reply.
ghost use Rattle.std.specs.Prelude.{◌≡◌, [], IfOk};
ghost use Rattle.point_model.specs.Acceptance.{IsWritable};
ghost use Rattle.point_model.specs.Deletions.{IsLoggable};
ghost use Rattle.session_model.specs.declared.statement.Statement.TheVariants.{Write, Delete, After};
ghost use Rattle.session_model.specs.Readable.{IsReadable};
ghost use Rattle.session_model.specs.Replies.{text as text_of};
ghost use Rattle.session_loop.specs.Asked.{IsWritableStatement};
ghost use Rattle.session_loop.specs.Texts.{IsTextOf, reply_to, number_in, reply_to_deletion, number_of_refusal};
ghost use Rattle.session_loop.specs.Steps.{Serves, ServesRead, stored};

use crate::replies::ReplyText;
use crate::select::select;
use point_model::Deletion;
use session_io::Gate;
use session_model::Statement;
use std::alloc::{AllocError, Global};
use store_trait::{DeleteFault, Store, WriteFault};
use tsdb_types::Batch;

/// The last number that an entry may have.
const LAST_NUMBER: u64 = 9_223_372_036_854_775_807;

/// Writes the text of the reply to what was read of a request, and gives the number that the store told for it.
pub fn serve_read<S: Store, G: Gate>(
    alloc: Global,
    store: &mut S,
    gate: &G,
    who: u32,
    asked: Result<Statement, AllocError>,
    text: &mut ReplyText,
) -> Option<u64>
    requires none_out { (S.told store.old).out ≡ [] }
    requires writable { IfOk asked IsWritableStatement }
    ensures served { ServesRead (stored S.told S.health store.old) asked text.new result (stored S.told S.health store.new) }
    ensures none_out { (S.told store.new).out ≡ [] }
{
    match asked {
        Ok(asked) => serve(alloc, store, gate, who, asked, text),
        Err(AllocError) => {
            text.out_of_memory();
            None
        }
    }
}

/// Writes the text of the reply to a request that asks for this, and gives the number that the store told for it.
fn serve<S: Store, G: Gate>(
    alloc: Global,
    store: &mut S,
    gate: &G,
    who: u32,
    asked: Statement,
    text: &mut ReplyText,
) -> Option<u64>
    requires none_out { (S.told store.old).out ≡ [] }
    requires writable { IsWritableStatement asked }
    ensures served { Serves (stored S.told S.health store.old) asked text.new result (stored S.told S.health store.new) }
    ensures none_out { (S.told store.new).out ≡ [] }
{
    match asked {
        Statement::Write(batch) => write(store, &batch, text),
        Statement::Delete(deletion) => delete(store, &deletion, text),
        Statement::Select { field, measurement } => {
            select(alloc, store, gate, who, &field, measurement, text)
        }
        Statement::After(wanted) => after(store, wanted, text),
        Statement::Refused(refusal) => {
            text.refused(refusal);
            None
        }
        Statement::NotBuilt => {
            text.not_built();
            None
        }
    }
}

fn write<S: Store>(store: &mut S, batch: &Batch, text: &mut ReplyText) -> Option<u64>
    requires none_out { (S.told store.old).out ≡ [] }
    requires writable { IsWritable batch.now }
    ensures served { Serves (stored S.told S.health store.old) (Write batch.now) text.new result (stored S.told S.health store.new) }
    ensures none_out { (S.told store.new).out ≡ [] }
{
    match store.write(batch) {
        Ok(number) => {
            text.accepted(number);
            Some(number)
        }
        Err(fault) => refused(&fault, text),
    }
}

/// Writes the text of the reply to a batch that the store refused so, and gives the number that this tells.
fn refused(fault: &WriteFault, text: &mut ReplyText) -> Option<u64>
    ensures text { IsTextOf (reply_to fault.now) text.new }
    ensures number { result ≡ number_in fault.now }
    ensures readable { IsReadable (reply_to fault.now) }
{
    match fault {
        WriteFault::TypeConflict {
            field,
            held,
            number,
        } => {
            text.conflict(field, *held, *number);
            Some(*number)
        }
        WriteFault::HistoryFull => {
            text.history_full();
            Some(LAST_NUMBER)
        }
        WriteFault::SeriesFull { held } => {
            text.series_full(*held);
            None
        }
        WriteFault::CacheFull { held } => {
            text.cache_full(*held);
            None
        }
        WriteFault::Memory => {
            text.out_of_memory();
            None
        }
        WriteFault::Fault => {
            text.device_fault();
            None
        }
    }
}

fn delete<S: Store>(store: &mut S, deletion: &Deletion, text: &mut ReplyText) -> Option<u64>
    requires none_out { (S.told store.old).out ≡ [] }
    requires loggable { IsLoggable deletion.now }
    ensures served { Serves (stored S.told S.health store.old) (Delete deletion.now) text.new result (stored S.told S.health store.new) }
    ensures none_out { (S.told store.new).out ≡ [] }
{
    match store.delete(deletion) {
        Ok(entry) => {
            text.accepted(entry);
            Some(entry)
        }
        Err(fault) => not_deleted(fault, text),
    }
}

/// Writes the text of the reply to a deletion that the store refused so, and gives the number that this tells.
fn not_deleted(fault: DeleteFault, text: &mut ReplyText) -> Option<u64>
    ensures text { text.new ≡ text_of (reply_to_deletion fault) }
    ensures number { result ≡ number_of_refusal fault }
{
    match fault {
        DeleteFault::HistoryFull => {
            text.history_full();
            Some(LAST_NUMBER)
        }
        DeleteFault::Memory => {
            text.out_of_memory();
            None
        }
        DeleteFault::Fault => {
            text.device_fault();
            None
        }
    }
}

fn after<S: Store>(store: &mut S, wanted: u64, text: &mut ReplyText) -> Option<u64>
    requires none_out { (S.told store.old).out ≡ [] }
    ensures served { Serves (stored S.told S.health store.old) (After wanted) text.new result (stored S.told S.health store.new) }
    ensures none_out { (S.told store.new).out ≡ [] }
{
    let number = store.number();
    text.after(wanted, number);
    Some(number)
}
