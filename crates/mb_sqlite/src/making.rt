// Making the tables and views of a layout that aren't there.
ghost use Rattle.std.specs.Prelude.{◌≡◌, Ok, false, true, IfOk, IsErrOf, MatchBool, OnErr, OnOk};
ghost use Rattle.mb_sqlite.specs.Committing.{CommitsOnce};
ghost use Rattle.mb_sqlite.specs.Creation.{making_order};
ghost use Rattle.mb_sqlite.specs.Keeping.{GoesOn};
ghost use Rattle.mb_sqlite.specs.Making.{AreMade, ArePassed, ArePrepared, Arises, IsThere, Stays, begun};
ghost use Rattle.mb_sqlite.specs.Resting.{IfClean, Rests};

use crate::failure::Failure;
use crate::layout::{TABLES, making_of};
use crate::query::ask_row;
use crate::statements;
use crate::writing::run;
use mb_tables::{MbtType, TableName};
use sqlite::{Alter, Connection, Transaction, params};

// Whether the database has a table or view of this name, in any ASCII case.
#[tactic(auto, unfolding(crate::specs::Making::IsThere))]
fn is_there<S: Alter>(
    transaction: &mut Transaction<'_, S>,
    table: TableName,
) -> Result<bool, Failure>
    ensures same_reference { transaction.new.conn.ghost_name ≡ transaction.old.conn.ghost_name }
    ensures kept { GoesOn S.Store transaction.old.conn.now transaction.new.conn.now result }
    ensures there { IfClean S.Store transaction.new.conn.now (IfOk result
        (λ there. IsThere S.Store table there transaction.old.conn.now transaction.new.conn.now)) }
{
    let row = ask_row(transaction, statements::named(), params![table.name()])?;
    let count: u64 = row.get(0)?;
    Ok(count > 0)
}

// Makes the table or view of a name, where the layout has one that isn't there. Whether it made one.
fn make_table<S: Alter>(
    transaction: &mut Transaction<'_, S>,
    layout: MbtType,
    table: TableName,
) -> Result<bool, Failure>
    ensures same_reference { transaction.new.conn.ghost_name ≡ transaction.old.conn.ghost_name }
    ensures kept { GoesOn S.Store transaction.old.conn.now transaction.new.conn.now result }
    ensures passed { IfClean S.Store transaction.new.conn.now (IfOk result
        (λ made. MatchBool made
        (Arises S.Store layout table transaction.old.conn.now transaction.new.conn.now)
        (Stays S.Store layout table transaction.old.conn.now transaction.new.conn.now))) }
{
    match making_of(layout, table) {
        Some(text) => {
            if is_there(transaction, table)? {
                return Ok(false);
            }
            run(transaction, text, &[])?;
            Ok(true)
        }
        None => Ok(false),
    }
}

// Makes the tables and views of a layout that aren't there. Whether there were any.
fn make_missing<S: Alter>(
    transaction: &mut Transaction<'_, S>,
    layout: MbtType,
) -> Result<bool, Failure>
    ensures same_reference { transaction.new.conn.ghost_name ≡ transaction.old.conn.ghost_name }
    ensures kept { GoesOn S.Store transaction.old.conn.now transaction.new.conn.now result }
    ensures passed { IfClean S.Store transaction.new.conn.now (IfOk result
        (λ made. ArePassed S.Store layout making_order made transaction.old.conn.now
        transaction.new.conn.now)) }
{
    let mut made = false;
    for table in &TABLES {
        let is_made = make_table(transaction, layout, *table)?;
        made |= is_made;
    }
    Ok(made)
}

// Makes the tables and views of a layout that aren't there, in one transaction. Where none is
// missing, nothing is written.
#[tactic(auto, using(crate::proofs::CommitLemmas::nothing_yet, crate::proofs::CommitLemmas::nothing_once, crate::proofs::CommitLemmas::undone_nothing))]
pub(crate) fn make<S: Alter>(connection: &mut Connection<S>, layout: MbtType) -> Result<(), Failure>
    ensures once { CommitsOnce S.Store (AreMade S.Store layout (begun connection.old))
        connection.old connection.new }
    ensures prepared { IfClean S.Store connection.new
        (OnOk result (ArePrepared S.Store layout connection.old connection.new)) }
    ensures inside { connection.old.in_transaction ≡ true → IsErrOf result Failure.Fault
        × (connection.new ≡ connection.old) }
    ensures ended { connection.old.in_transaction ≡ false → connection.new.in_transaction ≡ false }
    ensures rests { connection.old.in_transaction ≡ false
        → OnErr result (Rests S.Store connection.old connection.new) }
{
    if !connection.is_autocommit() {
        return Err(Failure::Fault);
    }
    let mut transaction = connection.transaction();
    if make_missing(&mut transaction, layout)? {
        transaction.commit()?;
    }
    Ok(())
}
