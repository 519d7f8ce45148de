//! Lists of changes to a dictionary.

ghost use Rattle.std.specs.Prelude.{◌≡◌, ◌<◌, ◌≤◌, ◌↔◌, length, map, take, All, HoldsAt, IsTrue, OnOk, OnErr};
ghost use Rattle.fast_value.specs.meaning.Values.{scalar_data};
ghost use Rattle.fast_dict.specs.meaning.Stores.{IsStorable};
ghost use Rattle.fast_dict.specs.meaning.Commands.{command_data, IsRunnable, after, after_all, SetsText};

use crate::store::Store;
use fast_value::{Kind, Scalar};
use std::alloc::AllocError;

/// One call that changes a [`Store`], with its values.
#[derive(Clone, Copy, Debug)]
pub enum StoreCommand<'a> {
    /// [`Store::set`].
    Set {
        /// The entry.
        entry: usize,
        /// The type of the field that assigns the value.
        kind: Kind,
        /// The value.
        scalar: Scalar<'a>,
    },
    /// [`Store::set_empty`].
    SetEmpty {
        /// The entry.
        entry: usize,
    },
    /// [`Store::reset`].
    Reset,
    /// [`Store::reset_all`].
    ResetAll,
}

/// Carries the commands out in order, up to the first one whose allocation fails, and returns the number carried out. Each command meets
/// the conditions of its call.
pub fn run<D: Store>(store: &mut D, commands: &[StoreCommand<'_>]) -> usize
    requires { All (IsRunnable (D.terms store.old) (length (D.dictionary store.old))) (map command_data commands.now) }
    ensures count { result ≤ length commands.now }
    ensures done { D.dictionary store.new
        ≡ after_all (take result (map command_data commands.now)) (D.dictionary store.old) }
    ensures stopped { result < length commands.now → HoldsAt SetsText (map command_data commands.now) result }
    ensures refused { result < length commands.now → IsTrue (D.terms store.old).can_refuse }
    ensures same { D.terms store.new ≡ D.terms store.old }
{
    for (count, command) in commands.iter().enumerate() {
        if carry_out(store, *command).is_err() {
            return count;
        }
    }
    commands.len()
}

/// Returns whether [`run`] can be called: each command meets the conditions of its call.
pub fn can_run<D: Store>(store: &D, commands: &[StoreCommand<'_>]) -> bool
    ensures { IsTrue result
        ↔ All (IsRunnable (D.terms store.now) (length (D.dictionary store.now))) (map command_data commands.now) }
{
    for command in commands {
        if !is_runnable(store, *command) {
            return false;
        }
    }
    true
}

/// Returns whether the command meets the conditions of its call.
fn is_runnable<D: Store>(store: &D, command: StoreCommand<'_>) -> bool
    ensures { IsTrue result
        ↔ IsRunnable (D.terms store.now) (length (D.dictionary store.now)) (command_data command.entry) }
{
    match command {
        StoreCommand::Set { entry, scalar, .. } => {
            entry < store.entries() && is_storable(store, entry, scalar)
        }
        StoreCommand::SetEmpty { entry } => entry < store.entries(),
        StoreCommand::Reset | StoreCommand::ResetAll => true,
    }
}

/// Returns whether the value can be stored at the entry.
fn is_storable<D: Store>(store: &D, entry: usize, scalar: Scalar<'_>) -> bool
    requires { entry < length (D.dictionary store.now) }
    ensures { IsTrue result ↔ IsStorable (D.terms store.now) entry (scalar_data scalar.entry) }
{
    match scalar {
        Scalar::U(_) | Scalar::I(_) | Scalar::Dec { .. } => true,
        Scalar::Ascii(text) | Scalar::Unicode(text) | Scalar::Bytes(text) => {
            text.len() <= store.max_text() && store.takes_text(entry)
        }
    }
}

/// Carries one command out.
fn carry_out<D: Store>(store: &mut D, command: StoreCommand<'_>) -> Result<(), AllocError>
    requires { IsRunnable (D.terms store.old) (length (D.dictionary store.old)) (command_data command) }
    ensures ok { OnOk result (D.dictionary store.new ≡ after (command_data command.entry) (D.dictionary store.old)) }
    ensures err { OnErr result (store.new ≡ store.old) }
    ensures text { OnErr result (SetsText (command_data command.entry)) }
    ensures refused { OnErr result (IsTrue (D.terms store.old).can_refuse) }
    ensures same { D.terms store.new ≡ D.terms store.old }
{
    match command {
        StoreCommand::Set {
            entry,
            kind,
            scalar,
        } => store.set(entry, kind, scalar)?,
        StoreCommand::SetEmpty { entry } => store.set_empty(entry),
        StoreCommand::Reset => store.reset(),
        StoreCommand::ResetAll => store.reset_all(),
    }
    Ok(())
}
