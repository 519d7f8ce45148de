//! Template sets for callers from C.

ghost use Rattle.std.specs.Prelude.{◌≡◌, ◌<◌, ◌≤◌, [], length, slice_get, Some, string_bytes, IfOk, IfErr};
ghost use Rattle.fast_tree.specs.declared.instructions.Node.{Node};
ghost use Rattle.fast_tree.specs.declared.instructions.Template.{Template};
ghost use Rattle.fast_template.specs.contracts.sets.Templates.{the_row};
ghost use Rattle.fast_template.specs.declared.sets.Templates.{Templates};
ghost use Rattle.fast_template.specs.meaning.Flat.{nodes_of, templates_of};
ghost use Rattle.fast_c.specs.meaning.Opening.{IsSetOf, IsNoSet, Opens};
ghost use Rattle.fast_c.specs.meaning.Written.{IsWritten};

use crate::{boxed, write_front};
use fast_records::Status;
use fast_template::Templates;
use std::alloc::Global;
use std::marker::Model;

/// The type that a C caller's pointer to a set has.
#[repr(C)]
#[derive(Drop)]
pub struct FastSet {
    unseen: u8,
}

/// A pointer to a set, passed by value. The handle of the allocator is zero-sized.
#[repr(C)]
pub struct SetHandle {
    at: *mut FastSet,
    alloc: Global,
    ghost value: { Templates } by { the_row.coded },
}

impl Model for SetHandle {
    ghost use Rattle.std.specs.Box.Ownership.{box_owns};
    ghost use Rattle.std.specs.contracts.impls.GlobalAllocator.TheImpl.{ghosts};
    ghost use Rattle.fast_template.specs.contracts.sets.Templates.{the_row};

    // The value at the pointer, and the right to free its block.
    ghost also_owns = { λ h. box_owns (ghosts.dealloc_token h.alloc) the_row h.at h.value };
}

// A set is `Send`, and any thread may free its block.
unsafe impl Send for SetHandle {}

impl SetHandle {
    ghost use Rattle.std.specs.Prelude.{◌≡◌};

    /// Returns the box of the set.
    fn into_box(self) -> Box<Templates, Global>
        ensures { result.value ≡ self.value }
    {
        let SetHandle { at, alloc } = self;
        unsafe { Box::from_raw(alloc, at as *mut Templates) }
    }

    /// Borrows the set, for as long as C keeps it open.
    pub(crate) fn lent(self) -> &'static Templates
        ensures { result.now ≡ self.value }
    {
        Box::leak(self.into_box())
    }
}

/// Reads a template file into a set in a box.
fn made(alloc: Global, text: &[u8]) -> Result<Box<Templates, Global>, Status>
    ensures ok { IfOk result (λ set. IsSetOf text.now set.value) }
    ensures err { IfErr result (IsNoSet text.now) }
{
    let Ok(text) = std::str::from_utf8(text) else {
        return Err(Status::NotText);
    };
    match Templates::read(alloc, text) {
        Ok(set) => boxed(alloc, set),
        Err(fault) => Err(Status::Set(fault.code)),
    }
}

/// Reads a template set from its TOML file, and stores a pointer to it in `out`. Returns 0, or the status that says why there is none.
#[unsafe(no_mangle)]
pub extern "C" fn fast_set_read(alloc: Global, text: &[u8], out: &mut *mut FastSet) -> u32
    ensures { Opens (IsSetOf text.now) (IsNoSet text.now) out.old out.new result }
{
    match made(alloc, text) {
        Ok(set) => {
            *out = Box::into_raw(set) as *mut FastSet;
            0
        }
        Err(status) => status.number(),
    }
}

/// Frees a set's memory.
#[unsafe(no_mangle)]
pub extern "C" fn fast_set_close(set: SetHandle) {
    drop(set.into_box());
}

/// Returns the number of templates of a set.
#[unsafe(no_mangle)]
pub extern "C" fn fast_set_templates(set: SetHandle) -> u32
    ensures { result ≡ length (templates_of set.value) }
{
    set.lent().count()
}

/// Returns the number of nodes of a set.
#[unsafe(no_mangle)]
pub extern "C" fn fast_set_nodes(set: SetHandle) -> u32
    ensures { result ≡ length (nodes_of set.value) }
{
    set.lent().nodes()
}

/// Writes the name of a template, as many bytes as have room, and returns its whole length; 0 if the set has no such template.
#[unsafe(no_mangle)]
pub extern "C" fn fast_template_name(set: SetHandle, template: u32, out: &mut [u8]) -> usize
    ensures some { (t : Template) → slice_get (templates_of set.value) template ≡ Some t
        → IsWritten (string_bytes t.name) out.old out.new result }
    ensures none { length (templates_of set.value) ≤ template → IsWritten [] out.old out.new result }
{
    let set = set.lent();
    if template >= set.count() {
        return 0;
    }
    write_front(set.template(template).name.as_bytes(), out)
}

/// Writes the name of a node, as many bytes as have room, and returns its whole length; 0 if the set has no such node.
#[unsafe(no_mangle)]
pub extern "C" fn fast_node_name(set: SetHandle, node: u32, out: &mut [u8]) -> usize
    ensures some { (n : Node) → slice_get (nodes_of set.value) node ≡ Some n
        → IsWritten (string_bytes n.name) out.old out.new result }
    ensures none { length (nodes_of set.value) ≤ node → IsWritten [] out.old out.new result }
{
    let set = set.lent();
    if node >= set.nodes() {
        return 0;
    }
    write_front(set.node(node).name.as_bytes(), out)
}
