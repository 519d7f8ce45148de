//! The fast path of presence maps of one byte, and of the identifiers after them.

ghost use Rattle.std.specs.Prelude.{◌≡◌, ◌≢◌, ◌+◌, ◌<◌, ◌≤◌, ℕ, [], length, slice_get, slice_index, Ok, Some, IfSome, IfNone};
ghost use Rattle.fast_value.specs.declared.kinds.Kind.{Kind};
ghost use Rattle.fast_value.specs.meaning.Kinds.{U};
ghost use Rattle.fast_template.specs.meaning.Flat.{templates_of};
ghost use Rattle.fast_tree.specs.declared.instructions.Template.{Template};
ghost use Rattle.fast_dict.specs.meaning.Dictionary.{assigned, previous_at};
ghost use Rattle.fast_dict.specs.meaning.Slots.{slots_dictionary, slots_terms};
ghost use Rattle.fast_machine.specs.device.UnitTaken.{IsTakenTo};
ghost use Rattle.fast_machine.specs.device.Positions.{set_of, IsReady, IsStartIn, IsSupplied, meaning};
ghost use Rattle.fast_machine.specs.device.Starts.{IsMessageAhead, IsStartWith};
ghost use Rattle.fast_machine.specs.device.TurnsLeft.{Way, HasTurns, HasTurnsBehind};

use crate::heads::walk_to;
use crate::machine::{Machine, Turn, Waiting};
use crate::taking::UnitTaken;
use crate::turns::Turns;
use fast_dict::Entry;
use fast_fronts::{Rest, whole_unsigned};
use fast_program::Start;
use fast_stream::Sink;
use fast_template::Templates;
use fast_value::Limits;

impl<'t> Machine<'t> {
    /// Returns the start of the latest template, if it has the identifier that the identifier's entry holds. The set is an argument for the
    /// clauses.
    #[inline(always)]
    pub fn latest_again(&self, templates: &'t Templates) -> Option<&'t Start>
        requires some { 0 < length (slots_dictionary self.now.slots) }
        requires latest { IfSome self.now.latest (λ s. IsStartIn (set_of templates.now) s.now) }
        ensures { IfSome result
            (λ s. (id : ℕ) × (previous_at (Some 0) (slots_dictionary self.now.slots) ≡ assigned Kind.UInt32 (U id))
            × IsStartWith (set_of templates.now) id s.now) }
    {
        let Entry::UInt32(held) = self.slots.held(0) else {
            return None;
        };
        let start = self.latest?;
        if start.id != held {
            return None;
        }
        Some(start)
    }

    /// Reads the head of the message that the piece goes on with, whose map is one byte with the first bit set: returns its number of bytes
    /// and the start of its template, if the identifier is in the piece completely and a template has it. That template is the latest one
    /// then.
    #[inline(always)]
    pub fn sent_message(
        &mut self,
        templates: &'t Templates,
        limits: Limits,
        rest: &[u8],
    ) -> Option<(usize, &'t Start)>
        requires supplied { IsSupplied (set_of templates.now) limits self.old }
        requires some { 0 < length rest.now }
        requires first { 192 ≤ slice_index rest.now 0 }
        ensures none { IfNone result (self.new ≡ self.old) }
        ensures ahead { IfSome result (λ r. IsMessageAhead (set_of templates.now) limits
            (slots_dictionary self.old.slots) (slots_dictionary self.new.slots) rest.now r.1.now.number r.0) }
        ensures start { IfSome result (λ r. IsStartIn (set_of templates.now) r.1.now) }
        ensures supplied { IsSupplied (set_of templates.now) limits self.new }
        ensures same { self.new ≡ record self.old { slots = self.new.slots; latest = self.new.latest } }
        ensures terms { slots_terms self.new.slots ≡ slots_terms self.old.slots }
    {
        let read = whole_unsigned(
            Rest::new(&rest[1..]),
            false,
            limits.strict,
            4_294_967_295,
            true,
        );
        let (claimed, len) = read?;
        let id = claimed?;
        let start = template_with(templates, id as u32, self.latest)?;
        self.slots.set_number(0, Entry::UInt32(id));
        self.latest = Some(start);
        Some((1 + len, start))
    }

    /// Returns the start of the latest template, if the piece goes on with a message of it whose map is one byte with the first bit clear.
    #[inline(always)]
    pub fn message_again(
        &self,
        templates: &'t Templates,
        limits: Limits,
        rest: &[u8],
    ) -> Option<&'t Start>
        requires supplied { IsSupplied (set_of templates.now) limits self.now }
        ensures ahead { IfSome result (λ s. IsMessageAhead (set_of templates.now) limits
            (slots_dictionary self.now.slots) (slots_dictionary self.now.slots) rest.now s.now.number 1) }
        ensures start { IfSome result (λ s. IsStartIn (set_of templates.now) s.now) }
    {
        let _ = limits;
        if rest.is_empty() {
            return None;
        }
        let byte = rest[0];
        if byte >= 0x80 && byte < 0xc0 {
            return self.latest_again(templates);
        }
        None
    }

    /// Reads the head of the message that the piece goes on with, if its map is one byte with the first bit set: returns its number of
    /// bytes and the start of its template, if a template has the identifier after the map.
    #[inline(always)]
    pub fn next_message(
        &mut self,
        templates: &'t Templates,
        limits: Limits,
        rest: &[u8],
    ) -> Option<(usize, &'t Start)>
        requires supplied { IsSupplied (set_of templates.now) limits self.old }
        ensures none { IfNone result (self.new ≡ self.old) }
        ensures ahead { IfSome result (λ r. IsMessageAhead (set_of templates.now) limits
            (slots_dictionary self.old.slots) (slots_dictionary self.new.slots) rest.now r.1.now.number r.0) }
        ensures start { IfSome result (λ r. IsStartIn (set_of templates.now) r.1.now) }
        ensures supplied { IsSupplied (set_of templates.now) limits self.new }
        ensures same { self.new ≡ record self.old { slots = self.new.slots; latest = self.new.latest } }
        ensures terms { slots_terms self.new.slots ≡ slots_terms self.old.slots }
    {
        if rest.is_empty() {
            return None;
        }
        let byte = rest[0];
        if byte < 0xc0 {
            return None;
        }
        self.sent_message(templates, limits, rest)
    }
}

/// The greatest number of templates among which a walk is the fastest way to find one.
const FEW: u32 = 8;

/// Returns the start of the template with this identifier, which is most likely the latest one.
#[inline(always)]
pub fn template_with<'t>(
    templates: &'t Templates,
    id: u32,
    latest: Option<&'t Start>,
) -> Option<&'t Start>
    requires latest { IfSome latest (λ s. IsStartIn (set_of templates.now) s.now) }
    ensures some { IfSome result (λ s. IsStartWith (set_of templates.now) id s.now) }
    ensures none { IfNone result
        ((j : ℕ) (t : Template) → slice_get (templates_of templates.now) j ≡ Some t → t.id ≢ Some id) }
{
    match latest {
        Some(start) if start.id == u64::from(id) => Some(start),
        _ => other_template(templates, id),
    }
}

/// Returns the start of the template with this identifier, if no template is more likely than others.
#[cold]
#[inline(never)]
fn other_template(templates: &Templates, id: u32) -> Option<&Start>
    ensures some { IfSome result (λ s. IsStartWith (set_of templates.now) id s.now) }
    ensures none { IfNone result
        ((j : ℕ) (t : Template) → slice_get (templates_of templates.now) j ≡ Some t → t.id ≢ Some id) }
{
    let number = number_with(templates, id)?;
    Some(templates.start_of(number))
}

/// Returns the number of the template with this identifier.
#[inline]
fn number_with(templates: &Templates, id: u32) -> Option<u32>
    ensures some { IfSome result (λ i. (t : Template) × (slice_get (templates_of templates.now) i ≡ Some t)
        × (t.id ≡ Some id)
        × ((j : ℕ) (u : Template) → j < i → slice_get (templates_of templates.now) j ≡ Some u → u.id ≢ Some id)) }
    ensures none { IfNone result
        ((j : ℕ) (t : Template) → slice_get (templates_of templates.now) j ≡ Some t → t.id ≢ Some id) }
{
    if templates.count() > FEW {
        return templates.by_id(id);
    }
    walk_to(templates, u128::from(id))
}
