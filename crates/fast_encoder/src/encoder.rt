//! The encoder: a template set, limits and a dictionary.

ghost use Rattle.std.specs.Prelude.{◌≡◌, ◌⊎◌, ◌↔◌, IfOk, IfErr, OnOk, OnErr, IfSome, IfNone, IsTrue, Err, Some, slice_get};
ghost use Rattle.std.specs.Bool.{IsFalse};
ghost use Rattle.fast_value.specs.meaning.Views.{message_data};
ghost use Rattle.fast_tree.specs.declared.instructions.Template.{Template};
ghost use Rattle.fast_template.specs.meaning.Flat.{tree_of, nodes_of, templates_of};
ghost use Rattle.fast_dict.specs.meaning.Dictionary.{fresh};
ghost use Rattle.fast_dict.specs.meaning.EntryTexts.{HasLongInitial};
ghost use Rattle.fast_decoder.specs.meaning.Decoding.{AreBadLimits};
ghost use Rattle.fast_spelling.specs.meaning.Refusals.{IsRefused};
ghost use Rattle.fast_spelling.specs.meaning.Suiting.{IsKnown, IsKnownAs};
ghost use Rattle.fast_encoder.specs.meaning.Encoders.{tree, IsEncoded, IsToldOf};

use fast_decoder::MakeError;
use fast_machine::layout::has_long_initial;
use fast_spelling::EncodeFault;
use fast_spelling::checking::try_message;
use fast_spelling::draft::Draft;
use fast_spelling::ledger::Ledger;
use fast_spelling::measuring::fits_limits;
use fast_spelling::messages::write_message;
use fast_spelling::plan::{Plan, Work};
use fast_spelling::suiting::suits_body;
use fast_template::{Template, Templates};
use fast_value::{Limits, MAX_TEXT, MIN_TEXT, Message};
use std::alloc::Global;
use std::fmt;
use std::marker::Model;

/// An encoder of FAST 1.1 messages. It keeps the dictionary across messages: each message is encoded from the previous values that the last
/// one left.
#[derive(Drop)]
pub struct Encoder<'t> {
    plan: Plan<'t>,
    work: Work,
}

impl<'t> Model for Encoder<'t> {
    ghost use Rattle.fast_machine.specs.device.Positions.{set_of};
    ghost use Rattle.fast_encoder.specs.meaning.Encoders.{EncoderData, IsSound};

    ghost Value = { EncoderData };

    ghost view = { λ e. record {
      set = set_of e.plan.templates.now;
      limits = e.plan.limits;
      dictionary = e.work.ledger.now;
    } };

    ghost invariant = { λ e. IsSound e.plan.templates.now e.plan.limits e.work.ledger };
}

/// Shows the limits, not the dictionary.
impl<'t> fmt::Debug for Encoder<'t> {
    fn fmt<W: fmt::Write>(&self, f: &mut fmt::Formatter<W>) -> fmt::Result {
        f.debug_struct("Encoder")
            .field("limits", &self.plan.limits)
            .finish_non_exhaustive()
    }
}

impl<'t> Encoder<'t> {
    /// Makes an encoder for the messages of a template set, with an empty dictionary. Of `limits`, all but `strict` apply.
    ///
    /// # Errors
    ///
    /// - `BadLimits` if `max_text` is not between 16 and 1,048,576.
    /// - `InitialTooLong`, checked next, if a field's initial value is a string or byte vector of more than `max_text` bytes.
    /// - `Memory` if an allocation failed.
    pub fn new(
        alloc: Global,
        templates: &'t Templates,
        limits: Limits,
    ) -> Result<Encoder<'t>, MakeError>
        ensures made { IfOk result
            (λ e. (tree e ≡ tree_of templates.entry.now) × (e.limits ≡ limits)
            × (e.dictionary ≡ fresh (tree_of templates.entry.now).entries)) }
        ensures bad_limits { (result ≡ Err MakeError.BadLimits) ↔ (AreBadLimits limits) }
        ensures long_initial { (result ≡ Err MakeError.InitialTooLong)
            ↔ (¬ (AreBadLimits limits) × HasLongInitial limits.max_text (nodes_of templates.entry.now)) }
    {
        if limits.max_text < MIN_TEXT || limits.max_text > MAX_TEXT {
            return Err(MakeError::BadLimits);
        }
        if has_long_initial(templates, limits.max_text) {
            return Err(MakeError::InitialTooLong);
        }
        let Ok(plan) = Plan::new(alloc, templates, limits) else {
            return Err(MakeError::Memory);
        };
        match Ledger::new(alloc, templates.entries() as usize, limits.max_text) {
            Err(_) => Err(MakeError::Memory),
            Ok(ledger) => Ok(Encoder {
                plan,
                work: Work {
                    draft: Draft::new(alloc),
                    ledger,
                    room: 0,
                },
            }),
        }
    }

    /// Returns the template set of the encoder.
    pub fn templates(&self) -> &'t Templates
        ensures { tree_of result.now ≡ tree self.now }
    {
        self.plan.templates
    }

    /// Resets the encoder to the state that [`Encoder::new`] left it in: all entries of its dictionary are undefined.
    pub fn reset(&mut self)
        ensures fresh { self.new.dictionary ≡ fresh (tree self.old).entries }
        ensures same_set { (self.new.set ≡ self.old.set) × (self.new.limits ≡ self.old.limits) }
    {
        self.work.ledger.reset_all();
    }

    /// Encodes `message` and appends its bytes to `out`. On an error, the encoder and `out` are unchanged.
    ///
    /// # Errors
    ///
    /// - E1 (no such template), E2 (the message does not suit it) and E4 (a limit), in this order, each checked for the whole message.
    /// - Then E3 (no encoding) or R9 (an ASCII string that begins with a zero character), at the first instruction that has either.
    /// - `Memory` if an allocation failed.
    pub fn encode(&mut self, message: &Message, out: &mut Vec<u8>) -> Result<(), EncodeFault>
        ensures ok { OnOk result (IsEncoded self.old (message_data message.now) out.old.items self.new out.new.items) }
        ensures err { IfErr result (IsToldOf self.old (message_data message.now)) }
        // A fault that applies is returned, unless an allocation failed.
        ensures told { (c : EncodeFault)
            → IsRefused (tree self.old) self.old.limits self.old.dictionary (message_data message.now) c
            → (result ≡ Err c) ⊎ (result ≡ Err EncodeFault.Memory) }
        ensures unchanged { OnErr result ((self.new ≡ self.old) × (out.new.items ≡ out.old.items)) }
        ensures same_set { (self.new.set ≡ self.old.set) × (self.new.limits ≡ self.old.limits) }
    {
        if self.try_encode(message, out) {
            return Ok(());
        }
        self.encode_in_order(message, out)
    }

    /// Encodes `message` in one pass, which checks each value as it is written. Returns false, with nothing changed, if anything is
    /// refused; it does not say which fault comes first.
    #[inline(always)]
    fn try_encode(&mut self, message: &Message, out: &mut Vec<u8>) -> bool
        ensures encoded { IsTrue result
            → IsEncoded self.old (message_data message.now) out.old.items self.new out.new.items }
        ensures unchanged { IsFalse result → (self.new ≡ self.old) × (out.new.items ≡ out.old.items) }
        ensures same_set { (self.new.set ≡ self.old.set) × (self.new.limits ≡ self.old.limits) }
    {
        let Some((_, id)) = known(self.plan.templates, message) else {
            return false;
        };
        let tried = try_message(&self.plan, id, message, &mut self.work);
        if let Err(_) = tried {
            self.work.ledger.take_back();
            return false;
        }
        if out.extend_from_slice(&self.work.draft.bytes).is_err() {
            self.work.ledger.take_back();
            return false;
        }
        self.work.ledger.commit();
        true
    }

    /// Encodes `message` in two passes: first it checks the whole message, in the order of the faults, then it writes it.
    ///
    /// # Errors
    ///
    /// Those of [`Encoder::encode`].
    fn encode_in_order(&mut self, message: &Message, out: &mut Vec<u8>) -> Result<(), EncodeFault>
        ensures ok { OnOk result (IsEncoded self.old (message_data message.now) out.old.items self.new out.new.items) }
        ensures err { IfErr result (IsToldOf self.old (message_data message.now)) }
        ensures told { (c : EncodeFault)
            → IsRefused (tree self.old) self.old.limits self.old.dictionary (message_data message.now) c
            → (result ≡ Err c) ⊎ (result ≡ Err EncodeFault.Memory) }
        ensures unchanged { OnErr result ((self.new ≡ self.old) × (out.new.items ≡ out.old.items)) }
        ensures same_set { (self.new.set ≡ self.old.set) × (self.new.limits ≡ self.old.limits) }
    {
        let Some((template, id)) = known(self.plan.templates, message) else {
            return Err(EncodeFault::E1);
        };
        if !suits_body(self.plan.templates, &template.body, &message.items) {
            return Err(EncodeFault::E2);
        }
        if !fits_limits(self.plan.limits, &message.items) {
            return Err(EncodeFault::E4);
        }
        let plan = &self.plan;
        let written = write_message(
            plan.templates,
            plan.limits,
            id,
            message,
            &mut self.work.draft,
            &mut self.work.ledger,
        );
        if let Err(fault) = written {
            self.work.ledger.take_back();
            return Err(fault);
        }
        if out.extend_from_slice(&self.work.draft.bytes).is_err() {
            self.work.ledger.take_back();
            return Err(EncodeFault::Memory);
        }
        self.work.ledger.commit();
        Ok(())
    }
}

/// Returns the template of a message and the template's identifier; `None` if the set has no such template, or the template has no
/// identifier.
fn known<'t>(templates: &'t Templates, message: &Message) -> Option<(&'t Template, u32)>
    ensures known { IfSome result (λ p. IsKnownAs (tree_of templates.now) (message_data message.now) p.1) }
    ensures template { IfSome result (λ p. slice_get (templates_of templates.now) message.now.template ≡ Some p.0.now) }
    ensures unknown { IfNone result (¬ (IsKnown (tree_of templates.now) (message_data message.now))) }
{
    if message.template >= templates.count() {
        return None;
    }
    let template = templates.template(message.template);
    match template.id {
        Some(id) => Some((template, id)),
        None => None,
    }
}
