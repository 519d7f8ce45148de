//! A law over the definitions: the choice of events is a choice of messages.

ghost use Rattle.fast_select.specs.meaning.Messages.{ChoosesMessages};

/// The events that a chooser chooses of whole messages are those of the messages that it is to choose: from a number on, those with one of
/// the templates, and of these the first ones.
pub fn chooses_messages()
    ensures { ChoosesMessages }
{}
