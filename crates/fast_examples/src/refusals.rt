//! Messages that the encoder refuses without regard to previous values.

ghost use Rattle.fast_examples.specs.meaning.Refusals.{UnknownTemplate, UnsuitedMessages, MessagesOverLimits};

/// The set has 19 templates, and none has the number 19: E1.
pub fn unknown_template()
    ensures { UnknownTemplate }
{}

/// An absent mandatory field, 2^32 in a `uInt32`, a signed integer in a `uInt32`, and one slot too many: E2.
pub fn unsuited_messages()
    ensures { UnsuitedMessages }
{}

/// A string of 17 characters if 16 are allowed, and two elements if one is, in a sequence or in a message: E4.
pub fn messages_over_limits()
    ensures { MessagesOverLimits }
{}
