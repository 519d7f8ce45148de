//! Streams that end inside a message.

ghost use Rattle.fast_examples.specs.meaning.Cuts.{CutStreams, CutMaps};

/// The empty stream ends between two messages, and a part of a message ends inside one. The message's start is emitted at the template
/// identifier.
pub fn cut_streams()
    ensures { CutStreams }
{}

/// A presence map goes on while its bytes have no stop bit: after 32 of them, and after 145.
pub fn cut_maps()
    ensures { CutMaps }
{}
