//! Template files that are refused.

ghost use Rattle.fast_examples.specs.meaning.Texts.{FaultyFields, CircularTemplates};

/// An increment of an ASCII string is S2; 4294967296 as the initial value of a `uInt32` is S3; a constant without initial value is S4, and
/// a mandatory default without one S5.
pub fn faulty_fields()
    ensures { FaultyFields }
{}

/// Two templates that refer to each other are C3, at the first.
pub fn circular_templates()
    ensures { CircularTemplates }
{}
