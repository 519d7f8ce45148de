//! Laws of lines that are converted to a stream and shown again, and of those that are shown and read again, from the contracts of these
//! functions.

ghost use Rattle.std.specs.Prelude.{ℕ, List, Bool, Option, Result, Ok};
ghost use Rattle.std.specs.declared.alloc.Global.{Global};
ghost use Rattle.std.specs.declared.vec.Vec.{Vec};
ghost use Rattle.toml.specs.Data.{Members};
ghost use Rattle.fast_value.specs.declared.messages.Message.{Message};
ghost use Rattle.fast_value.specs.declared.settings.Limits.{Limits};
ghost use Rattle.fast_notation.specs.meaning.Checked.{IsTree};
ghost use Rattle.fast_template.specs.declared.sets.Templates.{Templates};
ghost use Rattle.fast_template.specs.meaning.Flat.{tree_of};
ghost use Rattle.fast_messages.specs.declared.faults.TextFault.{TextFault};
ghost use Rattle.fast_messages.specs.meaning.Back.{IsRead};
ghost use Rattle.fast_command.specs.declared.faults.ShowEnd.TheVariants.{Good};
ghost use Rattle.fast_convert.specs.meaning.ThereAndBack.{IsAnswerOfConvert, IsBack, IsAnswerOfShow, IsShownAndRead};

/// If `run_convert` wrote a whole stream from a file of lines, as bytes or as digits, `run_show` shows it as these lines, under the same
/// limits and in both modes.
pub fn converted_is_shown_again()
    // `run_convert` ensures IsAnswerOfConvert at a good end, and `run_show` and `show_all` ensure the premise within IsBack.
    ensures { (set : Templates) (l : Limits) (hex : Bool) (left_old left_new held holds : Option (List ℕ))
        (reader_failed writer_failed : Bool) (u : Unit {0})
        → IsAnswerOfConvert set l hex left_old left_new held holds reader_failed writer_failed (Ok u)
        → IsBack set l hex left_old left_new held holds }
{}

/// The lines that `run_show` wrote for a stream, at a good end, are read by `read_lines` as the messages that the bytes of the stream
/// encode, if no allocation fails, and these can be encoded again, except for ASCII strings with U+0000.
pub fn shown_is_read()
    // `Templates::read` and `read_templates` ensure IsTree of the set, `run_show` and `show_all` ensure IsAnswerOfShow, and `read_lines`
    // ensures IsRead of the lines that they have written.
    ensures { (document : Members) (set : Templates) (l : Limits) (hex : Bool) (left : Option (List ℕ)) (max_reads : ℕ)
        (reader_failed writer_failed : Bool) (text out : List ℕ) (r : Result (Vec Message Global) TextFault)
        → IsTree document (tree_of set)
        → IsAnswerOfShow set l hex left max_reads reader_failed writer_failed text out (Ok Good)
        → IsRead (tree_of set) out r → IsShownAndRead set l hex text r }
{}
