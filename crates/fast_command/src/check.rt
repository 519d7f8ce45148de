//! The command `check`: prints the size of a template set, and lists its templates and nodes if that is asked for.

ghost use Rattle.std.specs.Prelude.{◌≡◌, ◌++◌, IsTrue, IfErr, OnOk, OnErr};
ghost use Rattle.fast_template.specs.meaning.Flat.{tree_of};
ghost use Rattle.fast_text.specs.meaning.LineWriter.{Writes};
ghost use Rattle.fast_text.specs.meaning.Streams.{Appends, AppendsFront};
ghost use Rattle.fast_command.specs.meaning.Checking.{number_line, set_lines, check_lines};
ghost use Rattle.fast_command.specs.meaning.Listing.{list_lines};

use crate::faults::RunFault;
use crate::list::write_list;
use fast_template::Templates;
use fast_text::{Failed, LineWriter, Room, Target};
use fast_value::Limits;

/// Writes a line with a name and a number.
fn put_number<T: Target>(line: &mut LineWriter<'_, T>, name: &str, number: u64)
    ensures { Writes T.written T.has_failed line.old (number_line name.now number) line.new }
{
    line.put(name.as_bytes());
    line.put(b" ");
    line.put_unsigned(number);
    line.put(b"\n");
}

/// Writes the lines of a set.
fn write_set<T: Target>(templates: &Templates, limits: Limits, target: &mut T) -> Result<(), Failed>
    ensures written { OnOk result
        (Appends (T.written target.old) (T.written target.new) (set_lines (tree_of templates.now) limits)) }
    ensures part { OnErr result
        (AppendsFront (T.written target.old) (T.written target.new) (set_lines (tree_of templates.now) limits)) }
    ensures fails { OnErr result (IsTrue (T.has_failed target.new)) }
    ensures stays { OnOk result (T.has_failed target.new ≡ T.has_failed target.old) }
{
    let mut room = Room::new();
    let mut line = LineWriter::new(target, &mut room);
    put_number(&mut line, "templates", u64::from(templates.count()));
    put_number(&mut line, "nodes", u64::from(templates.nodes()));
    put_number(&mut line, "entries", u64::from(templates.entries()));
    put_number(&mut line, "depth", u64::from(templates.depth()));
    put_number(&mut line, "cap", templates.message_cap(limits));
    line.finish()
}

/// Writes the lines of a set, and the list of its templates and nodes.
fn write_set_and_list<T: Target>(
    templates: &Templates,
    limits: Limits,
    target: &mut T,
) -> Result<(), Failed>
    ensures written { OnOk result (Appends (T.written target.old) (T.written target.new)
        (set_lines (tree_of templates.now) limits ++ list_lines (tree_of templates.now))) }
    ensures part { OnErr result (AppendsFront (T.written target.old) (T.written target.new)
        (set_lines (tree_of templates.now) limits ++ list_lines (tree_of templates.now))) }
    ensures fails { OnErr result (IsTrue (T.has_failed target.new)) }
    ensures stays { OnOk result (T.has_failed target.new ≡ T.has_failed target.old) }
{
    match write_set(templates, limits, target) {
        Ok(()) => write_list(templates, target),
        Err(failed) => Err(failed),
    }
}

/// Writes five lines: the number of templates, of nodes and of dictionary entries of a set, how deep it nests, and the greatest number of
/// events that a message of it can have within the limits; and then, if `list` is set, a line for each template and for each node. It makes
/// no decoder, and allocates nothing.
pub fn run_check<T: Target>(
    templates: &Templates,
    limits: Limits,
    list: bool,
    writer: &mut T,
) -> Result<(), RunFault>
    ensures written { OnOk result
        (Appends (T.written writer.old) (T.written writer.new) (check_lines (tree_of templates.now) limits list)) }
    ensures stays { OnOk result (T.has_failed writer.new ≡ T.has_failed writer.old) }
    ensures part { OnErr result
        (AppendsFront (T.written writer.old) (T.written writer.new) (check_lines (tree_of templates.now) limits list)) }
    ensures fails { IfErr result (λ e. (e ≡ RunFault.Write) × IsTrue (T.has_failed writer.new)) }
{
    let written = if list {
        write_set_and_list(templates, limits, writer)
    } else {
        write_set(templates, limits, writer)
    };
    match written {
        Ok(()) => Ok(()),
        Err(_) => Err(RunFault::Write),
    }
}
