//! Messages that are read from their lines.

use fast_value::{Item, Message, Value};
use std::alloc::{AllocError, Global};
use std::mem;

/// The slots of a message, a group or an element.
type Slots = Vec<Option<Item>>;

/// A message, a group or a sequence that is being read: the slots so far, and the elements that are complete.
#[derive(Drop)]
struct Open {
    slots: Slots,
    elements: Vec<Slots>,
}

impl Open {
    fn new(alloc: Global) -> Open {
        Open {
            slots: Vec::new(alloc),
            elements: Vec::new(alloc),
        }
    }
}

/// Adds an item to the innermost open one.
fn add(open: &mut Vec<Open>, item: Option<Item>) -> Result<(), AllocError> {
    if let Some(innermost) = open.last_mut() {
        innermost.slots.push(item)?;
    }
    Ok(())
}

/// Ends the element of the innermost open one.
fn end_element(alloc: Global, open: &mut Vec<Open>) -> Result<(), AllocError> {
    if let Some(innermost) = open.last_mut() {
        let slots = mem::replace(&mut innermost.slots, Vec::new(alloc));
        innermost.elements.push(slots)?;
    }
    Ok(())
}

/// Ends the innermost open one.
fn end(alloc: Global, open: &mut Vec<Open>) -> Open {
    match open.pop() {
        Some(innermost) => innermost,
        None => Open::new(alloc),
    }
}

/// Returns the value of a digit.
fn half_of(digit: u8) -> u8 {
    match digit {
        b'A'..=b'F' => digit.wrapping_sub(b'A' - 10),
        _ => digit.wrapping_sub(b'0'),
    }
}

/// Returns the byte of two digits.
fn byte_of(pair: &[u8]) -> u8 {
    match pair {
        [high, low] => half_of(*high).wrapping_mul(16).wrapping_add(half_of(*low)),
        _ => 0,
    }
}

/// Returns the bytes of digits, two for each.
fn bytes_of(alloc: Global, digits: &[u8]) -> Result<Vec<u8>, AllocError> {
    let mut bytes = Vec::new(alloc);
    for pair in digits.chunks(2) {
        bytes.push(byte_of(pair))?;
    }
    Ok(bytes)
}

/// Returns the bytes of a string: in quotes, or digits after an `x`.
fn text_of(alloc: Global, text: &str) -> Result<Vec<u8>, AllocError> {
    match text.as_bytes() {
        [b'\'', quoted @ .., b'\''] => Vec::from_slice(alloc, quoted),
        [b'x', digits @ ..] => bytes_of(alloc, digits),
        digits => bytes_of(alloc, digits),
    }
}

fn decimal_of(text: &str) -> Option<Value> {
    let (mantissa, exponent) = text.split_once('e')?;
    Some(Value::Dec {
        exponent: exponent.parse().ok()?,
        mantissa: mantissa.parse().ok()?,
    })
}

/// Returns the value of a number that is written with this letter.
fn number_of(letter: u8, text: &str) -> Option<Value> {
    match letter {
        b'u' => Some(Value::U(text.parse().ok()?)),
        b'i' => Some(Value::I(text.parse().ok()?)),
        b'd' => decimal_of(text),
        _ => None,
    }
}

/// Returns the value of a field that is written with this letter.
fn value_of(alloc: Global, letter: u8, text: &str) -> Result<Option<Value>, AllocError> {
    Ok(match letter {
        b'a' => Some(Value::Ascii(text_of(alloc, text)?)),
        b't' => Some(Value::Unicode(text_of(alloc, text)?)),
        b'b' => Some(Value::Bytes(text_of(alloc, text)?)),
        _ => number_of(letter, text),
    })
}

/// Adds a field to the innermost open one. Returns whether the token is a field, as the next functions do.
fn add_field(alloc: Global, open: &mut Vec<Open>, word: &str) -> Result<bool, AllocError> {
    let (field, text) = word.split_once('=').unwrap_or((word, ""));
    let letter = field.as_bytes().first().copied().unwrap_or(0);
    match value_of(alloc, letter, text)? {
        Some(value) => {
            add(open, Some(Item::One(value)))?;
            Ok(true)
        }
        None => Ok(false),
    }
}

/// Adds this number of absent items to the innermost open one.
fn add_absent(open: &mut Vec<Open>, count: u32) -> Result<bool, AllocError> {
    for _ in 0..count {
        add(open, None)?;
    }
    Ok(true)
}

/// Adds this number of elements of one field to the innermost open one.
fn add_elements(
    alloc: Global,
    open: &mut Vec<Open>,
    count: u32,
    field: &str,
) -> Result<bool, AllocError> {
    for _ in 0..count {
        if !add_field(alloc, open, field)? {
            return Ok(false);
        }
        end_element(alloc, open)?;
    }
    Ok(true)
}

fn end_group(alloc: Global, open: &mut Vec<Open>) -> Result<(), AllocError> {
    let group = end(alloc, open);
    add(open, Some(Item::Group(group.slots)))
}

fn end_sequence(alloc: Global, open: &mut Vec<Open>) -> Result<(), AllocError> {
    let sequence = end(alloc, open);
    add(open, Some(Item::Sequence(sequence.elements)))
}

/// Adds a token that is written with a count.
fn add_counted(
    alloc: Global,
    open: &mut Vec<Open>,
    front: &str,
    behind: &str,
) -> Result<bool, AllocError> {
    let count = if front == "-" { behind } else { front };
    match count.parse() {
        Ok(count) if front == "-" => add_absent(open, count),
        Ok(count) => add_elements(alloc, open, count, behind),
        Err(_) => Ok(false),
    }
}

/// Adds a token of a message that is an absent one, an end or a field.
fn add_plain(alloc: Global, open: &mut Vec<Open>, word: &str) -> Result<bool, AllocError> {
    match word {
        "-" => add(open, None)?,
        "/g" => end_group(alloc, open)?,
        "/e" => end_element(alloc, open)?,
        "/s" => end_sequence(alloc, open)?,
        "e" | "/m" => {}
        field => return add_field(alloc, open, field),
    }
    Ok(true)
}

/// Returns whether a token begins a message, a group or a sequence.
fn is_opening(word: &str) -> bool {
    matches!(word.as_bytes().first(), Some(b'm' | b'g' | b's'))
}

/// Adds a token of a message.
fn add_word(alloc: Global, open: &mut Vec<Open>, word: &str) -> Result<bool, AllocError> {
    if is_opening(word) {
        open.push(Open::new(alloc))?;
        return Ok(true);
    }
    match word.split_once('*') {
        Some((front, behind)) => add_counted(alloc, open, front, behind),
        None => add_plain(alloc, open, word),
    }
}

/// Adds the tokens of a message.
fn add_words(alloc: Global, open: &mut Vec<Open>, words: &str) -> Result<bool, AllocError> {
    for word in words.split_whitespace() {
        if !add_word(alloc, open, word)? {
            return Ok(false);
        }
    }
    Ok(true)
}

fn slots_of(alloc: Global, words: &str) -> Result<Option<Slots>, AllocError> {
    let mut open = Vec::new(alloc);
    let is_read = add_words(alloc, &mut open, words)?;
    let slots = end(alloc, &mut open).slots;
    Ok(if is_read { Some(slots) } else { None })
}

/// Returns the number of a message's template.
fn template_of(words: &str) -> Option<u32> {
    let (word, _) = words.split_once(' ').unwrap_or((words, ""));
    word.strip_prefix('m')?.parse().ok()
}

/// Returns the message of these tokens, if they are one.
pub fn message_of(alloc: Global, words: &str) -> Result<Option<Message>, AllocError> {
    let slots = slots_of(alloc, words)?;
    Ok(match (template_of(words), slots) {
        (Some(template), Some(items)) => Some(Message { template, items }),
        _ => None,
    })
}
