//! How rows are spelled: choices, shapes, repeats and bytes. The head of `stdin` says what each of them means.
use std::alloc::{AllocError, Global};

/// The text with its choices taken as the number says, and what is left of the number: 0 if the text has such a way.
pub(crate) fn choose(
    alloc: Global,
    text: &str,
    number: usize,
) -> Result<(String, usize), AllocError> {
    let mut pieces = text.split('(');
    let mut chosen = String::from_str(alloc, pieces.next().unwrap_or(""))?;
    let mut left = number;
    for piece in pieces {
        left = push_choice(&mut chosen, piece, left)?;
    }
    Ok((chosen, left))
}

// Appends what stands behind a parenthesis, one of its choices taken, and returns what is left of the number.
fn push_choice(chosen: &mut String, piece: &str, number: usize) -> Result<usize, AllocError> {
    let Some((choices, rest)) = piece.split_once(')') else {
        chosen.push_str(piece)?;
        return Ok(number);
    };
    let (choice, left) = choice_of(choices, number);
    chosen.push_str(choice)?;
    chosen.push_str(rest)?;
    Ok(left)
}

// One of the choices with bars between them, as the number says, and what is left of the number.
fn choice_of(choices: &str, number: usize) -> (&str, usize) {
    let count = choices.split('|').count().max(1);
    (nth_of(choices, number % count), number / count)
}

// The choice at a place.
fn nth_of(choices: &str, place: usize) -> &str {
    choices.split('|').nth(place).unwrap_or("")
}

/// A shape with the fields in place of `$1`, `$2` and so on.
pub(crate) fn fill(alloc: Global, shape: &str, fields: &[String]) -> Result<String, AllocError> {
    let mut pieces = shape.split('$');
    let mut filled = String::from_str(alloc, pieces.next().unwrap_or(""))?;
    for piece in pieces {
        push_field(&mut filled, piece, fields)?;
    }
    Ok(filled)
}

// Appends what stands behind a dollar, with the field that its digit names.
fn push_field(filled: &mut String, piece: &str, fields: &[String]) -> Result<(), AllocError> {
    if let [digit, ..] = piece.as_bytes() {
        filled.push_str(field_of(fields, *digit))?;
        filled.push_str(piece.get(1..).unwrap_or(""))?;
    }
    Ok(())
}

// The field that a digit names, or nothing.
fn field_of(fields: &[String], digit: u8) -> &str {
    match fields.get(usize::from(digit.wrapping_sub(b'1'))) {
        Some(field) => field.as_str(),
        None => "",
    }
}

/// Appends the bytes of a text in which `\` and two hexadecimal digits stand for a byte.
pub(crate) fn push_bytes(bytes: &mut Vec<u8>, text: &str) -> Result<(), AllocError> {
    for (place, piece) in text.split('\\').enumerate() {
        match piece.get(..2) {
            Some(digits) if place > 0 => {
                bytes.push(u8::from_str_radix(digits, 16).unwrap_or(0))?;
                bytes.extend_from_slice(piece.get(2..).unwrap_or("").as_bytes())?;
            }
            _ => bytes.extend_from_slice(piece.as_bytes())?,
        }
    }
    Ok(())
}

// Appends a text with a number in place of each `#`.
fn push_numbered(
    alloc: Global,
    bytes: &mut Vec<u8>,
    text: &str,
    number: u32,
) -> Result<(), AllocError> {
    for (place, piece) in text.split('#').enumerate() {
        if place > 0 {
            bytes.extend_from_slice(format!(in alloc; "{number}")?.as_bytes())?;
        }
        push_bytes(bytes, piece)?;
    }
    Ok(())
}

// Appends what is in braces: FIRST..LAST:TEXT, where the last number may be the lesser one. Without numbers it is nothing.
fn push_repeated(alloc: Global, bytes: &mut Vec<u8>, repeat: &str) -> Result<(), AllocError> {
    let (range, text) = repeat.split_once(':').unwrap_or((repeat, ""));
    let Some((first, last)) = range.split_once("..") else {
        return Ok(());
    };
    let first = first.parse::<u32>().unwrap_or(1);
    let last = last.parse::<u32>().unwrap_or(0);
    if first <= last {
        for number in first..=last {
            push_numbered(alloc, bytes, text, number)?;
        }
    } else {
        for number in (last..=first).rev() {
            push_numbered(alloc, bytes, text, number)?;
        }
    }
    Ok(())
}

// Appends the bytes of a line, with its repeats.
fn push_line(alloc: Global, bytes: &mut Vec<u8>, text: &str) -> Result<(), AllocError> {
    for (place, piece) in text.split('{').enumerate() {
        match piece.split_once('}') {
            Some((repeat, rest)) if place > 0 => {
                push_repeated(alloc, bytes, repeat)?;
                push_bytes(bytes, rest)?;
            }
            _ => push_bytes(bytes, piece)?,
        }
    }
    Ok(())
}

/// The bytes of a line.
pub(crate) fn line_bytes(alloc: Global, text: &str) -> Result<Vec<u8>, AllocError> {
    let mut bytes = Vec::new(alloc);
    push_line(alloc, &mut bytes, text)?;
    Ok(bytes)
}

/// The bytes of a reply, each of whose lines ends in a newline.
pub(crate) fn reply_bytes(alloc: Global, text: &str) -> Result<Vec<u8>, AllocError> {
    let mut bytes = Vec::new(alloc);
    for line in text.split(" | ") {
        push_line(alloc, &mut bytes, line)?;
        if bytes.last().is_some_and(|last| *last != b'\n') {
            bytes.push(b'\n')?;
        }
    }
    Ok(bytes)
}

/// Whether these are the bytes of a reply, or begin with those of one that ends in `..`.
pub(crate) fn is_reply(alloc: Global, bytes: &[u8], text: &str) -> Result<bool, AllocError> {
    let Some(front) = text.strip_suffix("..") else {
        return Ok(bytes == reply_bytes(alloc, text)?.as_slice());
    };
    let mut wanted = reply_bytes(alloc, front)?;
    // More may come before the newline of its last line.
    wanted.pop();
    Ok(bytes.starts_with(wanted.as_slice()))
}
